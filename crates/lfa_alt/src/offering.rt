//! The first one of the loop-free candidates that paths offer, of all nodes at once.

ghost use Rattle.std.specs.Prelude.{◌≡◌, ◌<◌, ℕ, IfOk, OnOk, Option, None, Some, length, map, slice_get};
ghost use Rattle.area_graph.specs.{AreaInvariant.IsArea, Parts.AreaParts};
ghost use Rattle.primary_alt.specs.DistancesFrom.{AreDistancesFrom};
ghost use Rattle.lfa_alt.specs.{declared.alternate.FreeCandidate.FreeCandidate, declared.destination.Destination.Destination, declared.neighbour_path.NeighbourPath.NeighbourPath};
ghost use Rattle.lfa_alt.specs.steps.Choosing.{AreBest, IsBetterBy, AreDestinations, Offers};
ghost use Rattle.lfa_alt.specs.steps.NeighbourPaths.{ArePaths, IsPathToNetwork};

use crate::alternate::FreeCandidate;
use crate::choosing::{better, candidate_for, candidate_there, is_to_network};
use crate::destination::Destination;
use crate::neighbour_path::NeighbourPath;
use area_graph::Spot;
use mrt_graph::NoMemory;
use primary_alt::Searches;
use std::alloc::Global;

/// The distances from a node.
#[derive(Drop)]
pub struct Near {
    pub at: Spot,
    pub known: Vec<Option<u32>>,
}

/// Of each node the first one of the loop-free candidates that the paths offer for it.
///
/// One search for each router that paths lead to, where those to one node stand together.
pub fn best_of(
    alloc: Global,
    searches: &mut Searches,
    mut near: Near,
    source: Spot,
    destinations: &[Option<Destination>],
    paths: &[NeighbourPath],
) -> Result<Vec<Option<FreeCandidate>>, NoMemory>
    requires kept { IsArea searches.old }
    requires source { source < length searches.old.ids }
    requires near { AreDistancesFrom searches.old.arcs near.at near.known.items }
    requires one_each { length near.known.items ≡ length searches.old.ids }
    requires destinations { AreDestinations searches.old source destinations.now }
    requires paths { ArePaths searches.old source paths.now }
    ensures { IfOk result (λ best.
        AreBest searches.old source destinations.now paths.now (length paths.now) best.items) }
{
    let mut best = none_each(alloc, destinations)?;
    for number in 0..paths.len() {
        let path = &paths[number];
        if is_to_network(path) {
            offer_there(path, destinations, &mut best);
            continue;
        }
        go_to(searches, path.next, &mut near)?;
        offer(path, source, &near.known, destinations, &mut best);
    }
    Ok(best)
}

/// None for each of these.
fn none_each(
    alloc: Global,
    destinations: &[Option<Destination>],
) -> Result<Vec<Option<FreeCandidate>>, NoMemory>
    ensures { IfOk result (λ choices. choices.items ≡ map (λ _. None) destinations.now) }
{
    let choices = destinations.iter().map(|_| None).collect(alloc)?;
    Ok(choices)
}

/// Finds the distances from a node, where they are not those from the node before.
fn go_to(searches: &mut Searches, s: Spot, near: &mut Near) -> Result<(), NoMemory>
    requires within { s < length searches.old.ids }
    requires near { AreDistancesFrom searches.old.arcs near.old.at near.old.known.items }
    requires one_each { length near.old.known.items ≡ length searches.old.ids }
    ensures same { searches.new ≡ searches.old }
    ensures one_each { OnOk result (length near.new.known.items ≡ length searches.old.ids) }
    ensures near { OnOk result (AreDistancesFrom searches.old.arcs s near.new.known.items) }
    ensures at { OnOk result (near.new.at ≡ s) }
{
    if near.at != s {
        searches.distances(s, &mut near.known)?;
        near.at = s;
    }
    Ok(())
}

/// Puts what a path to a network offers for that network in place of its first candidate so far, if it comes before that
/// one. It offers nothing for other nodes.
fn offer_there(
    path: &NeighbourPath,
    destinations: &[Option<Destination>],
    best: &mut Vec<Option<FreeCandidate>>,
)
    requires next { path.now.next < length destinations.now }
    requires best { length best.old.items ≡ length destinations.now }
    ensures one_each { length best.new.items ≡ length best.old.items }
    ensures better { (area : AreaParts) (source : ℕ) → IsArea area → IsPathToNetwork area source path.now
        → AreDestinations area source destinations.now → (t : ℕ) (entry : Option Destination) (old new : Option FreeCandidate)
        → slice_get destinations.now t ≡ Some entry → slice_get best.old.items t ≡ Some old
        → slice_get best.new.items t ≡ Some new
        → IsBetterBy (Offers area source t entry path.now) old new }
{
    let place = path.next.get() as usize;
    best[place] = better(best[place], candidate_there(path, &destinations[place]));
}

/// Puts what a path offers for each node in place of its first candidate so far, if it comes before that one.
fn offer(
    path: &NeighbourPath,
    source: Spot,
    known: &[Option<u32>],
    destinations: &[Option<Destination>],
    best: &mut Vec<Option<FreeCandidate>>,
)
    requires source { source < length known.now }
    requires one_each { length destinations.now ≡ length known.now }
    requires best { length best.old.items ≡ length known.now }
    requires throughs { (t : ℕ) (destination : Destination) → slice_get destinations.now t ≡ Some (Some destination)
        → destination.primary.next < length known.now }
    ensures one_each { length best.new.items ≡ length best.old.items }
    ensures better { (area : AreaParts) → AreDistancesFrom area.arcs path.now.next known.now
        → AreDestinations area source destinations.now → (t : ℕ) (entry : Option Destination) (old new : Option FreeCandidate)
        → slice_get destinations.now t ≡ Some entry → slice_get best.old.items t ≡ Some old
        → slice_get best.new.items t ≡ Some new
        → IsBetterBy (Offers area source t entry path.now) old new }
{
    for t in 0..best.len() {
        best[t] = better(
            best[t],
            candidate_for(path, source, known, t, &destinations[t]),
        );
    }
}
