//! The loop-free alternates of a router.

ghost use Rattle.std.specs.Prelude.{◌≡◌, ◌<◌, IfOk, length, map};
ghost use Rattle.std.specs.Option.{option_map};
ghost use Rattle.area_graph.specs.AreaInvariant.{IsArea};
ghost use Rattle.mrt_graph.specs.GraphInvariant.{IsNetwork};
ghost use Rattle.primary_alt.specs.{DistancesFrom.AreDistancesFrom, Primaries.ArePrimaries};
ghost use Rattle.lfa_alt.specs.steps.Choosing.{AreDestinations};
ghost use Rattle.lfa_alt.specs.LoopFree.{AreLfas, alternate_of};
ghost use Rattle.lfa_alt.specs.steps.NeighbourPaths.{ArePaths};

use crate::alternate::{FreeCandidate, Lfa};
use crate::destination::Destination;
use crate::destinations::destinations;
use crate::neighbour_path::NeighbourPath;
use crate::neighbour_paths::paths;
use crate::offering::{Near, best_of};
use area_graph::{Area, Spot};
use mrt_graph::NoMemory;
use primary_alt::{FromRouter, Searches, all_arcs, from_router};
use std::alloc::Global;

/// Of each node the loop-free alternate of the source, a router, for it (RFC 5286, section 3): None for the source
/// itself, where no walk leads, and where no candidate is loop-free.
///
/// One search from each neighbouring router serves all nodes, and what [`from_router`](primary_alt::from_router) takes
/// gives the source's primaries and its distances. So it takes time in proportion to the neighbours times the arcs, times
/// the logarithm of the latter, and to the paths times the nodes. A path is an arc of the source, or its arc to a network and
/// a node on that network. The hub of a star and a router on a network of all routers search from each of them.
pub fn loop_free(alloc: Global, area: &Area, source: Spot) -> Result<Vec<Option<Lfa>>, NoMemory>
    requires within { source < length area.now.ids }
    requires router { ¬ IsNetwork area.now.ids source }
    ensures { IfOk result (λ entries. AreLfas area.now source entries.items) }
{
    let from = from_router(alloc, area, source)?;
    alternates(alloc, area, source, &from)
}

/// Of each node the loop-free alternate of the source for it, by the primaries of the source and the distances from it.
pub fn alternates(
    alloc: Global,
    area: &Area,
    source: Spot,
    from: &FromRouter,
) -> Result<Vec<Option<Lfa>>, NoMemory>
    requires within { source < length area.now.ids }
    requires primaries { ArePrimaries area.now source from.now.primaries.items }
    requires distances { AreDistancesFrom area.now.arcs source from.now.distances.items }
    requires one_each { length from.now.distances.items ≡ length area.now.ids }
    ensures { IfOk result (λ entries. AreLfas area.now source entries.items) }
{
    let arcs = all_arcs(alloc, area)?;
    let destinations = destinations(alloc, area, &arcs, source, &from.primaries, &from.distances)?;
    let paths = paths(alloc, area, &arcs, source)?;
    alternates_by(alloc, area, source, &from.distances, &destinations, &paths)
}

/// The same, by what is asked of each node and by the paths of the source.
fn alternates_by(
    alloc: Global,
    area: &Area,
    source: Spot,
    distances: &[Option<u32>],
    destinations: &[Option<Destination>],
    paths: &[NeighbourPath],
) -> Result<Vec<Option<Lfa>>, NoMemory>
    requires kept { IsArea area.now }
    requires within { source < length area.now.ids }
    requires distances { AreDistancesFrom area.now.arcs source distances.now }
    requires one_each { length distances.now ≡ length area.now.ids }
    requires destinations { AreDestinations area.now source destinations.now }
    requires paths { ArePaths area.now source paths.now }
    ensures { IfOk result (λ entries. AreLfas area.now source entries.items) }
{
    let mut searches = Searches::new(alloc, area)?;
    let known = Vec::from_slice(alloc, distances)?;
    let near = Near { at: source, known };
    let best = best_of(alloc, &mut searches, near, source, destinations, paths)?;
    lfas(alloc, &best)
}

/// The alternates that these candidates make.
fn lfas(alloc: Global, best: &[Option<FreeCandidate>]) -> Result<Vec<Option<Lfa>>, NoMemory>
    ensures { IfOk result (λ entries. entries.items ≡ map (option_map alternate_of) best.now) }
{
    let entries = best
        .iter()
        .map(|choice| alternate_of(*choice))
        .collect(alloc)?;
    Ok(entries)
}

/// The alternate that a candidate makes, if there is one.
fn alternate_of(choice: Option<FreeCandidate>) -> Option<Lfa>
    ensures { result ≡ option_map alternate_of choice }
{
    let choice = choice?;
    Some(Lfa {
        first: choice.first,
        second: choice.second,
        next: choice.next,
        node: choice.node,
    })
}
