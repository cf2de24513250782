//! What loop-free candidate a path is for a destination, and which of two comes first.

ghost use Rattle.std.specs.Prelude.{◌≡◌, ◌<◌, ◌↔◌, ℕ, IfSome, None, Some, ◌&&◌, is_none, is_some, length};
ghost use Rattle.std.specs.Ordering.{is_gt};
ghost use Rattle.area_graph.specs.{AreaInvariant.IsArea, Parts.AreaParts};
ghost use Rattle.primary_alt.specs.DistancesFrom.{AreDistancesFrom};
ghost use Rattle.lfa_alt.specs.declared.alternate.FreeCandidate.{FreeCandidate};
ghost use Rattle.lfa_alt.specs.steps.Choosing.{better};
ghost use Rattle.lfa_alt.specs.LoopFree.{candidate_cmp, free_choice};
ghost use Rattle.lfa_alt.specs.steps.Choosing.{IsDestinationFor, Offers};
ghost use Rattle.lfa_alt.specs.steps.Choosing.{is_nearer, may_serve, offer, protects};
ghost use Rattle.lfa_alt.specs.steps.NeighbourPaths.{IsPathToNetwork, candidate_of, serves};

use crate::alternate::FreeCandidate;
use crate::destination::Destination;
use crate::neighbour_path::NeighbourPath;
use area_graph::Spot;

/// The loop-free candidate that a path is for a node, if it is one, by the distances from its next.
pub fn candidate_for(
    path: &NeighbourPath,
    source: Spot,
    known: &[Option<u32>],
    t: usize,
    destination: &Option<Destination>,
) -> Option<FreeCandidate>
    requires source { source < length known.now }
    requires to { t < length known.now }
    requires through { IfSome destination.now (λ destination. destination.primary.next < length known.now) }
    ensures { (area : AreaParts) → AreDistancesFrom area.arcs path.now.next known.now
        → IsDestinationFor area source t destination.now → (choice : FreeCandidate)
        → (result ≡ Some choice) ↔ Offers area source t destination.now path.now choice }
{
    match destination {
        Some(destination) => {
            // (before any distance is read)
            if path.bond == destination.bond {
                return None;
            }
            let out = known[source.get() as usize];
            let through = known[destination.primary.next.get() as usize];
            offer(path, destination, t, known[t], out, through)
        }
        None => None,
    }
}

/// Whether a path ends at a network.
pub fn is_to_network(path: &NeighbourPath) -> bool
    ensures { result ≡ (is_some path.now.network && is_none path.now.second) }
{
    path.network.is_some() && path.second.is_none()
}

/// The loop-free candidate that a path to a network is for it, if it is one. No distance from the network is asked: from
/// there to itself it is 0, and from any other node to it greater.
pub fn candidate_there(
    path: &NeighbourPath,
    destination: &Option<Destination>,
) -> Option<FreeCandidate>
    ensures { (area : AreaParts) (source : ℕ) → IsArea area → IsPathToNetwork area source path.now
        → IsDestinationFor area source path.now.next destination.now → (choice : FreeCandidate)
        → (result ≡ Some choice) ↔ Offers area source path.now.next destination.now path.now choice }
{
    match destination {
        Some(destination) => {
            let t = path.next.get() as usize;
            offer(path, destination, t, Some(0), None, None)
        }
        None => None,
    }
}

/// What a path offers for a node with a primary, by the distances from its next to the node, to the source and to the
/// primary's next.
fn offer(
    path: &NeighbourPath,
    destination: &Destination,
    t: usize,
    rest: Option<u32>,
    out: Option<u32>,
    through: Option<u32>,
) -> Option<FreeCandidate>
    ensures { result ≡ offer path.now destination.now t rest out through }
{
    let rest = rest?;
    if may_serve(path, destination, t, rest, out) {
        Some(free_choice(path, protects(destination, t, rest, through), rest))
    } else {
        None
    }
}

/// Whether a path may stand in for the primary.
fn may_serve(
    path: &NeighbourPath,
    destination: &Destination,
    t: usize,
    rest: u32,
    out: Option<u32>,
) -> bool
    ensures { result ≡ may_serve path.now destination.now t rest out }
{
    serves(path, t) && path.bond != destination.bond && is_nearer(rest, out, destination.distance)
}

/// Whether a path serves a node.
fn serves(path: &NeighbourPath, t: usize) -> bool
    ensures { result ≡ serves path.now.network path.now.second t }
{
    match (path.network, path.second) {
        (None, _) => true,
        (Some(network), None) => network.get() as usize == t,
        (Some(network), Some(_)) => network.get() as usize != t,
    }
}

/// Whether a distance is less than two together, the first of which may be missing.
fn is_nearer(rest: u32, out: Option<u32>, back: u32) -> bool
    ensures { result ≡ is_nearer rest out back }
{
    match out {
        Some(out) => (rest as u64) < out as u64 + back as u64,
        None => true,
    }
}

/// Whether the path protects the primary's next.
fn protects(destination: &Destination, t: usize, rest: u32, through: Option<u32>) -> bool
    ensures { result ≡ protects destination.now t rest through }
{
    destination.primary.next.get() as usize != t && is_nearer(rest, through, destination.beyond)
}

fn free_choice(path: &NeighbourPath, node: bool, rest: u32) -> FreeCandidate
    ensures { result ≡ free_choice (candidate_of path.now) node rest }
{
    FreeCandidate {
        first: path.first,
        second: path.second,
        next: path.next,
        node,
        cost: path.metric as u64 + rest as u64,
    }
}

/// The one that comes first; the former where they come together.
pub fn better(best: Option<FreeCandidate>, offered: Option<FreeCandidate>) -> Option<FreeCandidate>
    ensures { result ≡ better best offered }
{
    match (best, offered) {
        (Some(one), Some(other)) => {
            if is_after(&one, &other) {
                offered
            } else {
                best
            }
        }
        (None, _) => offered,
        (_, None) => best,
    }
}

/// Whether the other one comes before this one.
fn is_after(one: &FreeCandidate, other: &FreeCandidate) -> bool
    ensures { result ≡ is_gt (candidate_cmp one.now other.now) }
{
    if one.node != other.node {
        return other.node;
    }
    if one.cost != other.cost {
        return one.cost > other.cost;
    }
    if one.first != other.first {
        return one.first > other.first;
    }
    one.second > other.second
}
