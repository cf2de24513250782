//! Hops of packets.

ghost use Rattle.std.specs.Prelude.{◌≡◌};
ghost use Rattle.fabric.specs.{Handling.has_failed, PacketHop.cuts, PacketHop.is_on, PacketHop.is_on_second};

use crate::event::Failure;
use area_graph::{BondNo, Spot};

/// A bond, and the node after it.
#[derive(Clone, Copy)]
pub struct Crossing {
    pub bond: BondNo,
    pub node: Spot,
}

/// A hop: over one bond, and over a second one where the first leads to a network on the way; and the node that it leads
/// to.
#[derive(Clone, Copy)]
pub struct NextHop {
    pub first: Crossing,
    pub second: Option<Crossing>,
    pub next: Spot,
}

/// Whether a failure cuts a hop: it is on one of its crossings.
pub fn cuts(failure: &Option<Failure>, hop: &NextHop) -> bool
    ensures { result ≡ cuts failure.now hop.now }
{
    match failure {
        None => false,
        Some(failed) => is_on(failed, &hop.first) || is_on_second(failed, &hop.second),
    }
}

/// Whether a failure is on the second crossing, if there is one.
fn is_on_second(failed: &Failure, second: &Option<Crossing>) -> bool
    ensures { result ≡ is_on_second failed.now second.now }
{
    match second {
        None => false,
        Some(crossing) => is_on(failed, crossing),
    }
}

/// Whether a failure is the bond of a crossing, or the node after it.
fn is_on(failed: &Failure, crossing: &Crossing) -> bool
    ensures { result ≡ is_on failed.now crossing.now }
{
    match failed {
        Failure::Node(node) => *node == crossing.node,
        Failure::Bond(bond) => *bond == crossing.bond,
    }
}

/// Whether a node has failed.
pub fn has_failed(failure: &Option<Failure>, node: Spot) -> bool
    ensures { result ≡ has_failed failure.now node }
{
    match failure {
        None => false,
        Some(Failure::Node(failed)) => *failed == node,
        Some(Failure::Bond(_)) => false,
    }
}
