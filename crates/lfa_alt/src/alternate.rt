//! Loop-free alternates.

use area_graph::{ArcNo, Spot};

/// Where a router sends a packet for one destination once its primary fails: the arc of the router, the arc of the
/// network that it leads to, if it leads to one other than the destination, and the router reached, or the destination.
#[derive(Clone, Copy)]
pub struct Lfa {
    pub first: ArcNo,
    pub second: Option<ArcNo>,
    pub next: Spot,
    /// Whether it protects the primary's next: no packet comes there on the way round. Where it is false, that is not
    /// promised.
    pub node: bool,
}

/// A loop-free candidate: its arcs and its next, whether it protects the primary's next, and the cost of the shortest
/// path over it.
#[derive(Clone, Copy)]
pub struct FreeCandidate {
    pub first: ArcNo,
    pub second: Option<ArcNo>,
    pub next: Spot,
    pub node: bool,
    pub cost: u64,
}
