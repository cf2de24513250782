//! A path from a router to a neighbour.

use area_graph::{ArcNo, BondNo, Spot};

/// Over an arc alone, or over an arc to a network and one of the network.
#[derive(Clone, Copy)]
pub struct NeighbourPath {
    pub first: ArcNo,
    pub second: Option<ArcNo>,
    pub next: Spot,
    /// The bond of the first arc.
    pub bond: BondNo,
    /// The sum of the metrics of its arcs.
    pub metric: u32,
    /// The network that the first arc leads to, if it leads to one.
    pub network: Option<Spot>,
}
