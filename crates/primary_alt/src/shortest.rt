//! The next hop of a shortest path.

use area_graph::{ArcNo, Spot};

/// Where a router sends a packet for one destination: the arc of the router, the arc of the network that it leads to,
/// if it leads to one other than the destination, and the router reached, or the destination.
#[derive(Clone, Copy)]
pub struct Primary {
    pub first: ArcNo,
    pub second: Option<ArcNo>,
    pub next: Spot,
}
