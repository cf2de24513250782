//! Arcs and bonds.

use crate::numbers::{BondNo, Spot};

/// One direction between two nodes of an area, which the LSAs of both of them tell (RFC 2328, section 16.1).
#[derive(Clone, Copy)]
pub struct Arc {
    pub tail: Spot,
    pub to: Spot,
    /// The cost of the interface at the tail; 0 where the tail is a network.
    pub metric: u16,
    /// The link data of the interface at the tail; 0 where the tail is a network.
    pub link_data: u32,
    pub bond: BondNo,
}

/// What joins two nodes: two arcs that are each other's way back, or one arc alone.
#[derive(Clone, Copy)]
pub struct Bond {
    /// The lower node of a pair; of a single arc its tail.
    pub a: Spot,
    pub b: Spot,
    /// Whether it is a pair.
    pub paired: bool,
    pub data_a: u32,
    /// 0 where it is no pair.
    pub data_b: u32,
    pub metric_a: u16,
    /// 0 where it is no pair.
    pub metric_b: u16,
}
