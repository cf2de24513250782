//! A source and a destination that have a block of more than one link in common.

use mrt_graph::{NodeNo, Tag};

/// The two, and the tag of the row of the one for the other.
#[derive(Clone, Copy)]
pub struct Pair {
    pub source: NodeNo,
    pub to: NodeNo,
    pub tag: Tag,
}
