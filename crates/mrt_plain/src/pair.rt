//! Two nodes.

use mrt_graph::{Link, NodeNo};

/// Two nodes, on links between so many nodes.
#[derive(Clone, Copy)]
pub struct Pair<'a> {
    pub links: &'a [Link],
    pub count: u16,
    pub s: NodeNo,
    pub t: NodeNo,
}
