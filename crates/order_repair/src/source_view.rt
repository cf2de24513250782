//! What tells which way a source's packets go round a failure.

use block_spf::Reach;
use mrt_graph::{Directed, Graph};

/// A graph with its directions, and the hops of a source up and down.
#[derive(Clone, Copy)]
pub struct SourceView<'a> {
    pub graph: &'a Graph,
    pub directed: &'a Directed,
    pub up: &'a Reach,
    pub down: &'a Reach,
}
