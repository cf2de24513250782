//! What the steps of packets read.

use area_graph::Area;
use mrt_graph::Graph;
use primary_alt::Routes;

/// The area; the island, and that from which the rows of its nodes are read; and the routes that are made with both.
#[derive(Drop)]
pub struct Parts<'a, R> {
    pub area: &'a Area,
    pub island: &'a Graph,
    pub rows: &'a R,
    pub routes: &'a Routes,
}
