//! What a table's line is made from.

use area_graph::Area;
use mrt_graph::{Graph, LinkNo, NodeNo};
use primary_alt::Primary;

/// The area; the island, with the island link that each bond of the area is, if it is one; what the rows of all nodes for the
/// destination are read from; the router and the destination, by their numbers in the island; and the router's
/// primary for it.
#[derive(Drop)]
pub struct Parts<'a, R> {
    pub area: &'a Area,
    pub island: &'a Graph,
    pub link_of: &'a [Option<LinkNo>],
    pub rows: &'a R,
    pub source: NodeNo,
    pub to: NodeNo,
    pub primary: Primary,
}
