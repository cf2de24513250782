//! Rows for a prefix that is attached to two routers.

use mrt_graph::LinkNo;

/// Where a node sends on a color: over a link of the graph, or to the prefix, which is attached to the node itself.
#[derive(Clone, Copy)]
pub enum Out {
    Link(LinkNo),
    Attached,
}

/// What a node does with a packet for the prefix, on each color (RFC 7812, section 3).
#[derive(Clone, Copy)]
pub struct ProxyRow {
    pub blue: Out,
    pub red: Out,
}
