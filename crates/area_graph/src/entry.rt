use mrt_graph::NodeId;

/// What an LSA lists and leads from one node of an area to another: a link of a router, or a router of a network. There may
/// be as many as a database has room for, so its numbers have 32 bits each.
#[derive(Clone, Copy)]
pub struct NumberedEntry {
    /// The number of the LSA's node.
    pub tail: u32,
    /// The number of the node that it leads to.
    pub far: u32,
    pub metric: u16,
    pub link_data: u32,
    /// Its place among what the LSA lists, from 0.
    pub place: u32,
}

/// The nodes of an area by ascending identifier, and the entries of the LSAs that speak for them.
#[derive(Drop)]
pub struct Listing {
    pub ids: Vec<NodeId>,
    pub entries: Vec<NumberedEntry>,
}
