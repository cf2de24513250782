use mrt_graph::NodeId;

/// An LSA: the node that it is of, the router that advertises it, and its place among all.
#[derive(Clone, Copy)]
pub struct Speaker {
    pub id: NodeId,
    pub router: u32,
    pub at: usize,
}
