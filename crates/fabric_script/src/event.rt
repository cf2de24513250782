//! What the lines of a script say.

use crate::entry::Entry;
use mrt_graph::NodeId;

/// What has failed, by name: a node, or the link of a router with this link data.
#[derive(Clone, Copy)]
pub enum FailureName {
    Node(NodeId),
    Link { router: u32, link_data: u32 },
}

/// An event, by names.
#[derive(Clone, Copy)]
pub enum ScriptEvent {
    /// A packet enters at a router, for a node.
    Inject {
        router: u32,
        to: NodeId,
        entry: Entry,
    },
    /// The router where the packet with this number is handles it once.
    Step {
        packet: u16,
    },
    /// A node or a link fails.
    Fail {
        failed: FailureName,
    },
}
