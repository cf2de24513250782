//! What is asked for by a trace.

use crate::entry::Entry;
use crate::event::FailureName;
use mrt_graph::NodeId;

/// From which router to which node a packet is to go, how it enters, and what has failed before, if anything has.
#[derive(Clone, Copy)]
pub struct Trace {
    pub from: u32,
    pub to: NodeId,
    pub entry: Entry,
    pub failed: Option<FailureName>,
}
