//! A script.

use crate::event::ScriptEvent;
use mrt_graph::Seq;

/// A router, whose island's tables are used; how many packets there may be; and the events, in their order.
pub struct Script {
    pub router: u32,
    pub room: u16,
    pub events: Seq<ScriptEvent>,
}

impl Drop for Script {
    fn drop(self) {
        let Self {
            router: _,
            room: _,
            events: _,
        } = self;
    }
}
