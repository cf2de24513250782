//! Scripts of deliveries.

use mrt_graph::Seq;

/// What a later line of a script says.
#[derive(Clone, Copy)]
pub enum FloodLine {
    /// The packet of this number is delivered to the router of that one.
    Deliver { packet: u32, router: u16 },
    /// Two routers' databases are compared by the certificate of a router's island.
    Same { one: u16, other: u16, router: u32 },
}

/// How many routers there are, 1 to 64 where the script was read, and the later lines, in their order.
pub struct FloodScript {
    pub routers: u16,
    pub lines: Seq<FloodLine>,
}

impl Drop for FloodScript {
    fn drop(self) {
        let Self {
            routers: _,
            lines: _,
        } = self;
    }
}
