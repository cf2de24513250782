//! Answers to deliveries.

/// What the delivery of a packet to a router came to.
#[derive(Clone, Copy)]
pub enum Answer {
    /// So many of its LSAs were new to the router. Where there were some, the packet of them that the router sends on
    /// has this number.
    Changed { count: u32, sent: Option<u32> },
    /// There is no packet of this number.
    NoSuchPacket,
    /// There is no router of this number.
    NoSuchRouter,
}
