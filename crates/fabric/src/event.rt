//! Events, and the answers to them.

use crate::numbers::PacketNo;
use crate::packet::Loss;
use area_graph::{BondNo, Spot};
use fabric_script::Entry;
use mrt_graph::Color;

/// A node or a bond of the area that fails.
#[derive(Clone, Copy)]
pub enum Failure {
    Node(Spot),
    Bond(BondNo),
}

/// One event: a packet enters, the router where a packet is handles it once, or an element fails.
#[derive(Clone, Copy)]
pub enum Event {
    Inject { at: Spot, to: Spot, entry: Entry },
    Step(PacketNo),
    Fail(Failure),
}

/// The answer to an event that is not refused.
#[derive(Clone, Copy)]
pub enum Outcome {
    /// The packet got this number.
    Entered(PacketNo),
    /// The packet is at this router now.
    Moved(Spot),
    /// The packet stays, and is on this color from now on.
    Switched(Color),
    /// The packet is at its destination.
    Delivered(Spot),
    Lost(Loss),
    /// The failure is kept.
    Failed,
}

/// Why an event is refused.
#[derive(Clone, Copy)]
pub enum Refused {
    /// The area, or for a color the island, has no such place.
    NoSuchPlace,
    /// As many packets as there is room for were made.
    Full,
    /// No packet has this number.
    NoSuchPacket,
    /// The packet was delivered or lost.
    Ended,
    /// A failure is kept already.
    SecondFailure,
}
