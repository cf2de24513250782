//! Packets.

use area_graph::Spot;
use mrt_graph::Color;

/// By what a packet is sent: by the primaries, or by the rows of a color, on which it entered or to which it was
/// switched.
#[derive(Clone, Copy)]
pub enum Mode {
    Primary,
    Entered(Color),
    Switched(Color),
}

/// Why a packet is lost.
#[derive(Clone, Copy)]
pub enum Loss {
    /// Its place is the failed node.
    Inside,
    /// No walk leads from its place to its destination.
    NoRoute,
    /// Its hop is cut, and its destination is the failed node.
    IsDestination,
    /// The hop of the color on which it entered is cut, by another element than its destination.
    ColorCut,
    /// Its primary hop is cut by another element than its destination, and its place or its destination is not of the
    /// island.
    Outside,
    /// Its primary hop is cut by another element than its destination, and no color goes round the failure.
    NoAlternate,
}

#[derive(Clone, Copy)]
pub enum State {
    Going,
    Delivered,
    Lost(Loss),
}

/// A packet: the node where it is, the node that it is for, and how it stands.
#[derive(Clone, Copy)]
pub struct Packet {
    pub place: Spot,
    pub to: Spot,
    pub mode: Mode,
    pub state: State,
}
