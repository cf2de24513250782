//! Where packets may enter.

ghost use Rattle.std.specs.Prelude.{◌≡◌, ◌<◌, ◌↔◌, IsTrue, length};
ghost use Rattle.fabric.specs.Answers.{AreInside, HasElement, IsOpen, MayEnter};
ghost use Rattle.fabric.specs.FabricParts.{ArePartsKept};
ghost use Rattle.fabric.specs.FabricState.{entering, mode_of};
ghost use Rattle.fabric.specs.steps.Viewed.{AreRouted, viewed};

use crate::event::Failure;
use crate::in_island::{is_at_network, node_of};
use crate::packet::{Mode, Packet, State};
use crate::parts::Parts;
use area_graph::Spot;
use fabric_script::Entry;
use mrt_graph::{Color, RowsOf};

/// Whether a packet may enter at a node for another one.
pub fn may_enter<R: RowsOf>(parts: &Parts<'_, R>, at: Spot, to: Spot, entry: Entry) -> bool
    requires kept { ArePartsKept (viewed R.rows parts.now) }
    requires routed { AreRouted parts.now }
    ensures { IsTrue result ↔ MayEnter parts.now.area.now parts.now.island.now at to entry }
{
    let count = parts.area.count();
    at.get() < count
        && to.get() < count
        && !is_at_network(parts.area, at)
        && !(at == to)
        && is_open(parts, at, to, entry)
}

/// Whether an entry is open from one node to another.
fn is_open<R: RowsOf>(parts: &Parts<'_, R>, at: Spot, to: Spot, entry: Entry) -> bool
    requires kept { ArePartsKept (viewed R.rows parts.now) }
    requires routed { AreRouted parts.now }
    requires at { at < length parts.now.area.now.ids }
    requires to { to < length parts.now.area.now.ids }
    ensures { IsTrue result ↔ IsOpen parts.now.area.now parts.now.island.now at to entry }
{
    match entry {
        Entry::Blue => are_inside(parts, at, to),
        Entry::Red => are_inside(parts, at, to),
        Entry::Repair => true,
    }
}

/// Whether both nodes are of the island.
fn are_inside<R: RowsOf>(parts: &Parts<'_, R>, at: Spot, to: Spot) -> bool
    requires kept { ArePartsKept (viewed R.rows parts.now) }
    requires routed { AreRouted parts.now }
    requires at { at < length parts.now.area.now.ids }
    requires to { to < length parts.now.area.now.ids }
    ensures { IsTrue result ↔ AreInside parts.now.area.now parts.now.island.now at to }
{
    node_of(parts, at).is_some() && node_of(parts, to).is_some()
}

/// A packet that enters.
pub fn entering(at: Spot, to: Spot, entry: Entry) -> Packet
    ensures { result ≡ entering at to entry }
{
    Packet {
        place: at,
        to,
        mode: mode_of(entry),
        state: State::Going,
    }
}

/// The mode in which a packet enters.
fn mode_of(entry: Entry) -> Mode
    ensures { result ≡ mode_of entry }
{
    match entry {
        Entry::Blue => Mode::Entered(Color::Blue),
        Entry::Red => Mode::Entered(Color::Red),
        Entry::Repair => Mode::Primary,
    }
}

/// Whether the area has an element.
pub fn has_element<R: RowsOf>(parts: &Parts<'_, R>, failed: &Failure) -> bool
    ensures { IsTrue result ↔ HasElement parts.now.area.now failed.now }
{
    match failed {
        Failure::Node(s) => s.get() < parts.area.count(),
        Failure::Bond(b) => (b.get() as usize) < parts.area.bonds().len(),
    }
}
