//! What names stand for in an area.

ghost use Rattle.std.specs.Prelude.{◌≡◌};
ghost use Rattle.fabric.specs.NamedEvents.{bond_of, event_of, failure_of, spot_of};

use crate::event::{Event, Failure};
use crate::numbers::PacketNo;
use area_graph::{Area, BondNo, Spot};
use fabric_script::{Entry, FailureName, ScriptEvent};
use mrt_graph::{Kind, NodeId};

/// The event that names give in an area. A name that the area does not have gives the number of no node or bond.
///
/// It takes the time of a look-up for each name.
pub fn event_of(area: &Area, event: &ScriptEvent) -> Event
    ensures { result ≡ event_of area.now event.now }
{
    match event {
        ScriptEvent::Inject { router, to, entry } => injection_of(area, *router, *to, *entry),
        ScriptEvent::Step { packet } => Event::Step(PacketNo::new(*packet)),
        ScriptEvent::Fail { failed } => Event::Fail(failure_of(area, failed)),
    }
}

/// A packet that enters at a router.
#[inline(never)]
fn injection_of(area: &Area, router: u32, to: NodeId, entry: Entry) -> Event
    ensures { result ≡ event_of area.now (ScriptEvent.Inject router to entry) }
{
    let at = spot_of(
        area,
        NodeId {
            kind: Kind::Router,
            number: router,
        },
    );
    Event::Inject {
        at,
        to: spot_of(area, to),
        entry,
    }
}

/// The element of this name.
#[inline(never)]
fn failure_of(area: &Area, failed: &FailureName) -> Failure
    ensures { result ≡ failure_of area.now failed.now }
{
    match failed {
        FailureName::Node(id) => Failure::Node(spot_of(area, *id)),
        FailureName::Link { router, link_data } => {
            Failure::Bond(bond_of(area, *router, *link_data))
        }
    }
}

/// The node that has this identifier.
fn spot_of(area: &Area, id: NodeId) -> Spot
    ensures { result ≡ spot_of area.now id }
{
    let none = Spot::new(area.count());
    match area.find(id) {
        Some(spot) => spot,
        None => none,
    }
}

/// The bond that a router and link data name.
fn bond_of(area: &Area, router: u32, link_data: u32) -> BondNo
    ensures { result ≡ bond_of area.now router link_data }
{
    match area.named(router, link_data) {
        Some(bond) => bond,
        None => BondNo::new(area.bonds().len() as u16),
    }
}
