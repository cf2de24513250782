//! Packets on their way.

ghost use Rattle.std.specs.Prelude.{◌≡◌, ◌≤◌, IfOk, slice_get};
ghost use Rattle.fabric.specs.FabricState.{packet_after};
ghost use Rattle.fabric.specs.declared.event.Event.TheVariants as events;

use crate::entering::{entering, has_element, may_enter};
use crate::event::{Event, Failure, Outcome, Refused};
use crate::handling::handled;
use crate::numbers::PacketNo;
use crate::packet::{Mode, Packet, State};
use crate::parts::Parts;
use area_graph::{Area, Spot};
use fabric_script::Entry;
use mrt_graph::{Graph, NoMemory, RowsOf};
use primary_alt::Routes;
use std::alloc::Global;
use std::marker::Model;

/// Packets on their way through an area, one of whose elements may fail; and the tables by which its routers send them:
/// routes, and rows from any source of them, as far as they are for the destinations of these packets.
pub struct Fabric<'a, R: RowsOf> {
    parts: Parts<'a, R>,
    packets: Vec<Packet>,
    failure: Option<Failure>,
    room: u16,
}

impl<R: RowsOf> Drop for Fabric<'_, R> {
    fn drop(self) {
        let Self {
            parts: _,
            packets: _,
            failure: _,
            room: _,
        } = self;
    }
}

impl<'a, R: RowsOf> Model for Fabric<'a, R> {
    ghost use Rattle.std.specs.Prelude.{◌≤◌, vec_capacity};
    ghost use Rattle.fabric.specs.FabricParts.{ArePartsKept};
    ghost use Rattle.fabric.specs.FabricState.{state_of};
    ghost use Rattle.fabric.specs.steps.KeptState.{IsKeptState};
    ghost use Rattle.fabric.specs.steps.Served.{ArePacketsServed};
    ghost use Rattle.fabric.specs.steps.Viewed.{AreRouted, tables_of, viewed};
    ghost use Rattle.fabric.specs.Viewed.{FabricSeen};

    ghost Value = { FabricSeen R };

    ghost view = { λ f. record {
      tables = tables_of f.parts;
      state = state_of f.packets.items f.failure f.room;
    } };

    ghost invariant = { λ f. ArePartsKept (viewed R.rows f.parts) × AreRouted f.parts
        × IsKeptState (viewed R.rows f.parts) (state_of f.packets.items f.failure f.room)
        × (f.room ≤ vec_capacity f.packets)
        × ArePacketsServed (viewed R.rows f.parts) f.parts.routes.now f.packets.items };
}

impl<'a, R: RowsOf> Fabric<'a, R> {
    ghost use Rattle.std.specs.Prelude.{◌≡◌, ◌≤◌, IfOk, slice_get};
    ghost use Rattle.fabric.specs.{FabricState.start, Runs.FabricStep, OutcomeText.IsTellable, Served.IsEventServed, Served.IsServedBy};
    ghost use Rattle.fabric.specs.Viewed.{parts_of};
    ghost use Rattle.fabric.specs.declared.event.Event.TheVariants as events;
    ghost use Rattle.primary_alt.specs.RoutesMade.{AreMade};

    /// A fabric without packets and without a failure, with room for so many packets, which is taken here.
    pub fn new(
        alloc: Global,
        area: &'a Area,
        g: &'a Graph,
        rows: &'a R,
        routes: &'a Routes,
        room: u16,
    ) -> Result<Fabric<'a, R>, NoMemory>
        requires routed { AreMade area.now g.now routes.now }
        requires room { 1 ≤ room }
        ensures { IfOk result (λ fabric. fabric ≡ record {
          tables = record {
            area = area.now;
            island = g.now;
            rows = rows.now;
            routes = routes.now;
          };
          state = start room;
        }) }
    {
        // what the area and the graph keep is told by reading them
        let _area = area.count();
        let _nodes = g.node_count();
        let packets = Vec::with_capacity(alloc, room as usize)?;
        Ok(Fabric {
            parts: Parts {
                area,
                island: g,
                rows,
                routes,
            },
            packets,
            failure: None,
            room,
        })
    }

    /// One event: its answer, and the state after it. A refusal changes nothing.
    ///
    /// It takes no memory. The time is that of reading a few entries of tables; where a packet's primary hop is cut, it
    /// follows both color walks as well.
    pub fn apply(&mut self, e: Event) -> Result<Outcome, Refused>
        requires { IsEventServed (parts_of R.rows self.old.tables) self.old.tables.routes e }
        ensures step { FabricStep (parts_of R.rows self.old.tables) self.old.state e result self.new.state }
        ensures tables { self.new.tables ≡ self.old.tables }
        ensures told { IsTellable self.old.tables.area.ids result }
    {
        match e {
            Event::Inject { at, to, entry } => self.inject(at, to, entry),
            Event::Step(p) => self.step(p),
            Event::Fail(failed) => self.fail(failed),
        }
    }

    /// The packet of that number, if one was made.
    pub fn packet(&self, p: PacketNo) -> Option<Packet>
        ensures { result ≡ slice_get self.now.state.packets p }
    {
        packet_of(&self.packets, p)
    }

    /// A packet enters, if it may and there is room.
    fn inject(&mut self, at: Spot, to: Spot, entry: Entry) -> Result<Outcome, Refused>
        requires { IsServedBy (parts_of R.rows self.old.tables) self.old.tables.routes to }
        ensures step { FabricStep (parts_of R.rows self.old.tables) self.old.state (events.Inject at to entry)
            result self.new.state }
        ensures tables { self.new.tables ≡ self.old.tables }
        ensures told { IsTellable self.old.tables.area.ids result }
    {
        if !may_enter(&self.parts, at, to, entry) {
            return Err(Refused::NoSuchPlace);
        }
        let number = self.packets.len();
        if number >= self.room as usize {
            return Err(Refused::Full);
        }
        self.packets.push(entering(at, to, entry)).unwrap();
        Ok(Outcome::Entered(PacketNo::new(number as u16)))
    }

    /// The router where a packet is handles it once, if it is going.
    fn step(&mut self, p: PacketNo) -> Result<Outcome, Refused>
        ensures step { FabricStep (parts_of R.rows self.old.tables) self.old.state (events.Step p)
            result self.new.state }
        ensures tables { self.new.tables ≡ self.old.tables }
        ensures told { IsTellable self.old.tables.area.ids result }
    {
        let Some(packet) = packet_of(&self.packets, p) else {
            return Err(Refused::NoSuchPacket);
        };
        let State::Going = packet.state else {
            return Err(Refused::Ended);
        };
        let outcome = handled(&self.parts, self.failure, &packet);
        let place = p.get() as usize;
        change(&mut self.packets[place], &outcome);
        Ok(outcome)
    }

    /// An element fails, if none has.
    fn fail(&mut self, failed: Failure) -> Result<Outcome, Refused>
        ensures step { FabricStep (parts_of R.rows self.old.tables) self.old.state (events.Fail failed)
            result self.new.state }
        ensures tables { self.new.tables ≡ self.old.tables }
        ensures told { IsTellable self.old.tables.area.ids result }
    {
        if !has_element(&self.parts, &failed) {
            return Err(Refused::NoSuchPlace);
        }
        if let Some(_) = self.failure {
            return Err(Refused::SecondFailure);
        }
        self.failure = Some(failed);
        Ok(Outcome::Failed)
    }
}

/// The packet of that number, if it is one of these.
fn packet_of(packets: &[Packet], p: PacketNo) -> Option<Packet>
    ensures { result ≡ slice_get packets.now p }
{
    packets.get(p.get() as usize).copied()
}

/// Makes a packet what it is after an outcome of its own.
fn change(packet: &mut Packet, outcome: &Outcome)
    ensures { packet.new ≡ packet_after outcome.now packet.old }
{
    match outcome {
        Outcome::Moved(x) => packet.place = *x,
        Outcome::Delivered(x) => {
            packet.place = *x;
            packet.state = State::Delivered;
        }
        Outcome::Switched(color) => packet.mode = Mode::Switched(*color),
        Outcome::Lost(loss) => packet.state = State::Lost(*loss),
        Outcome::Entered(_) => {}
        Outcome::Failed => {}
    }
}
