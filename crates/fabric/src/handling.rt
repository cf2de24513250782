//! What happens to a packet where it is handled once.

ghost use Rattle.std.specs.Prelude.{◌≡◌, Bool, false, Option, Some};
ghost use Rattle.fabric.specs.Answers.{HasElement};
ghost use Rattle.fabric.specs.FabricParts.{ArePartsKept};
ghost use Rattle.fabric.specs.steps.KeptState.{IsKeptPacket};
ghost use Rattle.fabric.specs.PacketHop.{cuts};
ghost use Rattle.fabric.specs.Served.{IsServedBy};
ghost use Rattle.fabric.specs.declared.event.Failure.{Failure};
ghost use Rattle.fabric.specs.Handling.{IsHandled, IsRepair, has_failed, repaired, sent};
ghost use Rattle.fabric.specs.steps.Viewed.{AreRouted, viewed};
ghost use Rattle.fabric.specs.declared.packet.Mode.TheVariants as modes;
ghost use Rattle.fabric.specs.declared.packet.State.TheVariants as states;
ghost use Rattle.mrt_graph.specs.declared.cert.Color.{Color};

use crate::event::{Failure, Outcome};
use crate::hops::next_hop;
use crate::in_island::{element_of, node_of};
use crate::next_hop::{NextHop, cuts, has_failed};
use crate::packet::{Loss, Mode, Packet};
use crate::parts::Parts;
use mrt_graph::{Color, RowsOf};
use primary_alt::alternate_by;

/// What happens to a packet that is going.
///
/// It takes the time of reading its next hop; where it is in primary mode and its hop is cut, it follows both color walks
/// as well.
pub fn handled<R: RowsOf>(
    parts: &Parts<'_, R>,
    failure: Option<Failure>,
    packet: &Packet,
) -> Outcome
    requires kept { ArePartsKept (viewed R.rows parts.now) }
    requires routed { AreRouted parts.now }
    requires served { IsServedBy (viewed R.rows parts.now) parts.now.routes.now packet.now.to }
    requires packet { IsKeptPacket (viewed R.rows parts.now) packet.now }
    requires going { packet.now.state ≡ states.Going }
    requires failure { (failed : Failure) → failure ≡ Some failed
        → HasElement parts.now.area.now failed }
    ensures { IsHandled (viewed R.rows parts.now) failure packet.now result }
{
    if has_failed(&failure, packet.place) {
        return Outcome::Lost(Loss::Inside);
    }
    let Some(hop) = next_hop(parts, packet) else {
        return Outcome::Lost(Loss::NoRoute);
    };
    sent(parts, &failure, packet, &hop)
}

/// What happens to a packet whose place has not failed, by its hop.
fn sent<R: RowsOf>(
    parts: &Parts<'_, R>,
    failure: &Option<Failure>,
    packet: &Packet,
    hop: &NextHop,
) -> Outcome
    requires kept { ArePartsKept (viewed R.rows parts.now) }
    requires routed { AreRouted parts.now }
    requires served { IsServedBy (viewed R.rows parts.now) parts.now.routes.now packet.now.to }
    requires packet { IsKeptPacket (viewed R.rows parts.now) packet.now }
    requires failure { (failed : Failure) → failure.now ≡ Some failed
        → HasElement parts.now.area.now failed }
    ensures { (repair : Option (Option Color))
        × IsRepair (viewed R.rows parts.now) failure.now packet.now repair
        × (result ≡ sent packet.now hop.now (cuts failure.now hop.now) (has_failed failure.now packet.now.to) repair) }
{
    if !cuts(failure, hop) {
        return moved(packet, hop);
    }
    if has_failed(failure, packet.to) {
        return Outcome::Lost(Loss::IsDestination);
    }
    match packet.mode {
        Mode::Primary => repaired(repair(parts, failure, packet)),
        Mode::Entered(_) => Outcome::Lost(Loss::ColorCut),
        Mode::Switched(_) => Outcome::Lost(Loss::ColorCut),
    }
}

/// What happens to a packet whose hop is not cut.
fn moved(packet: &Packet, hop: &NextHop) -> Outcome
    ensures { (ended : Bool) (repair : Option (Option Color))
        → result ≡ sent packet.now hop.now false ended repair }
{
    if hop.next == packet.to {
        Outcome::Delivered(packet.to)
    } else {
        Outcome::Moved(hop.next)
    }
}

/// What happens to a packet in primary mode whose hop is cut by another element than its destination, by its repair.
fn repaired(repair: Option<Option<Color>>) -> Outcome
    ensures { result ≡ repaired modes.Primary repair }
{
    match repair {
        None => Outcome::Lost(Loss::Outside),
        Some(None) => Outcome::Lost(Loss::NoAlternate),
        Some(Some(color)) => Outcome::Switched(color),
    }
}

/// The alternate of a packet's place for its destination; None where one of these is outside the island.
fn repair<R: RowsOf>(
    parts: &Parts<'_, R>,
    failure: &Option<Failure>,
    packet: &Packet,
) -> Option<Option<Color>>
    requires kept { ArePartsKept (viewed R.rows parts.now) }
    requires routed { AreRouted parts.now }
    requires served { IsServedBy (viewed R.rows parts.now) parts.now.routes.now packet.now.to }
    requires packet { IsKeptPacket (viewed R.rows parts.now) packet.now }
    requires failure { (failed : Failure) → failure.now ≡ Some failed
        → HasElement parts.now.area.now failed }
    ensures { IsRepair (viewed R.rows parts.now) failure.now packet.now result }
{
    let at = node_of(parts, packet.place)?;
    let to = node_of(parts, packet.to)?;
    let failed = element_of(parts, failure);
    Some(alternate_by(parts.island, parts.rows, at, to, failed))
}
