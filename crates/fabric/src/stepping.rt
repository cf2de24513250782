//! A packet's steps until it ends.

ghost use Rattle.std.specs.Prelude.{◌≡◌, ◌↔◌, IfOk, IsTrue};
ghost use Rattle.fabric.specs.{FabricParts.ArePartsKept, Viewed.parts_of};
ghost use Rattle.fabric.specs.steps.Printed.{IsSteppedOn};
ghost use Rattle.fabric.specs.Trace.{HasEnded};
ghost use Rattle.fabric.specs.steps.Unstepped.{IsUnstepped};

use crate::fabric::Fabric;
use crate::numbers::PacketNo;
use crate::packet::State;
use crate::packet_law::packets_end;
use crate::telling::tell_one;
use area_graph::Area;
use fabric_script::ScriptEvent;
use mrt_graph::{NoMemory, RowsOf};

/// The steps of packet 0 until it has ended, and the lines of their answers. It has had none before.
pub fn tell_steps<R: RowsOf>(
    fabric: &mut Fabric<'_, R>,
    area: &Area,
    text: &mut Vec<u8>,
) -> Result<(), NoMemory>
    requires area { fabric.old.tables.area ≡ area.now }
    requires kept { ArePartsKept (parts_of R.rows fabric.old.tables) }
    requires unstepped { IsUnstepped (parts_of R.rows fabric.old.tables) fabric.old.state }
    ensures stepped { IfOk result (λ _. IsSteppedOn (parts_of R.rows fabric.old.tables)
        fabric.old.state text.old.items text.new.items) }
{
    packets_end();
    for _ in 0..2 * area.count() as u32 {
        if has_ended(fabric) {
            return Ok(());
        }
        tell_one(fabric, area, ScriptEvent::Step { packet: 0 }, text)?;
    }
    Ok(())
}

/// Whether packet 0 has ended, or was not made.
fn has_ended<R: RowsOf>(fabric: &Fabric<'_, R>) -> bool
    ensures { IsTrue result ↔ HasEnded fabric.now.state }
{
    match fabric.packet(PacketNo::new(0)) {
        Some(packet) => !matches!(packet.state, State::Going),
        None => true,
    }
}
