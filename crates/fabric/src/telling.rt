//! Events, and the lines of their answers.

ghost use Rattle.std.specs.Prelude.{◌≡◌, ◌∷◌, [], IfOk, map};
ghost use Rattle.fabric.specs.{Served.IsEventServed, Served.IsServedBy, Viewed.parts_of};
ghost use Rattle.fabric.specs.Destinations.{AreServed};
ghost use Rattle.fabric.specs.NamedEvents.{event_of, spot_of};
ghost use Rattle.fabric.specs.steps.Printed.{IsPrinted};
ghost use Rattle.fabric.specs.Trace.{beginning, failures_of};

use crate::event::Event;
use crate::fabric::Fabric;
use crate::lines::push_answer_line;
use crate::of_area::event_of;
use area_graph::Area;
use fabric_script::{FailureName, ScriptEvent, Trace};
use mrt_graph::{NoMemory, RowsOf};

/// Events by their names, and the lines of their answers.
#[inline(never)]
pub fn tell_all<R: RowsOf>(
    fabric: &mut Fabric<'_, R>,
    area: &Area,
    events: &[ScriptEvent],
    text: &mut Vec<u8>,
) -> Result<(), NoMemory>
    requires area { fabric.old.tables.area ≡ area.now }
    requires served { AreServed (parts_of R.rows fabric.old.tables) fabric.old.tables.routes events.now }
    ensures told { IfOk result (λ _. IsPrinted (parts_of R.rows fabric.old.tables) fabric.old.state
        (map (event_of area.now) events.now) fabric.new.state text.old.items text.new.items) }
    ensures tables { fabric.new.tables ≡ fabric.old.tables }
{
    for event in events {
        tell(fabric, area, event_of(area, event), text)?;
    }
    Ok(())
}

/// What stands before the steps of a trace, and the lines of the answers: the failure, if there is one, and the packet
/// that enters.
pub fn tell_beginning<R: RowsOf>(
    fabric: &mut Fabric<'_, R>,
    area: &Area,
    trace: &Trace,
    text: &mut Vec<u8>,
) -> Result<(), NoMemory>
    requires area { fabric.old.tables.area ≡ area.now }
    requires served { IsServedBy (parts_of R.rows fabric.old.tables) fabric.old.tables.routes
        (spot_of area.now trace.now.to) }
    ensures told { IfOk result (λ _. IsPrinted (parts_of R.rows fabric.old.tables) fabric.old.state
        (beginning area.now trace.now) fabric.new.state text.old.items text.new.items) }
    ensures tables { fabric.new.tables ≡ fabric.old.tables }
{
    tell_failure(fabric, area, &trace.failed, text)?;
    tell_one(fabric, area, entering(trace), text)
}

/// The failure, if there is one, and the line of its answer.
fn tell_failure<R: RowsOf>(
    fabric: &mut Fabric<'_, R>,
    area: &Area,
    failed: &Option<FailureName>,
    text: &mut Vec<u8>,
) -> Result<(), NoMemory>
    requires area { fabric.old.tables.area ≡ area.now }
    ensures told { IfOk result (λ _. IsPrinted (parts_of R.rows fabric.old.tables) fabric.old.state
        (failures_of area.now failed.now) fabric.new.state text.old.items text.new.items) }
    ensures tables { fabric.new.tables ≡ fabric.old.tables }
{
    match failed {
        None => Ok(()),
        Some(failed) => tell_one(fabric, area, ScriptEvent::Fail { failed: *failed }, text),
    }
}

/// The packet of a trace enters.
fn entering(trace: &Trace) -> ScriptEvent
    ensures { result ≡ ScriptEvent.Inject trace.now.from trace.now.to trace.now.entry }
{
    ScriptEvent::Inject {
        router: trace.from,
        to: trace.to,
        entry: trace.entry,
    }
}

/// One event by its names, and the line of its answer.
pub fn tell_one<R: RowsOf>(
    fabric: &mut Fabric<'_, R>,
    area: &Area,
    event: ScriptEvent,
    text: &mut Vec<u8>,
) -> Result<(), NoMemory>
    requires area { fabric.old.tables.area ≡ area.now }
    requires served { IsEventServed (parts_of R.rows fabric.old.tables) fabric.old.tables.routes
        (event_of area.now event) }
    ensures told { IfOk result (λ _. IsPrinted (parts_of R.rows fabric.old.tables) fabric.old.state
        (event_of area.now event ∷ []) fabric.new.state text.old.items text.new.items) }
    ensures tables { fabric.new.tables ≡ fabric.old.tables }
{
    tell_all(fabric, area, [event].as_slice(), text)
}

/// One event, and the line of its answer.
// It has one caller, so that all that an event takes is part of that loop.
#[inline(always)]
fn tell<R: RowsOf>(
    fabric: &mut Fabric<'_, R>,
    area: &Area,
    event: Event,
    text: &mut Vec<u8>,
) -> Result<(), NoMemory>
    requires area { fabric.old.tables.area ≡ area.now }
    requires served { IsEventServed (parts_of R.rows fabric.old.tables) fabric.old.tables.routes event }
    ensures told { IfOk result (λ _. IsPrinted (parts_of R.rows fabric.old.tables) fabric.old.state (event ∷ [])
        fabric.new.state text.old.items text.new.items) }
    ensures tables { fabric.new.tables ≡ fabric.old.tables }
{
    let answer = fabric.apply(event);
    push_answer_line(text, area, answer)
}
