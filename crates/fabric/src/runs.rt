//! The texts of scripts and of traces.

ghost use Rattle.std.specs.Prelude.{◌≤◌, IfOk};
ghost use Rattle.fabric.specs.{Served.IsServedBy, Viewed.parts_with};
ghost use Rattle.primary_alt.specs.RoutesMade.{AreMade};
ghost use Rattle.fabric.specs.{Destinations.AreServed, NamedEvents.spot_of, RunTexts.IsScriptText, RunTexts.IsTraceText};

use crate::fabric::Fabric;
use crate::stepping::tell_steps;
use crate::telling::{tell_all, tell_beginning};
use area_graph::Area;
use fabric_script::{Script, Trace};
use mrt_graph::{Graph, NoMemory, RowsOf};
use primary_alt::Routes;
use std::alloc::Global;

/// The lines of the answers to the events of a script, one for each. There is room for at least one packet. The rows and
/// the routes are for the destinations of the script's packets; they may be for others too.
///
/// It takes the time of the look-ups of names and of the steps of packets: each a few entries of tables, and where the
/// primary of a packet has failed both colors' walks as well.
///
/// # Errors
///
/// [`NoMemory`] where there was none for the packets or the text.
pub fn script_text<R: RowsOf>(
    alloc: Global,
    area: &Area,
    g: &Graph,
    rows: &R,
    routes: &Routes,
    script: &Script,
) -> Result<Vec<u8>, NoMemory>
    requires routed { AreMade area.now g.now routes.now }
    requires served { AreServed (parts_with area.now g.now (R.rows rows.now) routes.now) routes.now
        script.now.events }
    requires room { 1 ≤ script.now.room }
    ensures { IfOk result (λ text. IsScriptText
        (parts_with area.now g.now (R.rows rows.now) routes.now) script.now text.items) }
{
    let mut fabric = Fabric::new(alloc, area, g, rows, routes, script.room)?;
    let mut text = Vec::new(alloc);
    tell_all(&mut fabric, area, script.events.as_slice(), &mut text)?;
    Ok(text)
}

/// The lines of the answers to a failure, if one is asked for, to a packet that enters, and to its steps until it ends.
/// The rows and the routes are for the packet's destination; they may be for others too.
///
/// A packet ends after at most twice as many steps as the area has other nodes.
///
/// # Errors
///
/// [`NoMemory`] where there was none for the packet or the text.
pub fn trace_text<R: RowsOf>(
    alloc: Global,
    area: &Area,
    g: &Graph,
    rows: &R,
    routes: &Routes,
    trace: &Trace,
) -> Result<Vec<u8>, NoMemory>
    requires routed { AreMade area.now g.now routes.now }
    requires served { IsServedBy (parts_with area.now g.now (R.rows rows.now) routes.now) routes.now
        (spot_of area.now trace.now.to) }
    ensures { IfOk result (λ text. IsTraceText
        (parts_with area.now g.now (R.rows rows.now) routes.now) trace.now text.items) }
{
    // what the area and the graph keep is told by reading them
    let _area = area.count();
    let _nodes = g.node_count();
    let mut fabric = Fabric::new(alloc, area, g, rows, routes, 1)?;
    let mut text = Vec::new(alloc);
    tell_beginning(&mut fabric, area, trace, &mut text)?;
    tell_steps(&mut fabric, area, &mut text)?;
    Ok(text)
}
