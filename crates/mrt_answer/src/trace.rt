//! `trace DB PROFILE FROM TO blue` and the like: a packet, step by step through a failure.

ghost use Rattle.std.specs.Prelude.{◌≡◌, ◌<◌, ◌↔◌, ℕ, Some, IfOk, Contains, length, slice_get};
ghost use Rattle.area_graph.specs.Fits.{Fits};
ghost use Rattle.mrt_answer.specs.{Forms.traced, Texts.IsTraceIn, TextBytes.IsTextAnswer};

use crate::given::Given;
use crate::packets::{AreaAndIsland, area_and_island, tables_to};
use crate::text::{Text, bytes_answer};
use area_graph::{Area, Spot};
use fabric::{texts_by_rows_for_destinations, trace_text};
use fabric_script::Trace;
use mrt_exit::Exit;
use mrt_graph::NoMemory;
use std::alloc::Global;

/// The nodes of the area that packets of a trace go to: its destination, if the area has it.
fn destination_of(alloc: Global, area: &Area, trace: &Trace) -> Result<Vec<Spot>, NoMemory>
    ensures { IfOk result (λ spots. (t : ℕ) → Contains spots.items t
        ↔ (slice_get area.now.ids t ≡ Some trace.now.to)) }
{
    // what each area keeps is told by reading it
    let _count = area.count();
    let mut spots = Vec::new(alloc);
    if let Some(spot) = area.find(trace.to) {
        spots.push(spot)?;
    }
    Ok(spots)
}

/// The answers to a failure, if one is asked for, to a packet that enters, and to its steps until it ends.
#[tactic(auto, using(crate::proofs::TextSteps::ends_first))]
pub(crate) fn trace(alloc: Global, given: &Given, trace: &Trace) -> Result<Text, Exit>
    ensures { IsTextAnswer (traced given.now trace.now) result }
{
    let net = area_and_island(alloc, given, trace.from)?;
    bytes_answer(trace_in(alloc, &net, trace))
}

/// The same, in an area and an island.
fn trace_in(alloc: Global, net: &AreaAndIsland, trace: &Trace) -> Result<Vec<u8>, NoMemory>
    requires fits { Fits net.now.area net.now.island.graph net.now.island.link_of }
    requires root { net.now.island.root < length net.now.island.graph.ids }
    ensures { IfOk result (λ text. IsTraceIn net.now.area net.now.island trace.now text.items) }
{
    texts_by_rows_for_destinations();
    let spots = destination_of(alloc, &net.area, trace)?;
    let tables = tables_to(alloc, net, &spots)?;
    let island = &net.island.graph;
    trace_text(
        alloc,
        &net.area,
        island,
        &tables.rows,
        &tables.routes,
        trace,
    )
}
