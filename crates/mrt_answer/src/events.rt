//! `fabric DB PROFILE SCRIPT`: packets, step by step through the events of a script.

ghost use Rattle.std.specs.Prelude.{◌<◌, ◌≤◌, IfOk, length};
ghost use Rattle.area_graph.specs.Fits.{Fits};
ghost use Rattle.mrt_answer.specs.{Forms.scripted, Texts.IsScriptIn, Reading.script_of as script_step, TextBytes.IsTextAnswer};
ghost use Rattle.mrt_exit.specs.AnswerSteps.{◌▸◌};
ghost use Rattle.mrt_args.specs.Files.{script_limit};

use crate::given::Given;
use crate::input::script_of;
use crate::packets::{AreaAndIsland, area_and_island, tables_to};
use crate::text::{Text, bytes_answer};
use fabric::{destinations, script_text, texts_by_rows_for_destinations};
use fabric_script::Script;
use mrt_exit::Exit;
use mrt_graph::NoMemory;
use std::alloc::Global;

/// The answers to the events of the script that the bytes are.
#[tactic(auto, using(crate::proofs::TextSteps::ends_first, crate::proofs::TextSteps::ends_second))]
pub(crate) fn run_of_bytes(alloc: Global, given: &Given, bytes: &[u8]) -> Result<Text, Exit>
    requires limit { length bytes.now ≤ script_limit }
    ensures { IsTextAnswer (script_step bytes.now ▸ scripted given.now) result }
{
    let script = script_of(alloc, bytes)?;
    run_of(alloc, given, &script)
}

/// The answers to the events of a script.
#[tactic(auto, using(crate::proofs::TextSteps::ends_first))]
fn run_of(alloc: Global, given: &Given, script: &Script) -> Result<Text, Exit>
    requires room { 1 ≤ script.now.room }
    ensures { IsTextAnswer (scripted given.now script.now) result }
{
    let net = area_and_island(alloc, given, script.router)?;
    bytes_answer(run_in(alloc, &net, script))
}

/// The same, in an area and an island.
fn run_in(alloc: Global, net: &AreaAndIsland, script: &Script) -> Result<Vec<u8>, NoMemory>
    requires fits { Fits net.now.area net.now.island.graph net.now.island.link_of }
    requires root { net.now.island.root < length net.now.island.graph.ids }
    requires room { 1 ≤ script.now.room }
    ensures { IfOk result (λ text. IsScriptIn net.now.area net.now.island script.now text.items) }
{
    texts_by_rows_for_destinations();
    let spots = destinations(alloc, &net.area, script)?;
    let tables = tables_to(alloc, net, &spots)?;
    let island = &net.island.graph;
    script_text(
        alloc,
        &net.area,
        island,
        &tables.rows,
        &tables.routes,
        script,
    )
}
