//! `flood UPDATES PROFILE SCRIPT`: packets that reach routers in any order, any number of times, or never.

ghost use Rattle.std.specs.Prelude.{◌≤◌, Ok, Err, IfOk, IfErr, length, vec_len};
ghost use Rattle.std.specs.List.{AllByRecursion};
ghost use Rattle.flood.specs.Receiving.{MayFlood};
ghost use Rattle.flood.specs.{Deliveries.deliveries_in, FloodScripts.IsAmong};
ghost use Rattle.mrt_args.specs.Files.{profile_limit, script_limit, updates_limit};
ghost use Rattle.mrt_args.specs.Work.{flood_bytes};
ghost use Rattle.mrt_answer.specs.{Forms.flooded, Reading.deliveries_of as deliveries_step, Reading.updates_of as updates_step, TextBytes.IsTextAnswer};
ghost use Rattle.mrt_exit.specs.{Due.IsDue, AnswerSteps.IsAnswer};

use crate::input::profile_of;
use crate::text::{Text, bytes_answer};
use flood::{FloodScript, Update, flood_text, read_flood_script, read_updates};
use flood_verdict::ByIsland;
use lsdb::FileKey;
use mrt_args::FloodRead;
use mrt_exit::Exit;
use std::alloc::Global;

/// The answers to the lines of a script over packets and under a profile, each with its bytes.
pub fn answer_of_flood(alloc: Global, files: &FloodRead) -> Result<Text, Exit>
    requires updates { vec_len files.now.updates ≤ updates_limit }
    requires profile { vec_len files.now.profile ≤ profile_limit }
    requires script { vec_len files.now.script ≤ script_limit }
    ensures { IsTextAnswer (flooded (flood_bytes files.now)) result }
{
    let updates = updates_of(alloc, &files.updates)?;
    let profile = profile_of(alloc, &files.profile)?;
    let script = script_of(alloc, &files.script)?;
    let comparing = ByIsland::new(&profile);
    let key = FileKey::of(&files.updates);
    bytes_answer(flood_text(alloc, key, updates, &script, &comparing))
}

/// The packets that the bytes are.
fn updates_of(alloc: Global, bytes: &[u8]) -> Result<Vec<Update>, Exit>
    requires { length bytes.now ≤ updates_limit }
    ensures updates { IfOk result (λ updates. updates_step bytes.now (Ok updates.items)) }
    ensures few { IfOk result (λ updates. length updates.items ≤ 4294000000) }
    ensures may_flood { IfOk result (λ updates. AllByRecursion MayFlood updates.items) }
    ensures none { IfErr result (IsDue (λ exit. updates_step bytes.now (Err exit))) }
{
    Ok(read_updates(alloc, bytes)?)
}

/// The script of deliveries that the bytes are.
fn script_of(alloc: Global, bytes: &[u8]) -> Result<FloodScript, Exit>
    requires { length bytes.now ≤ script_limit }
    ensures script { IsAnswer (deliveries_step bytes.now) result }
    ensures some { IfOk result (λ script. 1 ≤ script.routers) }
    ensures at_most { IfOk result (λ script. script.routers ≤ 64) }
    ensures few { IfOk result (λ script. deliveries_in script.lines ≤ 65535) }
    ensures among { IfOk result (λ script. AllByRecursion (IsAmong script.routers) script.lines) }
{
    Ok(read_flood_script(alloc, bytes)?)
}
