//! A whole script file.

ghost use Rattle.std.specs.Prelude.{◌≡◌, ◌≤◌, ℕ, Ok, Err, IfOk, length};
ghost use Rattle.std.specs.{List.AllByRecursion, Result.result_map_both};
ghost use Rattle.text_parts.specs.TextLines.{text_lines};
ghost use Rattle.flood.specs.declared.script.FloodScript.{FloodScript};
ghost use Rattle.flood.specs.Deliveries.{deliveries_in};
ghost use Rattle.flood.specs.steps.Taking.{error_of};
ghost use Rattle.flood.specs.FloodScripts.{IsAmong, IsFirstFloodFault, IsScript, OrNoMemory};

use crate::script::FloodScript;
use crate::script_error::FloodScriptError;
use crate::taking::Taken;
use std::alloc::Global;
use text_parts::{LineError, text_of};

/// The script of a file. There are at most 33,554,432 bytes.
///
/// A line is passed over where its first byte is `#`, whatever it holds, and where it is of spaces and tabs alone. The
/// first other line is `routers N`, with N from 1 to 64, and each later one, its words split by spaces or tabs, is
///
/// - `deliver P R`, with P up to 4,294,967,295 and R up to 65,535, at most 65,535 times; or
/// - `same R Q ROUTER`, with R and Q below N, and an address.
///
/// It takes time in proportion to the bytes.
///
/// # Errors
///
/// [`FloodScriptError::Fault`] names the first line that is not so, from 1; where there is no first line, it names the
/// number of lines plus 1. [`FloodScriptError::NoMemory`] comes where there was none for a line.
pub fn read_flood_script(alloc: Global, bytes: &[u8]) -> Result<FloodScript, FloodScriptError>
    requires { length bytes.now ≤ 33554432 }
    // What is read is what the lines say.
    ensures found { IfOk result (λ script. IsScript (text_lines bytes.now) script) }
    // What the lines say is read.
    ensures only { (script : FloodScript) → IsScript (text_lines bytes.now) script → OrNoMemory result (Ok script) }
    // A fault is the first one, and the first one is told.
    ensures fault { (line : ℕ) → result ≡ Err (FloodScriptError.Fault line)
        → IsFirstFloodFault (text_lines bytes.now) line }
    ensures faulty { (line : ℕ) → IsFirstFloodFault (text_lines bytes.now) line
        → OrNoMemory result (Err (FloodScriptError.Fault line)) }
    // What is read may be run.
    ensures some { IfOk result (λ script. 1 ≤ script.routers) }
    ensures at_most { IfOk result (λ script. script.routers ≤ 64) }
    ensures few { IfOk result (λ script. deliveries_in script.lines ≤ 65535) }
    ensures among { IfOk result (λ script. AllByRecursion (IsAmong script.routers) script.lines) }
{
    script_or_fault(text_of(bytes, Taken::none(alloc)))
}

/// What was read, with the error of scripts of deliveries.
fn script_or_fault(
    read: Result<FloodScript, LineError<()>>,
) -> Result<FloodScript, FloodScriptError>
    ensures { result ≡ result_map_both (λ script. script) error_of read }
{
    match read {
        Ok(script) => Ok(script),
        Err(LineError::Fault { line, .. }) => Err(FloodScriptError::Fault { line }),
        Err(LineError::NoMemory) => Err(FloodScriptError::NoMemory),
    }
}
