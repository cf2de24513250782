//! A whole script file.

ghost use Rattle.std.specs.Prelude.{◌≡◌, ◌≤◌, ℕ, Ok, Err, IfOk, length};
ghost use Rattle.std.specs.Result.{result_map_both};
ghost use Rattle.text_parts.specs.TextLines.{text_lines};
ghost use Rattle.fabric_script.specs.declared.script.Script.{Script};
ghost use Rattle.fabric_script.specs.steps.Taking.{error_of};
ghost use Rattle.fabric_script.specs.ScriptFaults.{IsFirstScriptFault, IsScript, OrNoMemory};

use crate::script::Script;
use crate::script_error::ScriptError;
use crate::taking::Taken;
use std::alloc::Global;
use text_parts::{LineError, text_of};

/// The script of a file. There are at most 33,554,432 bytes.
///
/// A line is passed over where its first byte is `#`, whatever it holds, and where it is of spaces and tabs alone. The first other line
/// is `island ROUTER ROOM`, and each later one is an event, its words split by spaces or tabs:
///
/// - `inject ROUTER NODE blue`, or `red` or `repair` in the last place;
/// - `step N`, with N from 0 to 65,535;
/// - `fail NODE`, or `fail link:ROUTER/DATA`.
///
/// It takes time in proportion to the bytes.
///
/// # Errors
///
/// [`ScriptError::Fault`] names the first line that is not so, from 1; where there is no first line, it names the number of lines
/// plus 1. [`ScriptError::NoMemory`] comes where there was none for an event.
pub fn read_script(alloc: Global, bytes: &[u8]) -> Result<Script, ScriptError>
    requires { length bytes.now ≤ 33554432 }
    // What is read is what the lines say.
    ensures found { IfOk result (λ script. IsScript (text_lines bytes.now) script) }
    // What the lines say is read.
    ensures only { (script : Script) → IsScript (text_lines bytes.now) script → OrNoMemory result (Ok script) }
    ensures room { IfOk result (λ script. 1 ≤ script.room) }
    // A fault is the first one, and the first one is told.
    ensures fault { (line : ℕ) → result ≡ Err (ScriptError.Fault line) → IsFirstScriptFault (text_lines bytes.now) line }
    ensures faulty { (line : ℕ) → IsFirstScriptFault (text_lines bytes.now) line → OrNoMemory result (Err (ScriptError.Fault line)) }
{
    script_or_fault(text_of(bytes, Taken::none(alloc)))
}

/// What was read, with the error of scripts.
fn script_or_fault(read: Result<Script, LineError<()>>) -> Result<Script, ScriptError>
    ensures { result ≡ result_map_both (λ script. script) error_of read }
{
    match read {
        Ok(script) => Ok(script),
        Err(LineError::Fault { line, .. }) => Err(ScriptError::Fault { line }),
        Err(LineError::NoMemory) => Err(ScriptError::NoMemory),
    }
}
