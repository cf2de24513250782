//! Texts in buffers.

ghost use Rattle.std.specs.Prelude.{◌≡◌, ◌⊎◌, ◌<◌, ◌≤◌, ℕ, List, IfOk, OnErr, length};
ghost use Rattle.mrt_answer.specs.TextBytes.{IsTextOf};
ghost use Rattle.mrt_calls.specs.steps.Putting.{IsHeldIn};
ghost use Rattle.mrt_exit.specs.declared.exit.Exit.{Exit};

use mrt_answer::Text;
use mrt_exit::Exit;
use mrt_io::PutError;
use mrt_lent::{CountSink, LentSink};

/// Puts a text into a buffer, and answers how many bytes it has.
pub(crate) fn put_text(text: Text, buffer: &mut [u8]) -> Result<usize, PutError>
    ensures room { (bytes : List ℕ) → IsTextOf text bytes → length buffer.new ≡ length buffer.old }
    ensures held { (bytes : List ℕ) → IsTextOf text bytes → IfOk result (λ count. IsHeldIn buffer.new count bytes) }
    ensures fits { (bytes : List ℕ) → IsTextOf text bytes → IfOk result (λ _. length bytes ≤ length buffer.old) }
    ensures no_room { (bytes : List ℕ) → IsTextOf text bytes → OnErr result (length buffer.old < length bytes) }
{
    let mut sink = LentSink::new(buffer);
    match text.put(&mut sink) {
        Ok(()) => Ok(sink.count()),
        Err(fault) => Err(fault),
    }
}

/// How many bytes a text has.
pub(crate) fn count_of(text: Text) -> usize
    ensures { (bytes : List ℕ) → IsTextOf text bytes → result ≡ length bytes }
{
    let mut sink = CountSink::new();
    let _ = text.put(&mut sink);
    sink.taken() as usize
}

/// Done where there is room for so many, else that there is none.
pub(crate) fn exit_of(wanted: usize, room: usize) -> Exit
    ensures { ((wanted ≤ room) × (result ≡ Exit.Done)) ⊎ ((room < wanted) × (result ≡ Exit.WriteFault room)) }
{
    if wanted <= room {
        return Exit::Done;
    }
    Exit::WriteFault { taken: room as u64 }
}
