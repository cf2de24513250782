ghost use Rattle.std.specs.Prelude.{◌≤◌, ◌<◌, ◌^◌, IfOk, length};
ghost use Rattle.std.specs.Io.KnownBytes.{WriteAppends};

use crate::device::{PutFailed, Sink};
use std::io::{ErrorKind, Write};

/// A stream of the machine, as standard output or standard error. What was written to it is not told, and it counts as
/// never healthy. What a stream tells of itself grows by just what is taken (`write_some`); those of the machine tell
/// nothing, so tests say what is written.
#[derive(Drop)]
pub struct StdSink<W: Write + Drop> {
    writer: W,
    faults: u64,
}

impl<W: Write + Drop> StdSink<W> {
    /// A sink that writes to this stream, without a fault yet.
    pub fn new(writer: W) -> StdSink<W> {
        StdSink { writer, faults: 0 }
    }
}

impl<W: Write + Drop> Sink for StdSink<W> {
    ghost use Rattle.std.specs.Prelude.{None};

    ghost written = { λ _. None };

    ghost faults = { λ sink. sink.faults };

    ghost healthy_for = { λ _ _. ⊥ };

    ghost healthy_below = { λ _ _ never. absurd never };

    /// It calls the stream again only where that was interrupted.
    fn put(&mut self, piece: &[u8]) -> Result<u32, PutFailed> {
        let taken = write_some(
            &mut self.writer,
            &piece[..piece.len().min(u32::MAX as usize)],
        );
        if taken.is_err() {
            self.faults = self.faults.saturating_add(1);
        }
        taken
    }
}

/// Writes the first bytes of a piece, and answers how many. A stream that takes nothing of it has failed. What the stream
/// tells that it holds grows by just these bytes.
fn write_some<W: Write>(writer: &mut W, piece: &[u8]) -> Result<u32, PutFailed>
    requires { length piece.now < 2 ^ 32 }
    ensures within { IfOk result (λ taken. taken ≤ length piece.now) }
    ensures some { IfOk result (λ taken. 0 < length piece.now → 1 ≤ taken) }
    ensures contents { WriteAppends (W.contents writer.old) (W.contents writer.new) result piece.now }
{
    for _ in 0..u64::MAX {
        match writer.write(piece) {
            Ok(0) if !piece.is_empty() => return Err(PutFailed),
            Ok(count) => return Ok(count as u32),
            Err(error) if error.kind() == ErrorKind::Interrupted => {}
            Err(_) => return Err(PutFailed),
        }
    }
    Err(PutFailed)
}
