//! An exit told on standard error.

ghost use Rattle.std.specs.Prelude.{◌≡◌};
ghost use Rattle.mrt_exit.specs.{Exits.line_of, Telling.GainedLine};

use crate::exit::Exit;
use mrt_io::{Sink, put_all};

/// Writes the exit's line, as far as the sink takes it, and nothing on `Done`. It answers the exit.
pub fn tell<E: Sink>(err: &mut E, exit: Exit) -> Exit
    ensures same { result ≡ exit }
    ensures silent { exit ≡ Exit.Done → err.new ≡ err.old }
    ensures line { (exit ≡ Exit.Done → ⊥) → GainedLine (E.healthy_for err.old) (E.faults err.old) (E.faults err.new)
        (E.written err.old) (E.written err.new) (line_of exit) }
{
    write_line(err, exit);
    exit
}

/// Writes the exit's line, as far as the sink takes it, and nothing on `Done`.
fn write_line<E: Sink>(err: &mut E, exit: Exit)
    ensures silent { exit ≡ Exit.Done → err.new ≡ err.old }
    ensures line { (exit ≡ Exit.Done → ⊥) → GainedLine (E.healthy_for err.old) (E.faults err.old) (E.faults err.new)
        (E.written err.old) (E.written err.new) (line_of exit) }
{
    if !matches!(exit, Exit::Done) {
        let _ = put_all(err, exit.line().bytes());
    }
}
