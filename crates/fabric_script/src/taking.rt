//! The lines of a script, taken in one after another.

ghost use Rattle.std.specs.Prelude.{◌≡◌};
ghost use Rattle.fabric_script.specs.steps.Taking.{no_lines_taken};

use crate::event::ScriptEvent;
use crate::line::{Start, read_event, read_start};
use crate::script::Script;
use mrt_graph::{NoMemory, Seq};
use std::alloc::Global;
use std::marker::Model;
use text_parts::TakesLines;

/// What the lines of a script have said so far: the first line, if there was one, and the events after it.
#[derive(Drop)]
pub(crate) struct Taken {
    start: Option<Start>,
    events: Vec<ScriptEvent>,
}

impl Model for Taken {
    ghost use Rattle.fabric_script.specs.steps.Taking.{TakenLines, taken_lines};

    ghost Value = { TakenLines };

    ghost view = { λ taken. taken_lines taken.start taken.events.items };
}

impl Taken {
    /// Of no lines.
    pub(crate) fn none(alloc: Global) -> Taken
        ensures { result ≡ no_lines_taken }
    {
        Taken {
            start: None,
            events: Vec::new(alloc),
        }
    }
}

impl TakesLines for Taken {
    ghost use Rattle.fabric_script.specs.steps.Taking.{script_rule};

    type Text = Script;

    type Fault = ();

    ghost rule = { script_rule };

    fn take(&mut self, line: &[u8]) -> Result<Result<(), ()>, NoMemory> {
        if self.start.is_none() {
            self.start = read_start(line);
            return Ok(if self.start.is_some() {
                Ok(())
            } else {
                Err(())
            });
        }
        let Some(event) = read_event(line) else {
            return Ok(Err(()));
        };
        self.events.push(event)?;
        Ok(Ok(()))
    }

    fn end(self) -> Result<Script, ()> {
        match self.start {
            None => Err(()),
            Some(start) => Ok(Script {
                router: start.router,
                room: start.room,
                events: Seq::from_vec(self.events),
            }),
        }
    }
}
