//! The lines of a script, taken in one after another.

ghost use Rattle.std.specs.Prelude.{◌≡◌, ◌≤◌, ◌++◌, ◌∷◌, [], List};
ghost use Rattle.flood.specs.declared.script.FloodLine.{FloodLine};
ghost use Rattle.flood.specs.Deliveries.{deliveries_in};
ghost use Rattle.flood.specs.steps.Taking.{may_follow, no_lines_taken};

use crate::line::{read_line, read_routers};
use crate::script::{FloodLine, FloodScript};
use mrt_graph::{NoMemory, Seq};
use std::alloc::Global;
use std::marker::Model;
use text_parts::TakesLines;

/// How many deliveries a script may have.
const DELIVERIES: u32 = 65_535;

/// What the lines of a script have said so far: how many routers there are, if a line said so, and the lines after it.
#[derive(Drop)]
pub(crate) struct Taken {
    routers: Option<u16>,
    lines: Vec<FloodLine>,
    /// How many of these are deliveries.
    deliveries: u32,
}

impl Model for Taken {
    ghost use Rattle.std.specs.Prelude.{◌≡◌, ◌≤◌};
    ghost use Rattle.flood.specs.Deliveries.{deliveries_in};
    ghost use Rattle.flood.specs.steps.Taking.{TakenLines, taken_lines};

    ghost Value = { TakenLines };

    ghost view = { λ taken. taken_lines taken.routers taken.lines.items };

    ghost invariant = { λ taken. (taken.deliveries ≡ deliveries_in taken.lines.items) × (taken.deliveries ≤ 65535) };
}

impl Taken {
    /// Of no lines.
    pub(crate) fn none(alloc: Global) -> Taken
        ensures { result ≡ no_lines_taken }
    {
        Taken {
            routers: None,
            lines: Vec::new(alloc),
            deliveries: 0,
        }
    }
}

impl TakesLines for Taken {
    ghost use Rattle.flood.specs.steps.Taking.{flood_rule};

    type Text = FloodScript;

    type Fault = ();

    ghost rule = { flood_rule };

    fn take(&mut self, line: &[u8]) -> Result<Result<(), ()>, NoMemory> {
        let Some(count) = self.routers else {
            self.routers = read_routers(line);
            return Ok(if self.routers.is_some() {
                Ok(())
            } else {
                Err(())
            });
        };
        let Some(told) = read_line(line) else {
            return Ok(Err(()));
        };
        if !may_follow(count, self.deliveries, told) {
            return Ok(Err(()));
        }
        self.lines.push(told)?;
        self.deliveries = counted(self.deliveries, told);
        Ok(Ok(()))
    }

    fn end(self) -> Result<FloodScript, ()> {
        match self.routers {
            None => Err(()),
            Some(routers) => Ok(FloodScript {
                routers,
                lines: Seq::from_vec(self.lines),
            }),
        }
    }
}

/// Whether a line may follow others with so many deliveries, where there are so many routers.
fn may_follow(count: u16, deliveries: u32, line: FloodLine) -> bool
    ensures { (lines : List FloodLine) → deliveries ≡ deliveries_in lines → result ≡ may_follow count lines line }
{
    match line {
        FloodLine::Deliver { .. } => deliveries < DELIVERIES,
        FloodLine::Same { one, other, .. } => one < count && other < count,
    }
}

/// So many deliveries, and the line if it is one.
fn counted(deliveries: u32, line: FloodLine) -> u32
    requires { deliveries ≤ 65535 }
    ensures { (lines : List FloodLine) → deliveries ≡ deliveries_in lines
        → result ≡ deliveries_in (lines ++ line ∷ []) }
{
    match line {
        FloodLine::Deliver { .. } => deliveries + 1,
        FloodLine::Same { .. } => deliveries,
    }
}
