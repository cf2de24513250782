//! The text of a run of a script.

ghost use Rattle.std.specs.Prelude.{◌≡◌, ◌≤◌, ◌<◌, ◌+◌, ◌∷◌, ◌++◌, [], ℕ, List, IfOk, length};
ghost use Rattle.std.specs.List.{AllByRecursion};
ghost use Rattle.flood.specs.{FloodState.started, Receiving.MayFlood};
ghost use Rattle.flood.specs.{declared.script.FloodLine.FloodLine, Deliveries.deliveries_in, FloodScripts.IsAmong};
ghost use Rattle.flood.specs.FloodTexts.{IsFloodText, IsLineText, after_line};

use crate::comparing::Compare;
use crate::flood::Flood;
use crate::lines::{push_answer, push_verdict};
use crate::script::{FloodLine, FloodScript};
use crate::update::Update;
use lsdb::FileKey;
use mrt_graph::NoMemory;
use std::alloc::Global;

/// The lines of the answers to the lines of a script, one for each, where its deliveries begin with the packets of a file
/// and with empty databases; the file gives a key. The packets may be flooded, and the script is one that was read.
///
/// It takes the time of the deliveries and of the comparisons.
///
/// # Errors
///
/// [`NoMemory`] where there was none for a database, a packet, a comparison or the text.
pub fn flood_text<C: Compare>(
    alloc: Global,
    file: FileKey,
    updates: Vec<Update>,
    script: &FloodScript,
    comparing: &C,
) -> Result<Vec<u8>, NoMemory>
    requires few_updates { length updates.items ≤ 4294000000 }
    requires may_flood { AllByRecursion MayFlood updates.items }
    requires some { 1 ≤ script.now.routers }
    requires at_most { script.now.routers ≤ 64 }
    requires few { deliveries_in script.now.lines ≤ 65535 }
    requires among { AllByRecursion (IsAmong script.now.routers) script.now.lines }
    ensures { IfOk result (λ text. IsFloodText (C.says comparing.now) (started updates.items script.now.routers)
        script.now.lines text.items) }
{
    let flood = Flood::new(alloc, file, updates, script.routers)?;
    tell_all(alloc, flood, script.lines.as_slice(), comparing)
}

/// The lines of the answers to lines of a script, one for each.
fn tell_all<C: Compare>(
    alloc: Global,
    flood: Flood,
    lines: &[FloodLine],
    comparing: &C,
) -> Result<Vec<u8>, NoMemory>
    requires room { flood.changed + deliveries_in lines.now ≤ 65535 }
    requires among { AllByRecursion (IsAmong (length flood.routers)) lines.now }
    ensures { IfOk result (λ text. IsFloodText (C.says comparing.now) flood lines.now text.items) }
{
    let mut flood = flood;
    let mut text = Vec::new(alloc);
    for line in lines {
        flood = tell(alloc, flood, line, comparing, &mut text)?;
    }
    Ok(text)
}

/// Puts the line of the answer to one line of a script at the end of a text.
fn tell<C: Compare>(
    alloc: Global,
    flood: Flood,
    line: &FloodLine,
    comparing: &C,
    text: &mut Vec<u8>,
) -> Result<Flood, NoMemory>
    requires room { flood.changed + deliveries_in (line.now ∷ []) ≤ 65535 }
    requires among { IsAmong (length flood.routers) line.now }
    ensures after { IfOk result (λ next. next ≡ after_line flood line.now) }
    ensures told { IfOk result (λ _. (front : List ℕ)
        × (text.new.items ≡ text.old.items ++ front) × IsLineText (C.says comparing.now) flood line.now front) }
{
    match line {
        FloodLine::Deliver { packet, router } => {
            let (next, answer) = flood.deliver(*packet, *router)?;
            push_answer(text, answer)?;
            Ok(next)
        }
        FloodLine::Same { one, other, router } => {
            let verdict = comparing.compare(
                alloc,
                &flood.database(*one),
                &flood.database(*other),
                *router,
            )?;
            push_verdict(text, verdict)?;
            Ok(flood)
        }
    }
}
