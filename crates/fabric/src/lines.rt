//! The texts of answers.

ghost use Rattle.std.specs.Prelude.{◌≡◌, ◌≤◌, ◌+◌, ◌++◌, [], IfOk, OnErr, Some, Ok, length};
ghost use Rattle.std.specs.Option.{option_map};
ghost use Rattle.fabric.specs.OutcomeText.{IsTellable, answer_line, answer_text, color_text, loss_text, outcome_text, refused_text};
ghost use Rattle.text_parts.specs.Spelling.{node_text};

use crate::event::{Outcome, Refused};
use crate::packet::Loss;
use area_graph::Area;
use itoa::Buffer;
use mrt_graph::{Color, NoMemory, NodeId};
use std::alloc::Global;
use text_parts::{ShortText, push_node_text, put};

/// The line that tells an answer. An area node in the answer is in range.
///
/// For callers of the crate; `trace` and `fabric` put the same line at the end of a text.
pub fn outcome_line(
    alloc: Global,
    area: &Area,
    answer: Result<Outcome, Refused>,
) -> Result<Vec<u8>, NoMemory>
    requires { IsTellable area.now.ids answer }
    ensures { IfOk result (λ line. answer_line area.now.ids answer ≡ Some line.items) }
{
    let mut line = Vec::new(alloc);
    push_answer_line(&mut line, area, answer)?;
    Ok(line)
}

/// Puts the line that tells an answer at the end of a text. An area node in the answer is in range.
pub fn push_answer_line(
    text: &mut Vec<u8>,
    area: &Area,
    answer: Result<Outcome, Refused>,
) -> Result<(), NoMemory>
    requires { IsTellable area.now.ids answer }
    ensures added { IfOk result (λ _. option_map (λ line. text.old.items ++ line)
        (answer_line area.now.ids answer) ≡ Some text.new.items) }
    ensures err { OnErr result (text.new.items ≡ text.old.items) }
{
    let mut line = ShortText::new();
    put_answer(&mut line, area, answer);
    line.push(b'\n');
    text.extend_from_slice(line.bytes())?;
    Ok(())
}

/// Puts an answer into an empty line.
fn put_answer(line: &mut ShortText<32>, area: &Area, answer: Result<Outcome, Refused>)
    requires told { IsTellable area.now.ids answer }
    requires empty { line.old ≡ [] }
    ensures value { answer_text area.now.ids answer ≡ Some line.new }
    ensures short { length line.new ≤ 29 }
{
    match answer {
        Ok(outcome) => put_outcome(line, area, outcome),
        Err(refused) => put_words(line, b"refused ", refused_word(refused)),
    }
}

/// Puts an outcome into an empty line.
fn put_outcome(line: &mut ShortText<32>, area: &Area, outcome: Outcome)
    requires told { IsTellable area.now.ids (Ok outcome) }
    requires empty { line.old ≡ [] }
    ensures value { outcome_text area.now.ids outcome ≡ Some line.new }
    ensures short { length line.new ≤ 29 }
{
    match outcome {
        Outcome::Entered(number) => {
            put_words(
                line,
                b"entered ",
                Buffer::new().format(number.get()).as_bytes(),
            );
        }
        Outcome::Moved(x) => put_node(line, b"moved ", area.id(x)),
        Outcome::Switched(color) => put_words(line, b"switched ", color_word(color)),
        Outcome::Delivered(x) => put_node(line, b"delivered ", area.id(x)),
        Outcome::Lost(loss) => put_words(line, b"lost ", loss_word(loss)),
        Outcome::Failed => put(line, b"failed"),
    }
}

/// Puts two parts into an empty line.
fn put_words(line: &mut ShortText<32>, first: &[u8], second: &[u8])
    requires empty { line.old ≡ [] }
    requires room { length first.now + length second.now ≤ 29 }
    ensures value { line.new ≡ first.now ++ second.now }
    ensures short { length line.new ≤ 29 }
{
    put(line, first);
    put(line, second);
}

/// Puts a word and a node's name into an empty line.
fn put_node(line: &mut ShortText<32>, word: &[u8], id: NodeId)
    requires empty { line.old ≡ [] }
    requires room { length word.now ≤ 10 }
    ensures value { line.new ≡ word.now ++ node_text id }
    ensures short { length line.new ≤ 29 }
{
    put(line, word);
    push_node_text(line, id);
}

fn color_word(color: Color) -> &'static [u8]
    ensures value { result.now ≡ color_text color }
    ensures short { length result.now ≤ 4 }
{
    match color {
        Color::Blue => b"blue",
        Color::Red => b"red",
    }
}

fn loss_word(loss: Loss) -> &'static [u8]
    ensures value { result.now ≡ loss_text loss }
    ensures short { length result.now ≤ 14 }
{
    match loss {
        Loss::Inside => b"inside",
        Loss::NoRoute => b"no-route",
        Loss::IsDestination => b"is-destination",
        Loss::ColorCut => b"color-cut",
        Loss::Outside => b"outside",
        Loss::NoAlternate => b"no-alternate",
    }
}

fn refused_word(refused: Refused) -> &'static [u8]
    ensures value { result.now ≡ refused_text refused }
    ensures short { length result.now ≤ 14 }
{
    match refused {
        Refused::NoSuchPlace => b"no-such-place",
        Refused::Full => b"full",
        Refused::NoSuchPacket => b"no-such-packet",
        Refused::Ended => b"ended",
        Refused::SecondFailure => b"second-failure",
    }
}
