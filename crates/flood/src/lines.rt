//! The lines of answers.

ghost use Rattle.std.specs.Prelude.{◌≡◌, ◌++◌, OnOk, OnErr};
ghost use Rattle.flood.specs.declared.answer.Answer.TheVariants as answers;
ghost use Rattle.flood.specs.FloodTexts.{answer_line, verdict_line};

use crate::answer::Answer;
use crate::verdict::Verdict;
use mrt_graph::NoMemory;
use text_parts::{ShortText, line_of, push, put, put_number};

/// Puts the line of an answer to a delivery at the end of a text.
///
/// # Errors
///
/// [`NoMemory`] where there was none for the text. Then the text is as it was.
pub fn push_answer(text: &mut Vec<u8>, answer: Answer) -> Result<(), NoMemory>
    ensures added { OnOk result (text.new.items ≡ text.old.items ++ answer_line answer) }
    ensures err { OnErr result (text.new.items ≡ text.old.items) }
{
    match answer {
        Answer::Changed { count, sent } => push(text, changed_line(count, sent).bytes()),
        Answer::NoSuchPacket => push(text, b"refused no-such-packet\n"),
        Answer::NoSuchRouter => push(text, b"refused no-such-router\n"),
    }
}

/// The line of a delivery that was not refused.
fn changed_line(count: u32, sent: Option<u32>) -> ShortText<96>
    ensures { result ≡ answer_line (answers.Changed count sent) }
{
    let mut line: ShortText<96> = line_of(b"changed ");
    put_number(&mut line, u64::from(count));
    match sent {
        None => put(&mut line, b"\n"),
        Some(number) => {
            put(&mut line, b" sent ");
            put_number(&mut line, u64::from(number));
            put(&mut line, b"\n");
        }
    }
    line
}

/// Puts the line of what a comparison comes to.
///
/// # Errors
///
/// [`NoMemory`] where there was none for the text. Then the text is as it was.
pub fn push_verdict(text: &mut Vec<u8>, verdict: Verdict) -> Result<(), NoMemory>
    ensures added { OnOk result (text.new.items ≡ text.old.items ++ verdict_line verdict) }
    ensures err { OnErr result (text.new.items ≡ text.old.items) }
{
    match verdict {
        Verdict::None => push(text, b"none\n"),
        Verdict::Same => push(text, b"same\n"),
        Verdict::Different => push(text, b"different\n"),
    }
}
