//! The top call over memory.

ghost use Rattle.std.specs.Prelude.{◌≡◌, ℕ, List, Ok, Err, IfOk, IfErr, Some, length, take};
ghost use Rattle.mrt_answer.specs.TextBytes.{IsTextAnswer};
ghost use Rattle.mrt_cmd.specs.Comes.{of_words};
ghost use Rattle.mrt_exit.specs.{Due.IsDue, declared.exit.Exit.Exit};
ghost use Rattle.mrt_lent.specs.Lent.{held_in};
ghost use Rattle.mrt_calls.specs.Faults.{IsTold};
ghost use Rattle.mrt_calls.specs.steps.Putting.{IsHeldIn};
ghost use Rattle.mrt_calls.specs.Runs.{HoldsLine, IsRun, words_in};

use crate::fault::{MrtFault, tell};
use crate::putting::{count_of, exit_of, put_text};
use mrt_answer::Text;
use mrt_cmd::{one_exit_comes, text_for};
use mrt_exit::Exit;
use mrt_graph::NoMemory;
use mrt_io::Word;
use mrt_lent::{LentShelf, MrtBytes, MrtFile};
use std::alloc::Global;

/// Does what the words ask for over these files, as `run`, and puts the text into a buffer; or else the exit's line, or as much
/// of its front as there is room for. It says how long that is, and answers the status.
pub fn run_over(
    alloc: Global,
    words: &[MrtBytes<'_>],
    files: &[MrtFile<'_>],
    text: &mut [u8],
    count: &mut usize,
    fault: &mut MrtFault,
) -> u32
    ensures { (exit : Exit) × IsRun (held_in files.now) (words_in words.now) (length text.old) text.new count.new exit
        × IsTold exit result fault.new }
{
    let exit = run_in(alloc, words, files, text, count);
    tell(&exit, fault)
}

/// The same, but for the fault.
fn run_in(
    alloc: Global,
    words: &[MrtBytes<'_>],
    files: &[MrtFile<'_>],
    text: &mut [u8],
    count: &mut usize,
) -> Exit
    ensures { IsRun (held_in files.now) (words_in words.now) (length text.old) text.new count.new result }
{
    match put_answer(alloc, words, files, text) {
        Ok(wanted) => {
            *count = wanted;
            exit_of(wanted, text.len())
        }
        Err(exit) => {
            *count = put_line(&exit, text);
            exit
        }
    }
}

/// Puts the text that the words give into a buffer where there is room, and answers how long it is.
fn put_answer(
    alloc: Global,
    words: &[MrtBytes<'_>],
    files: &[MrtFile<'_>],
    text: &mut [u8],
) -> Result<usize, Exit>
    ensures room { length text.new ≡ length text.old }
    ensures held { IfOk result (λ count. (bytes : List ℕ)
        × of_words (Some (held_in files.now)) (words_in words.now) (Ok bytes) × IsHeldIn text.new count bytes) }
    ensures none { IfErr result (IsDue (λ exit. of_words (Some (held_in files.now)) (words_in words.now) (Err exit))) }
{
    one_exit_comes();
    let answer = answer_over(alloc, words, files)?;
    match put_text(answer, text) {
        Ok(count) => Ok(count),
        Err(_) => count_again(alloc, words, files),
    }
}

/// How long the text is that the words give.
fn count_again(alloc: Global, words: &[MrtBytes<'_>], files: &[MrtFile<'_>]) -> Result<usize, Exit>
    ensures counted { IfOk result (λ count. (bytes : List ℕ)
        × of_words (Some (held_in files.now)) (words_in words.now) (Ok bytes) × (count ≡ length bytes)) }
    ensures none { IfErr result (IsDue (λ exit. of_words (Some (held_in files.now)) (words_in words.now) (Err exit))) }
{
    let answer = answer_over(alloc, words, files)?;
    Ok(count_of(answer))
}

/// The text that the words give over these files, or why they give none.
fn answer_over(alloc: Global, words: &[MrtBytes<'_>], files: &[MrtFile<'_>]) -> Result<Text, Exit>
    ensures { IsTextAnswer (of_words (Some (held_in files.now)) (words_in words.now)) result }
{
    let words = words_of(alloc, words)?;
    answer_to(alloc, &words, files)
}

/// The same, of words that are held.
fn answer_to(alloc: Global, words: &[Word], files: &[MrtFile<'_>]) -> Result<Text, Exit>
    ensures { IsTextAnswer (of_words (Some (held_in files.now)) words.now) result }
{
    let mut shelf = LentShelf::new(files);
    text_for(alloc, words, &mut shelf)
}

/// The words that these bytes are.
fn words_of(alloc: Global, bytes: &[MrtBytes<'_>]) -> Result<Vec<Word>, NoMemory>
    ensures { IfOk result (λ words. words.items ≡ words_in bytes.now) }
{
    let mut words = Vec::new(alloc);
    for word in bytes {
        words.push(Word::new(alloc, word.data)?)?;
    }
    Ok(words)
}

/// Puts an exit's line into a buffer, or as much of its front as there is room for, and answers how long it is.
pub(crate) fn put_line(exit: &Exit, buffer: &mut [u8]) -> usize
    ensures room { length buffer.new ≡ length buffer.old }
    ensures line { HoldsLine buffer.new result exit.now }
{
    let line = exit.line();
    put_front(line.bytes(), buffer);
    line.bytes().len()
}

/// Puts bytes into a buffer, or as many of the first as there is room for.
fn put_front(bytes: &[u8], buffer: &mut [u8])
    ensures room { length buffer.new ≡ length buffer.old }
    ensures front { take (length bytes.now) buffer.new ≡ take (length buffer.old) bytes.now }
{
    let count = bytes.len().min(buffer.len());
    buffer[..count].copy_from_slice(&bytes[..count]);
}
