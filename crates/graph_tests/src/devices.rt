//! What bytes are put to: a file of the machine, or a sink in memory; and words.

use crate::told::{list, number_or};
use crate::told_bytes::{bytes_told, show_line};
use mrt_io::{MemSink, PutError, Sink, StdSink, Word, put_all};
use parts_of_tests::Page;
use std::alloc::Global;
use std::fs;
use std::rt::Files;

/// The word of a text.
pub fn put_word(alloc: Global, words: &str, page: &mut Page) {
    if let Ok(word) = Word::new(alloc, list(words, "bytes").as_bytes()) {
        show_line(page, word.bytes());
    }
}

/// Puts a text to a new file, and then an empty piece.
pub fn put_to_file<R: Files>(rt: &R, words: &str, page: &mut Page) {
    match fs::create(rt, list(words, "name")) {
        Ok(file) => put_twice(
            &mut StdSink::new(file),
            list(words, "bytes").as_bytes(),
            page,
        ),
        Err(_) => page.put("no file\n"),
    }
}

fn put_twice<K: Sink>(sink: &mut K, bytes: &[u8], page: &mut Page) {
    put_outcome(page, put_all(sink, bytes));
    match sink.put(b"") {
        Ok(count) => {
            page.number(", ", u64::from(count));
            page.put(" of an empty piece\n");
        }
        Err(_) => page.put(", failed at an empty piece\n"),
    }
}

/// Says whether all was put, or how much the sink had taken before it failed.
pub fn put_outcome(page: &mut Page, answer: Result<(), PutError>) {
    match answer {
        Ok(()) => page.put("put"),
        Err(PutError::Failed { taken }) => page.number("failed after ", taken),
    }
}

/// The numbers of the calls that fail: this one.
pub fn only(alloc: Global, number: u16) -> Vec<u32> {
    let mut numbers = Vec::new(alloc);
    let _ = numbers.push(u32::from(number));
    numbers
}

/// Puts bytes to a sink with so much room, of so many bytes a call, whose call of this number fails.
pub fn put_to_sink(alloc: Global, words: &str, page: &mut Page) {
    let fails = only(alloc, number_or(words, "fails", u16::MAX));
    let room = number_or(words, "room", 0);
    let step = number_or(words, "step", 1).max(1);
    let Ok(mut sink) = MemSink::new(alloc, u32::from(room), u32::from(step), fails) else {
        return;
    };
    let bytes = bytes_told(alloc, words, "bytes");
    put_outcome(page, put_all(&mut sink, &bytes));
    page.put(", gained ");
    show_line(page, sink.bytes());
}
