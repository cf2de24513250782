//! The answer to a row: its call is given files and then other words.

use crate::calls::{Call, call_named};
use crate::told::{after, file, number_at, word};
use crate::{delivered, instances, islands, limits, lsas, of_area, surveys, written};
use parts_of_tests::{Page, cut, is_row, put_answer};
use std::alloc::Global;
use std::fs;
use std::rt::Files;

/// Puts the answer to a line.
pub fn put_row<R: Files + AllocGlobal>(rt: &R, line: &str, page: &mut Page) {
    if !is_row(line) {
        return;
    }
    let (name, rest) = cut(line);
    let (call, given) = cut(rest);
    let mut answer = Page::new(rt.alloc());
    match call_named(call) {
        Some(call) => put_answered(rt, call, given, &mut answer),
        None => answer.put("no such call\n"),
    }
    put_answer(page, name, answer.bytes());
}

fn put_answered<R: Files + AllocGlobal>(rt: &R, call: Call, given: &str, page: &mut Page) {
    let files = files_of(rt, given);
    let words = after(given, files.len());
    if is_file(word(words, 0)) {
        page.put("no such file\n");
    } else {
        put_called(rt.alloc(), call, &files, words, page);
    }
}

/// The files that the first words name.
fn files_of<R: Files + AllocGlobal>(rt: &R, words: &str) -> Vec<Vec<u8>> {
    let mut files = Vec::new(rt.alloc());
    for word in words.split(' ') {
        if !is_file(word) {
            break;
        }
        let Ok(file) = fs::read(rt, word) else {
            break;
        };
        let _ = files.push(file);
    }
    files
}

/// Whether a word names a file, as `triangle.lsas` does.
fn is_file(word: &str) -> bool {
    match word.as_bytes() {
        [first, ..] => first.is_ascii_lowercase() && word.contains('.') && !word.contains(':'),
        [] => false,
    }
}

/// Puts the answer to a call on files, or on what words tell.
fn put_called(alloc: Global, call: Call, files: &[Vec<u8>], words: &str, page: &mut Page) {
    let bytes = file(files, 0);
    match call {
        Call::Bytes => lsas::put_bytes(page, bytes),
        Call::Lsas | Call::Copies | Call::Written => lsas::put_read(alloc, call, bytes, page),
        Call::Cuts => lsas::put_cuts(alloc, bytes, page),
        Call::Alike => lsas::put_alike(alloc, bytes, file(files, 1), page),
        Call::Sums => lsas::put_sums(page, bytes, number_at(words, 0) as usize),
        Call::WrittenRouter => written::put_router(alloc, words, page),
        Call::Longest => written::put_longest(alloc, words, page),
        Call::Install => instances::put_installed(alloc, words, page),
        Call::Orders => instances::put_orders(alloc, words, page),
        Call::Updates => delivered::put_read(alloc, bytes, page),
        Call::Script => delivered::put_script(alloc, words, page),
        Call::Profile => islands::put_profile(alloc, words, page),
        Call::Ring => limits::put_ring(alloc, words, page),
        Call::Apart => limits::put_apart(alloc, words, page),
        Call::Made => surveys::put_made(alloc, bytes, words, page),
        _ => of_area::put_of_area(alloc, call, bytes, files, words, page),
    }
}
