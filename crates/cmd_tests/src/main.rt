//! Rows of the top call: each line of the input is a name, a call and its words, and its answer is printed. The head of `stdin`
//! tells how rows and answers are spelled.
#![tactic(auto)]

mod asked;
mod devices;
mod files;
mod looped;
mod machine;
mod made;
mod memory;
mod telling;

use asked::{Words, words_of};
use looped::put_changed;
use machine::put_run;
use memory::put_mem;
use mrt_io::{Sink, StdSink, put_all};
use parts_of_tests::{Page, cut, is_row};
use std::alloc::Global;
use std::process::ExitCode;
use std::rt::Files;

fn main(rt: HostRuntime) -> ExitCode {
    let mut out = StdSink::new(rt.stdout());
    let mut status = 0;
    for line in rt.lines(rt.alloc()) {
        status = match line {
            Ok(line) => put_line(&rt, rt.alloc(), line.as_str(), &mut out),
            Err(_) => 1,
        };
        if status != 0 {
            break;
        }
    }
    ExitCode::from(status)
}

/// Puts the answer to a line to the output; 0 where it is there.
fn put_line<R: Files, K: Sink>(rt: &R, alloc: Global, line: &str, out: &mut K) -> u8 {
    let mut page = Page::new(alloc);
    put_row(rt, alloc, line, &mut page);
    match put_all(out, page.bytes()) {
        Ok(()) => 0,
        Err(_) => 2,
    }
}

/// Puts the answer to a line: none to one that is empty or a remark.
fn put_row<R: Files>(rt: &R, alloc: Global, line: &str, page: &mut Page) {
    if !is_row(line) {
        return;
    }
    let (name, rest) = cut(line);
    let (call, words) = cut(rest);
    page.put(name);
    let words = words_of(alloc, words);
    put_answer(rt, alloc, call, &words, page);
}

/// Puts the answer to a call.
fn put_answer<R: Files>(rt: &R, alloc: Global, call: &str, words: Words<'_>, page: &mut Page) {
    match call {
        "run" => put_run(rt, alloc, words, page),
        "mem" => put_mem(rt, alloc, words, page),
        "cuts" | "orders" => put_changed(rt, alloc, call, words, page),
        _ => page.put(" no such call\n"),
    }
}
