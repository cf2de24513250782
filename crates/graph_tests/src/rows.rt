//! The answer to a row: each call is answered by one function of a module. What a call has no memory for, or what is not
//! there, is left out of the answer, which is another one then.

use crate::calls::{Call, call_named};
use crate::{certs, computed, devices, graphs, plain, shelves, steps, streams, texts};
use mrt_io::{Sink, put_all};
use parts_of_tests::{Page, cut, is_row, put_answer};
use std::alloc::Global;
use std::rt::Files;

/// Puts the answer to a line to the output; 0 where it is there.
pub fn put_line<R: Files + AllocGlobal, K: Sink>(
    rt: &R,
    alloc: Global,
    line: &str,
    out: &mut K,
) -> u8 {
    let mut page = Page::new(alloc);
    if is_row(line) {
        put_row(rt, alloc, line, &mut page);
    }
    match put_all(out, page.bytes()) {
        Ok(()) => 0,
        Err(_) => 2,
    }
}

fn put_row<R: Files + AllocGlobal>(rt: &R, alloc: Global, line: &str, page: &mut Page) {
    let (name, rest) = cut(line);
    let (call, words) = cut(rest);
    let mut answer = Page::new(alloc);
    match call_named(call) {
        Some(call) => put_answered(rt, alloc, call, words, &mut answer),
        None => answer.put("no such call\n"),
    }
    put_answer(page, name, answer.bytes());
}

/// The calls that are given words alone.
fn put_answered<R: Files + AllocGlobal>(
    rt: &R,
    alloc: Global,
    call: Call,
    words: &str,
    page: &mut Page,
) {
    match call {
        Call::Number | Call::Address | Call::Lines | Call::Rising => texts::put_read(
            alloc, call, words, page,
        ),
        Call::NodeText => texts::put_node_text(words, page),
        Call::NodeOrder => texts::put_node_order(words, page),
        Call::Push => texts::put_pushed(alloc, words, page),
        Call::Graph => graphs::put_graph(alloc, words, page),
        Call::LineOfRouters => graphs::put_counts(alloc, words, page),
        Call::LinksOf => plain::put_links_of(alloc, words, page),
        Call::Separates => plain::put_separates(alloc, words, page),
        Call::Sound | Call::Follow | Call::Reaches => plain::put_of_island(
            alloc, call, words, page,
        ),
        Call::Stream => streams::put_stream(alloc, words, page),
        Call::IsSame => streams::put_is_same(alloc, words, page),
        Call::PutToSink => devices::put_to_sink(alloc, words, page),
        Call::Word => devices::put_word(alloc, words, page),
        _ => put_of_files(rt, alloc, call, words, page),
    }
}

/// The calls that are given files, or a graph and its root.
fn put_of_files<R: Files + AllocGlobal>(
    rt: &R,
    alloc: Global,
    call: Call,
    words: &str,
    page: &mut Page,
) {
    match call {
        Call::PutToFile => devices::put_to_file(rt, words, page),
        Call::ReadFile | Call::OpenFile => shelves::put_files(rt, alloc, call, words, page),
        Call::PutCert | Call::PutInSteps | Call::PutInStepsFailing => {
            steps::put_steps(rt, alloc, call, words, page)
        }
        Call::ReadCert
        | Call::WriteCert
        | Call::ReadCertCut
        | Call::ReadInTwo
        | Call::Feed
        | Call::Check
        | Call::ProxyRows
        | Call::SoundProxies
        | Call::Next => certs::put_of_file(rt, alloc, call, words, page),
        _ => computed::put_of_graph(alloc, call, words, page),
    }
}
