//! Answers as lines.

use crate::devices::Streams;
use crate::files::read;
use mrt_cmd::Exit;
use parts_of_tests::Page;
use std::alloc::Global;
use std::rt::Files;

/// A text of more bytes is not printed whole.
const LONG: usize = 65_536;

/// Adds the exit's status, what was written to both streams, and the exit's line where the error stream did not get it.
pub fn put_seen<R: Files>(
    rt: &R,
    alloc: Global,
    wanted: &str,
    exit: Exit,
    streams: &Streams,
    page: &mut Page,
) {
    page.number(" exit ", u64::from(exit.status()));
    page.end();
    put_beside(rt, alloc, wanted, streams.out.bytes(), page);
    put_lines(page, "  ! ", streams.err.bytes());
    put_untold(page, exit.line().bytes(), streams.err.bytes());
}

fn put_untold(page: &mut Page, line: &[u8], told: &[u8]) {
    if line != told {
        put_lines(page, "  untold ", line);
    }
}

/// Adds what was written to the output, beside the file of this name, if one is named.
fn put_beside<R: Files>(rt: &R, alloc: Global, wanted: &str, text: &[u8], page: &mut Page) {
    match read(rt, alloc, wanted) {
        Some(file) => put_compared(page, text, wanted, &file),
        None => put_text(page, text),
    }
}

/// Adds what a text is of this file: the whole, the first bytes, or neither.
fn put_compared(page: &mut Page, text: &[u8], name: &str, bytes: &[u8]) {
    if !bytes.starts_with(text) {
        return put_text(page, text);
    }
    if text.len() == bytes.len() {
        page.put("  = ");
    } else {
        page.number("  the first ", text.len() as u64);
        page.put(" bytes of ");
    }
    page.put(name);
    page.end();
}

/// Adds a text line by line; of a long one how many lines there are and the last one, and of bytes that are no text how many there
/// are where they are many.
fn put_text(page: &mut Page, text: &[u8]) {
    match (is_plain(text), text.len() > LONG) {
        (true, false) => put_lines(page, "  > ", text),
        (true, true) => put_last(page, text),
        (false, false) => put_hex(page, text),
        (false, true) => put_count(page, text.len(), " bytes\n"),
    }
}

fn put_count(page: &mut Page, count: usize, what: &str) {
    page.number("  ", count as u64);
    page.put(what);
}

/// Whether these are lines of printable ASCII.
fn is_plain(text: &[u8]) -> bool {
    for byte in text {
        if *byte != b'\n' && (*byte < b' ' || *byte > b'~') {
            return false;
        }
    }
    true
}

/// Adds a mark and a line for each line; one that is cut has the mark `~`.
fn put_lines(page: &mut Page, mark: &str, text: &[u8]) {
    for line in text.split_inclusive(|byte| *byte == b'\n') {
        if line.ends_with(b"\n") {
            page.put(mark);
            page.put_bytes(line);
        } else {
            page.put("  ~ ");
            page.put_bytes(line);
            page.end();
        }
    }
}

/// Adds how many lines there are, and the last of them.
fn put_last(page: &mut Page, text: &[u8]) {
    let mut last: &[u8] = b"";
    let mut count = 0usize;
    for line in text.split_inclusive(|byte| *byte == b'\n') {
        last = line;
        count = count.wrapping_add(1);
    }
    put_count(page, count, " lines, the last:\n");
    put_lines(page, "  > ", last);
}

/// Adds bytes as digits, 32 in a line.
fn put_hex(page: &mut Page, text: &[u8]) {
    for part in text.chunks(32) {
        page.hex("  x ", part);
        page.end();
    }
}
