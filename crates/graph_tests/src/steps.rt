//! Certificate files put to a sink of seven bytes a call, of which one call fails: a whole file, or in steps, the rows in two.

ghost use Rattle.std.specs.Prelude.{◌≡◌, ◌≤◌, ◌+◌, length};
ghost use Rattle.cert_format.specs.Limits.{IsCertFile};

use crate::calls::Call;
use crate::cert_words::rows_of;
use crate::certs::{cert_of, put_change};
use crate::devices::{only, put_outcome};
use crate::told::{list, number_or};
use crate::told_bytes::show_line;
use crate::told_files::{file_named, file_told};
use cert_format::{CertWriter, WritableCert};
use mrt_graph::{Cert, CertFile, Row};
use mrt_io::{MemSink, PutError};
use parts_of_tests::Page;
use std::alloc::Global;
use std::rt::Files;

/// Puts the certificate file that words tell. What a sink gained is compared with the front of the file that `as` names.
pub fn put_steps<R: Files + AllocGlobal>(
    rt: &R,
    alloc: Global,
    call: Call,
    words: &str,
    page: &mut Page,
) {
    let bytes = file_told(rt, words);
    let whole = file_named(rt, list(words, "as"));
    match call {
        Call::PutCert => put_wholes(alloc, &bytes, &whole, words, page),
        _ => put_in_parts(alloc, call, &bytes, &whole, words, page),
    }
}

/// Puts a whole file, for each number of the call that fails.
fn put_wholes(alloc: Global, bytes: &[u8], whole: &[u8], words: &str, page: &mut Page) {
    for fails in 0..number_or(words, "calls", 0) {
        if let Some(file) = cert_of(alloc, bytes, page) {
            page.tell("%: ", &[fails]);
            put_whole(alloc, file, whole, fails, page);
        }
    }
}

fn put_whole(alloc: Global, file: CertFile, whole: &[u8], fails: u16, page: &mut Page)
    requires { IsCertFile file }
{
    let Ok(mut sink) = MemSink::new(alloc, 98, 7, only(alloc, fails)) else {
        return;
    };
    if let Ok(writable) = WritableCert::new(alloc, file) {
        put_outcome(page, writable.put(&mut sink));
    }
    put_gained(page, sink.bytes(), whole);
}

/// What a sink gained: the front of a whole file, or which bytes.
fn put_gained(page: &mut Page, gained: &[u8], whole: &[u8]) {
    if gained == &whole[..whole.len().min(gained.len())] {
        page.number(", gained the first ", gained.len() as u64);
        page.put(" bytes\n");
    } else {
        page.put(", gained ");
        show_line(page, gained);
    }
}

/// Puts a certificate in steps.
fn put_in_parts(
    alloc: Global,
    call: Call,
    bytes: &[u8],
    whole: &[u8],
    words: &str,
    page: &mut Page,
) {
    if let Some(file) = cert_of(alloc, bytes, page) {
        match call {
            Call::PutInSteps => put_cuts(alloc, &file, whole, words, page),
            _ => put_failing(alloc, &file, whole, words, page),
        }
    }
}

/// Puts it for each place where its rows are cut: what comes of it, and from which cut on.
fn put_cuts(alloc: Global, file: &CertFile, whole: &[u8], words: &str, page: &mut Page) {
    let cuts = number_or(words, "cuts", 0);
    let mut last = Page::new(alloc);
    for cut in 0..cuts {
        let mut told = Page::new(alloc);
        put_cut(alloc, file, whole, (cut, 100), &mut told);
        put_change(page, usize::from(cut), &told, &mut last);
    }
    page.tell("before %\n", &[cuts]);
}

/// Puts it for each number of the call that fails.
fn put_failing(alloc: Global, file: &CertFile, whole: &[u8], words: &str, page: &mut Page) {
    let first = number_or(words, "first", 0);
    for fails in 0..number_or(words, "calls", 0) {
        page.tell("%: ", &[fails]);
        put_cut(alloc, file, whole, (first, fails), page);
    }
}

/// Puts it by the place where its rows are cut and the number of the call that fails.
fn put_cut(alloc: Global, file: &CertFile, whole: &[u8], how: (u16, u16), page: &mut Page) {
    let Ok(mut sink) = MemSink::new(alloc, 110, 7, only(alloc, how.1)) else {
        return;
    };
    let rows = rows_of(alloc, &file.cert);
    let rows = &rows[..rows.len().min(100)];
    let (first, rest) = rows.split_at(rows.len().min(usize::from(how.0)));
    put_in_steps(alloc, &mut sink, file, first, rest, page);
    put_gained(page, sink.bytes(), whole);
}

/// Puts a certificate in version 2.
fn put_in_steps(
    alloc: Global,
    sink: &mut MemSink,
    file: &CertFile,
    first: &[Row],
    rest: &[Row],
    page: &mut Page,
)
    requires first { length first.now ≤ 100 }
    requires rest { length rest.now ≤ 100 }
{
    let cert = &file.cert;
    if let Ok(writer) = CertWriter::new(alloc, 2, cert.node_count(), cert.link_count(), file.root) {
        put_outcome(page, put_parts(writer, sink, cert, first, rest));
    }
}

/// Puts the parts of a certificate after the header.
fn put_parts(
    writer: CertWriter,
    sink: &mut MemSink,
    cert: &Cert,
    first: &[Row],
    rest: &[Row],
) -> Result<(), PutError>
    requires header { writer.gone + length writer.held ≡ 14 }
    requires first { length first.now ≤ 100 }
    requires rest { length rest.now ≤ 100 }
{
    // what each certificate keeps is told by reading it
    let _count = cert.node_count();
    let mut writer = writer;
    writer.put_nodes(sink, cert.nodes())?;
    writer.put_links(sink, cert.links())?;
    writer.put_rows(sink, first)?;
    writer.put_rows(sink, rest)?;
    writer.finish(sink)
}
