//! Certificate files, read whole or in pieces, and written.

ghost use Rattle.std.specs.Prelude.{IfSome};
ghost use Rattle.cert_format.specs.Limits.{IsCertFile};

use crate::calls::Call;
use crate::cert_pieces::{put_all_cuts, put_fed};
use crate::cert_words::{put_error, put_file};
use crate::checks::put_of_cert;
use crate::told::number_or;
use crate::told_bytes::show_line;
use crate::told_files::file_told;
use cert_format::{read_cert, write_cert};
use mrt_graph::CertFile;
use parts_of_tests::Page;
use std::alloc::Global;
use std::rt::Files;

/// Puts what a call asks of the file that words tell.
pub fn put_of_file<R: Files + AllocGlobal>(
    rt: &R,
    alloc: Global,
    call: Call,
    words: &str,
    page: &mut Page,
) {
    let bytes = file_told(rt, words);
    put_of_bytes(alloc, call, &bytes, words, page);
}

fn put_of_bytes(alloc: Global, call: Call, bytes: &[u8], words: &str, page: &mut Page) {
    match call {
        Call::ReadCert | Call::WriteCert => put_read(alloc, call, bytes, page),
        Call::ReadCertCut => put_fronts(alloc, bytes, page),
        Call::ReadInTwo => put_all_cuts(alloc, bytes, page),
        Call::Feed => put_fed(alloc, bytes, number_or(words, "size", 1), page),
        _ => put_of_cert(alloc, call, bytes, words, page),
    }
}

/// The certificate file that has these bytes. Where there is none, it says why.
pub fn cert_of(alloc: Global, bytes: &[u8], page: &mut Page) -> Option<CertFile>
    ensures { IfSome result IsCertFile }
{
    match read_cert(alloc, bytes) {
        Ok(file) => return Some(file),
        Err(error) => put_error(page, error),
    }
    None
}

/// All of a certificate file, or what is written of it, beside it; or its first fault.
pub fn put_read(alloc: Global, call: Call, bytes: &[u8], page: &mut Page) {
    if let Some(file) = cert_of(alloc, bytes, page) {
        match call {
            Call::ReadCert => put_file(alloc, &file, page),
            _ => put_beside(alloc, &file, bytes, page),
        }
    }
}

/// Whether the bytes of a file are these; the others where they are not.
pub fn put_beside(alloc: Global, file: &CertFile, bytes: &[u8], page: &mut Page)
    requires { IsCertFile file.now }
{
    if let Ok(written) = write_cert(alloc, file) {
        put_compared(page, &written, bytes);
    }
}

fn put_compared(page: &mut Page, written: &[u8], bytes: &[u8]) {
    if written == bytes {
        page.number("written again, ", bytes.len() as u64);
        page.put(" bytes\n");
    } else {
        show_line(page, written);
    }
}

/// The front of a file for each length: what comes of it, and from which length on.
fn put_fronts(alloc: Global, bytes: &[u8], page: &mut Page) {
    let mut last = Page::new(alloc);
    for length in 0..bytes.len() {
        put_front(alloc, &bytes[..length], &mut last, page);
    }
    put_front(alloc, bytes, &mut last, page);
}

/// What comes of a front, where that is not what came of the last one.
fn put_front(alloc: Global, front: &[u8], last: &mut Page, page: &mut Page) {
    let mut told = Page::new(alloc);
    if let Some(_) = cert_of(alloc, front, &mut told) {
        told.put("read\n");
    }
    put_change(page, front.len(), &told, last);
}

/// A line for an outcome that is not the last one.
pub fn put_change(page: &mut Page, from: usize, told: &Page, last: &mut Page) {
    if told.bytes() != last.bytes() {
        page.number("from ", from as u64);
        page.put(": ");
        page.put_bytes(told.bytes());
        last.clear();
        last.put_bytes(told.bytes());
    }
}
