//! Certificate files that are read in pieces.

ghost use Rattle.std.specs.Prelude.{IfOk};
ghost use Rattle.cert_format.specs.Limits.{IsCertFile};

use crate::cert_words::{put_error, put_fault};
use crate::certs::{put_beside, put_change};
use cert_format::{CertError, CertReader};
use mrt_graph::CertFile;
use parts_of_tests::Page;
use std::alloc::Global;

/// What comes of a file that is cut in two, for each place of the cut: what is written of it, or its first fault.
pub fn put_all_cuts(alloc: Global, bytes: &[u8], page: &mut Page) {
    let mut last = Page::new(alloc);
    for cut in 0..bytes.len() {
        put_cut(alloc, bytes, cut, &mut last, page);
    }
    put_cut(alloc, bytes, bytes.len(), &mut last, page);
    page.number("to ", bytes.len() as u64);
    page.end();
}

fn put_cut(alloc: Global, bytes: &[u8], cut: usize, last: &mut Page, page: &mut Page) {
    let (first, second) = bytes.split_at(cut.min(bytes.len()));
    let mut told = Page::new(alloc);
    match from_two(alloc, first, second) {
        Ok(file) => put_beside(alloc, &file, bytes, &mut told),
        Err(error) => put_error(&mut told, error),
    }
    put_change(page, cut, &told, last);
}

/// The file that two pieces come to.
fn from_two(alloc: Global, first: &[u8], second: &[u8]) -> Result<CertFile, CertError>
    ensures { IfOk result IsCertFile }
{
    let mut reader = CertReader::new(alloc);
    reader.feed(first)?;
    reader.feed(second)?;
    let file = reader.finish()?;
    Ok(file)
}

/// The answers to the pieces of a file, each of that many bytes, and to its end.
pub fn put_fed(alloc: Global, bytes: &[u8], size: u16, page: &mut Page) {
    let mut last = Page::new(alloc);
    let mut reader = CertReader::new(alloc);
    let mut rest = bytes;
    for place in 0..bytes.len() {
        if rest.is_empty() {
            break;
        }
        let (piece, behind) = rest.split_at(rest.len().min(usize::from(size)));
        put_piece(alloc, &mut reader, piece, place, &mut last, page);
        rest = behind;
    }
    page.put("end: ");
    match reader.finish() {
        Ok(_) => page.put("read\n"),
        Err(fault) => put_fault(page, fault),
    }
}

fn put_piece(
    alloc: Global,
    reader: &mut CertReader,
    piece: &[u8],
    place: usize,
    last: &mut Page,
    page: &mut Page,
) {
    let mut told = Page::new(alloc);
    match reader.feed(piece) {
        Ok(()) => told.put("taken\n"),
        Err(error) => put_error(&mut told, error),
    }
    put_change(page, place, &told, last);
}
