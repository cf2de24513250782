//! LSAs that are read, copied and compared, and the sums of bytes: `bytes FILE`, `lsas FILE`, `copies FILE`, `written FILE`,
//! `cuts FILE`, `alike FILE FILE`, `sums FILE FROM`.

ghost use Rattle.std.specs.Prelude.{◌≤◌, length};

use crate::calls::Call;
use crate::lsa_text::{put_lsa, put_lsas};
use crate::told::spell;
use crate::written::put_all_written;
use ospf_lsa::{Lsa, LsaError, LsaKind, read_lsas, sums};
use parts_of_tests::Page;
use std::alloc::Global;

/// The bytes of a file, sixteen a line.
pub fn put_bytes(page: &mut Page, bytes: &[u8]) {
    for line in bytes.chunks(16) {
        page.hex("", line);
        page.end();
    }
}

/// Puts the LSAs that bytes are: as they are, copied, written again, or how many there are; or why they are none.
pub fn put_read(alloc: Global, call: Call, bytes: &[u8], page: &mut Page)
    requires { length bytes.now ≤ 8388608 }
{
    match read_lsas(alloc, bytes) {
        Ok(lsas) => match call {
            Call::Copies => put_all_copied(alloc, &lsas, page),
            Call::Written => put_all_written(alloc, &lsas, page),
            Call::Cuts => put_count(page, lsas.len()),
            _ => put_lsas(page, &lsas),
        },
        Err(error) => put_error(page, error),
    }
}

fn put_count(page: &mut Page, count: usize) {
    page.number("", count as u64);
    page.put(" LSAs\n");
}

/// Puts why bytes are no LSAs.
pub fn put_error(page: &mut Page, error: LsaError) {
    match error {
        LsaError::Fault { at, kind } => {
            page.put(kind_word(kind));
            page.number(" at ", at as u64);
            page.end();
        }
        LsaError::NoMemory => {}
    }
}

fn kind_word(kind: LsaKind) -> &'static str {
    match kind {
        LsaKind::Truncated => "Truncated",
        LsaKind::Length => "Length",
        LsaKind::Checksum => "Checksum",
        LsaKind::ReservedSequence => "ReservedSequence",
        LsaKind::IdMismatch => "IdMismatch",
        LsaKind::Body => "Body",
        LsaKind::ZeroMetric => "ZeroMetric",
    }
}

/// What comes of the front of a file, after each count of bytes from which on it is another.
pub fn put_cuts(alloc: Global, bytes: &[u8], page: &mut Page)
    requires { length bytes.now ≤ 8388608 }
{
    let mut last = Page::new(alloc);
    for count in 0..bytes.len() + 1 {
        let mut told = Page::new(alloc);
        put_read(alloc, Call::Cuts, &bytes[..count], &mut told);
        if told.bytes() != last.bytes() {
            page.number("", count as u64);
            page.put(" bytes: ");
            page.put_bytes(told.bytes());
        }
        last = told;
    }
}

/// The copies of LSAs, and whether each is equal to its own.
fn put_all_copied(alloc: Global, lsas: &[Lsa], page: &mut Page) {
    let mut are_equal = true;
    for lsa in lsas {
        if let Ok(copy) = lsa.copy(alloc) {
            put_lsa(page, &copy);
            are_equal = are_equal && copy == *lsa;
        }
    }
    page.truth("equal to theirs: ", are_equal);
    page.end();
}

/// Whether the last LSAs of two files are equal, and whether their bodies are.
pub fn put_alike(alloc: Global, bytes: &[u8], others: &[u8], page: &mut Page)
    requires bytes { length bytes.now ≤ 8388608 }
    requires others { length others.now ≤ 8388608 }
{
    if let Ok(lsas) = read_lsas(alloc, bytes) {
        if let Ok(others) = read_lsas(alloc, others) {
            put_last_alike(page, &lsas, &others);
        }
    }
}

fn put_last_alike(page: &mut Page, lsas: &[Lsa], others: &[Lsa]) {
    if let (Some(lsa), Some(other)) = (lsas.last(), others.last()) {
        page.truth("", *lsa == *other);
        page.truth(" ", lsa.body == other.body);
        page.end();
    }
}

/// The sums of the bytes of a file from a place on.
pub fn put_sums(page: &mut Page, bytes: &[u8], from: usize) {
    let (first, second) = sums(&bytes[bytes.len().min(from)..]);
    spell(page, "% %\n", &[first as u32, second as u32]);
}
