//! Files, whole or read in pieces of three bytes, from the machine or from memory. `holds=six:sixes!` is the one file of a
//! shelf in memory.

use crate::calls::Call;
use crate::devices::only;
use crate::told::{list, number_or, told};
use crate::told_bytes::show_line;
use mrt_graph::NoMemory;
use mrt_io::{FileShelf, MemShelf, OpenError, Shelf, ShelfError, ShelfFailed, Word};
use parts_of_tests::Page;
use std::alloc::Global;
use std::rt::Files;

/// Puts what a shelf gives, one in memory or that of the machine.
pub fn put_files<R: Files>(rt: &R, alloc: Global, call: Call, words: &str, page: &mut Page) {
    match told(words, "holds") {
        Some(file) => put_held(alloc, file, call, words, page),
        None => put_each(alloc, &mut FileShelf::new(rt), call, words, page),
    }
}

/// What a shelf gives that has one file and fails one call.
fn put_held(alloc: Global, file: &str, call: Call, words: &str, page: &mut Page) {
    if let Ok(file) = held(alloc, file) {
        let mut files = Vec::new(alloc);
        let _ = files.push(file);
        let fails = only(alloc, number_or(words, "fails", u16::MAX));
        put_each(alloc, &mut MemShelf::new(files, fails), call, words, page);
    }
}

/// The file that a text tells by its name and its bytes.
fn held(alloc: Global, file: &str) -> Result<(Word, Vec<u8>), NoMemory> {
    let (name, bytes) = file.split_once(':').unwrap_or((file, ""));
    let name = Word::new(alloc, name.as_bytes())?;
    let bytes = Vec::from_slice(alloc, bytes.as_bytes())?;
    Ok((name, bytes))
}

/// What a shelf gives, for each name.
fn put_each<S: Shelf>(alloc: Global, shelf: &mut S, call: Call, words: &str, page: &mut Page) {
    let limit = number_or(words, "limit", 0);
    for name in list(words, "names").split(',') {
        if let Ok(name) = Word::new(alloc, name.as_bytes()) {
            match call {
                Call::ReadFile => put_read(alloc, shelf, &name, limit, page),
                _ => put_opened(alloc, shelf, &name, page),
            }
        }
    }
}

/// The file of a name, of at most that many bytes.
fn put_read<S: Shelf>(alloc: Global, shelf: &mut S, name: &Word, limit: u16, page: &mut Page) {
    match shelf.read(alloc, name, u32::from(limit)) {
        Ok(bytes) => show_line(page, &bytes),
        Err(ShelfError::Failed) => page.put("failed\n"),
        Err(ShelfError::TooLong) => page.put("too long\n"),
        Err(ShelfError::NoMemory) => {}
    }
}

/// The file of a name, piece by piece.
fn put_opened<S: Shelf>(alloc: Global, shelf: &mut S, name: &Word, page: &mut Page) {
    match shelf.open(alloc, name) {
        Ok(()) => put_pieces(shelf, &mut Page::new(alloc), page),
        Err(OpenError::Failed) => page.put("not opened\n"),
        Err(OpenError::NoMemory) => {}
    }
}

/// What is left of the open file.
fn put_pieces<S: Shelf>(shelf: &mut S, told: &mut Page, page: &mut Page)
    requires { S.is_open shelf.old }
{
    for _ in 0..9 {
        let mut piece = [0; 3];
        match shelf.more(&mut piece) {
            Ok(0) => return show_line(page, told.bytes()),
            Ok(count) => told.put_bytes(&piece[..count as usize]),
            Err(ShelfFailed) => {
                page.number("failed after ", told.bytes().len() as u64);
                return page.end();
            }
        }
    }
    page.put("endless\n");
}
