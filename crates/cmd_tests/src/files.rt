//! The files of a row: those in the folder where the program runs, those that are made, and the one that stands in the row.

ghost use Rattle.std.specs.Prelude.{◌≡◌, IsTrue, false};
ghost use Rattle.std.specs.List.{AllByRecursion};
ghost use Rattle.std.specs.Str.{bytes_eq};
ghost use Rattle.mrt_io.specs.Memory.{HasDistinctNames};
ghost use Rattle.mrt_io.specs.Named.{named};

use crate::asked::{Asked, text_of};
use crate::made::made;
use mrt_io::{FileShelf, Shelf, Word};
use std::alloc::Global;
use std::rt::Files;

/// The most bytes that are read of a file.
const LIMIT: u32 = 1_000_000;

/// A file by its name.
pub type Held = (Word, Vec<u8>);

/// The bytes of a file of the folder, if it is there.
pub fn read<R: Files>(rt: &R, alloc: Global, name: &str) -> Option<Vec<u8>> {
    let mut shelf = FileShelf::new(rt);
    let name = Word::new(alloc, name.as_bytes()).ok()?;
    shelf.read(alloc, &name, LIMIT).ok()
}

/// The bytes of the file that a word names, if it names one.
fn file_of<R: Files>(rt: &R, alloc: Global, word: &str, asked: &Asked<'_>) -> Option<Vec<u8>> {
    if word == "lines" {
        return Some(text_of(alloc, asked.lines));
    }
    match made(alloc, word) {
        Some(file) => Some(file),
        None => read(rt, alloc, word),
    }
}

/// Adds a file under its name.
fn push_file(files: &mut Vec<Held>, alloc: Global, word: &str, file: Vec<u8>) {
    if let Ok(name) = Word::new(alloc, word.as_bytes()) {
        let _ = files.push((name, file));
    }
}

/// The files that the words name, in memory.
pub fn hold<R: Files>(rt: &R, alloc: Global, asked: &Asked<'_>) -> Vec<Held> {
    let mut files = Vec::new(alloc);
    for word in asked.words {
        if is_new(word.as_bytes(), &files) {
            if let Some(file) = file_of(rt, alloc, word, asked) {
                push_file(&mut files, alloc, word, file);
            }
        }
    }
    files
}

/// Whether no file stands under this name.
fn is_new(name: &[u8], files: &[Held]) -> bool
    ensures { IsTrue result → AllByRecursion (λ other. bytes_eq name.now other.0 ≡ false) (named files.now) }
{
    match files.split_first() {
        None => true,
        Some((other, others)) => name != other.0.bytes() && is_new(name, others),
    }
}

/// Whether no name stands twice.
pub fn are_distinct(files: &[Held]) -> bool
    ensures { IsTrue result → HasDistinctNames (named files.now) }
{
    match files.split_first() {
        None => true,
        Some((file, others)) => is_new(file.0.bytes(), others) && are_distinct(others),
    }
}
