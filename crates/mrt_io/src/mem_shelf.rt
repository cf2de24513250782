ghost use Rattle.std.specs.Prelude.{◌≡◌, ◌<◌, ◌+◌, ◌^◌, IfSome, None, Some, length, min, take, if◌then◌else◌};
ghost use Rattle.std.specs.Option.{option_and_then, option_map};
ghost use Rattle.mrt_io.specs.{Memory.file_of, Named.named};
ghost use Rattle.mrt_io.specs.steps.Opened.{IsOpenIn, bytes_at, left_of};

use crate::call::is_failing;
use crate::device::{OpenError, Shelf, ShelfError, ShelfFailed};
use crate::word::Word;
use std::alloc::Global;
use std::marker::Model;

/// A shelf in memory: its files by name, and the numbers of the calls that it fails. It tells what it holds.
pub struct MemShelf {
    files: Vec<(Word, Vec<u8>)>,
    fails: Vec<u32>,
    calls: u64,
    faults: u64,
    opened: Option<Open>,
}

impl Drop for MemShelf {
    fn drop(self) {
        let Self {
            files: _,
            fails: _,
            calls: _,
            faults: _,
            opened: _,
        } = self;
    }
}

/// The file that is open: its place among the files, and how many of its bytes were read.
#[derive(Clone, Copy)]
struct Open {
    place: usize,
    taken: usize,
}

impl Model for MemShelf {
    ghost use Rattle.mrt_io.specs.Memory.{ShelfInMemory};
    ghost use Rattle.mrt_io.specs.Named.{named};
    ghost use Rattle.mrt_io.specs.steps.Opened.{IsOpenIn, left_of};

    ghost Value = { ShelfInMemory };

    ghost view = { λ shelf. record {
      files = named shelf.files.items;
      fails = shelf.fails.items;
      calls = shelf.calls;
      faults = shelf.faults;
      left = left_of (named shelf.files.items) shelf.opened;
    } };

    ghost invariant = { λ shelf. IsOpenIn (named shelf.files.items) shelf.opened };
}

impl MemShelf {
    ghost use Rattle.std.specs.Prelude.{◌≡◌, None};
    ghost use Rattle.mrt_io.specs.{Memory.HasDistinctNames, Named.named};

    /// A shelf with these files, which fails the calls whose numbers, from 0, are in `fails`. Each `read`, `open` and `more` is
    /// one call.
    pub fn new(files: Vec<(Word, Vec<u8>)>, fails: Vec<u32>) -> MemShelf
        requires { HasDistinctNames (named files.items) }
        ensures { result ≡ record { files = named files.items; fails = fails.items; calls = 0; faults = 0; left = None } }
    {
        MemShelf {
            files,
            fails,
            calls: 0,
            faults: 0,
            opened: None,
        }
    }
}

/// The place of the first file of this name.
fn place_named(files: &[(Word, Vec<u8>)], name: &Word) -> Option<usize>
    ensures file { option_and_then (bytes_at (named files.now)) result ≡ file_of (named files.now) name.now }
    ensures within { IfSome result (λ place. place < length files.now) }
{
    for place in 0..files.len() {
        if files[place].0.bytes() == name.bytes() {
            return Some(place);
        }
    }
    None
}

/// The bytes of the first file of this name.
fn file_named<'a>(files: &'a [(Word, Vec<u8>)], name: &Word) -> Option<&'a [u8]>
    ensures { option_map (λ file. file.now) result ≡ file_of (named files.now) name.now }
{
    let place = place_named(files, name)?;
    Some(files[place].1.as_slice())
}

/// The first file of this name, open at its front; none where there is no such file or the call is to fail.
fn front_of(files: &[(Word, Vec<u8>)], name: &Word, failing: bool) -> Option<Open>
    ensures opened { IsOpenIn (named files.now) result }
    ensures left { left_of (named files.now) result ≡ (if failing then None else file_of (named files.now) name.now) }
{
    let place = place_named(files, name)?;
    if failing {
        return None;
    }
    Some(Open { place, taken: 0 })
}

/// What is left of the file that is open.
fn left_in(files: &[(Word, Vec<u8>)], opened: Open) -> &[u8]
    requires { IsOpenIn (named files.now) (Some opened) }
    ensures left { left_of (named files.now) (Some opened) ≡ Some result.now }
    ensures fits { opened.taken + length result.now < 2 ^ 64 }
{
    &files[opened.place].1[opened.taken..]
}

/// Copies the first bytes of what is left into the front of a piece, and answers how many.
pub fn copy_front(left: &[u8], piece: &mut [u8]) -> u32
    ensures length { length piece.new ≡ length piece.old }
    ensures count { result ≡ min (min (length piece.old) (length left.now)) 4294967295 }
    ensures bytes { take result piece.new ≡ take result left.now }
{
    let count = piece.len().min(left.len()).min(u32::MAX as usize);
    piece[..count].copy_from_slice(&left[..count]);
    count as u32
}

impl Shelf for MemShelf {
    ghost use Rattle.std.specs.Prelude.{◌≡◌, ◌↔◌, ◌⊎◌, ◌<◌, ◌≤◌, Some, IsTrue, IsErrOf, IfOk, IsSome, IfSome, OnOk, length, take};
    ghost use Rattle.std.specs.{Option.IsSomeAnd, Result.result_ok};
    ghost use Rattle.mrt_io.specs.Memory.{IsHealthyShelf, file_of, is_read_fault, more_of, shelf_after, shelf_opened, shelf_read_on};

    ghost held = { λ shelf. Some (file_of shelf.files) };

    ghost faults = { λ shelf. shelf.faults };

    ghost healthy = { IsHealthyShelf };

    ghost is_open = { λ shelf. IsSome shelf.left };

    ghost left = { λ shelf. shelf.left };

    ghost healthy_below = { λ _ healthy. healthy.1 };

    /// It looks at the names and at `fails` one after another, and copies the file once.
    fn read(&mut self, alloc: Global, name: &Word, limit: u32) -> Result<Vec<u8>, ShelfError>
        ensures bytes { IfOk result (λ file. file_of self.old.files name.now ≡ Some file.items) }
        ensures within { IfOk result (λ file. length file.items ≤ limit) }
        ensures too_long { IsErrOf result ShelfError.TooLong
            → IsSomeAnd (file_of self.old.files name.now) (λ file. limit < length file) }
        ensures failed { IsErrOf result ShelfError.Failed ↔ IsTrue (is_read_fault self.old name.now) }
        ensures after { self.new ≡ shelf_after self.old name.now }
        ensures count { self.old.faults ≤ self.new.faults }
        ensures no_fault { IsHealthyShelf self.old → IsSome (file_of self.old.files name.now)
            → self.new.faults ≡ self.old.faults }
        ensures stays_healthy { IsHealthyShelf self.old → IsSome (file_of self.old.files name.now)
            → IsHealthyShelf self.new }
        ensures still_left { self.new.left ≡ self.old.left }
    {
        let failing = is_failing(self.fails.as_slice(), self.calls);
        self.calls = self.calls.saturating_add(1);
        let Some(file) = file_named(self.files.as_slice(), name) else {
            self.faults = self.faults.saturating_add(1);
            return Err(ShelfError::Failed);
        };
        if failing {
            self.faults = self.faults.saturating_add(1);
            return Err(ShelfError::Failed);
        }
        if file.len() > limit as usize {
            return Err(ShelfError::TooLong);
        }
        Ok(Vec::from_slice(alloc, file)?)
    }

    /// It looks at the names and at `fails` one after another.
    fn open(&mut self, _: Global, name: &Word) -> Result<(), OpenError>
        ensures failed { IsErrOf result OpenError.Failed ↔ IsTrue (is_read_fault self.old name.now) }
        ensures memory { IsErrOf result OpenError.NoMemory → ⊥ }
        ensures left { OnOk result (self.new.left ≡ file_of self.old.files name.now) }
        ensures there { OnOk result (IsSome (file_of self.old.files name.now)) }
        ensures after { self.new ≡ shelf_opened self.old name.now }
        ensures count { self.old.faults ≤ self.new.faults }
        ensures no_fault { IsHealthyShelf self.old → IsSome (file_of self.old.files name.now)
            → self.new.faults ≡ self.old.faults }
        ensures stays_healthy { IsHealthyShelf self.old → IsSome (file_of self.old.files name.now)
            → IsHealthyShelf self.new }
    {
        let failing = is_failing(self.fails.as_slice(), self.calls);
        self.calls = self.calls.saturating_add(1);
        self.opened = front_of(self.files.as_slice(), name, failing);
        if self.opened.is_none() {
            self.faults = self.faults.saturating_add(1);
            return Err(OpenError::Failed);
        }
        Ok(())
    }

    /// It looks at `fails`, and copies the bytes that it takes once.
    fn more(&mut self, piece: &mut [u8]) -> Result<u32, ShelfFailed>
        requires open { IsSome self.old.left }
        requires some { 0 < length piece.old }
        ensures length { length piece.new ≡ length piece.old }
        ensures taken { result_ok result ≡ more_of self.old (length piece.old) }
        ensures bytes { IfOk result (λ count. IfSome self.old.left (λ left. take count piece.new ≡ take count left)) }
        ensures after { self.new ≡ shelf_read_on self.old (more_of self.old (length piece.old)) }
        ensures count { self.old.faults ≤ self.new.faults }
        ensures no_fault { IsHealthyShelf self.old → self.new.faults ≡ self.old.faults }
        ensures stays_healthy { IsHealthyShelf self.old → IsHealthyShelf self.new }
    {
        let failing = is_failing(self.fails.as_slice(), self.calls);
        self.calls = self.calls.saturating_add(1);
        match self.opened {
            Some(opened) if !failing => {
                let left = left_in(self.files.as_slice(), opened);
                let count = copy_front(left, piece);
                self.opened = Some(Open {
                    place: opened.place,
                    taken: opened.taken + count as usize,
                });
                Ok(count)
            }
            _ => {
                self.opened = None;
                self.faults = self.faults.saturating_add(1);
                Err(ShelfFailed)
            }
        }
    }
}
