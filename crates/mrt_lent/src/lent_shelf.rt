//! A shelf of files that are lent.

ghost use Rattle.std.specs.Prelude.{◌≡◌, None};
ghost use Rattle.std.specs.Option.{option_map};
ghost use Rattle.mrt_io.specs.Memory.{counted as fault_counted};
ghost use Rattle.mrt_lent.specs.Lent.{held_in};

use crate::mrt_file::MrtFile;
use mrt_io::{OpenError, Shelf, ShelfError, ShelfFailed, Word, copy_front};
use std::alloc::Global;

/// A shelf of files that are lent. It tells what it holds, and has no fault but at a name that it does not hold.
#[derive(Drop)]
pub struct LentShelf<'a> {
    pub files: &'a [MrtFile<'a>],
    pub faults: u64,
    pub opened: Option<&'a [u8]>,
}

impl<'a> LentShelf<'a> {
    /// A shelf of these files, without a fault yet, and none of them open.
    pub fn new(files: &'a [MrtFile<'a>]) -> LentShelf<'a>
        ensures files { result.files.now ≡ files.now }
        ensures faults { result.faults ≡ 0 }
        ensures opened { result.opened ≡ None }
    {
        LentShelf {
            files,
            faults: 0,
            opened: None,
        }
    }
}

/// The bytes of the first file of this name.
fn file_named<'a>(files: &'a [MrtFile<'a>], name: &Word) -> Option<&'a [u8]>
    ensures { option_map (λ file. file.now) result ≡ held_in files.now name.now }
{
    let file = files.iter().find(|file| file.name.data == name.bytes())?;
    Some(file.bytes.data)
}

/// One fault more; the count stays at its last value.
fn counted(faults: u64) -> u64
    ensures { result ≡ fault_counted faults }
{
    faults.saturating_add(1)
}

impl<'a> Shelf for LentShelf<'a> {
    ghost use Rattle.std.specs.Prelude.{◌<◌, Some, IsSome};
    ghost use Rattle.std.specs.Option.{option_map};
    ghost use Rattle.mrt_io.specs.Counts.{last_count};
    ghost use Rattle.mrt_lent.specs.Lent.{held_in};

    ghost held = { λ shelf. Some (held_in shelf.files.now) };

    ghost faults = { λ shelf. shelf.faults };

    ghost healthy = { λ shelf. shelf.faults < last_count };

    ghost is_open = { λ shelf. IsSome shelf.opened };

    ghost left = { λ shelf. option_map (λ bytes. bytes.now) shelf.opened };

    ghost healthy_below = { λ _ healthy. healthy };

    /// It looks at the names one after another, and copies the file once.
    fn read(&mut self, alloc: Global, name: &Word, limit: u32) -> Result<Vec<u8>, ShelfError> {
        let Some(file) = file_named(self.files, name) else {
            self.faults = counted(self.faults);
            return Err(ShelfError::Failed);
        };
        if file.len() > limit as usize {
            return Err(ShelfError::TooLong);
        }
        Ok(Vec::from_slice(alloc, file)?)
    }

    /// It looks at the names one after another, and copies nothing.
    fn open(&mut self, _: Global, name: &Word) -> Result<(), OpenError> {
        self.opened = file_named(self.files, name);
        if self.opened.is_none() {
            self.faults = counted(self.faults);
            return Err(OpenError::Failed);
        }
        Ok(())
    }

    /// It copies the bytes that it takes once.
    fn more(&mut self, piece: &mut [u8]) -> Result<u32, ShelfFailed> {
        let left = self.opened.unwrap();
        let count = copy_front(left, piece);
        self.opened = Some(&left[count as usize..]);
        Ok(count)
    }
}
