ghost use Rattle.std.specs.Prelude.{◌≡◌, ◌≢◌, ◌≤◌, ◌<◌, ◌^◌, IfErr, IfOk, IfSome, IsErrOf, length, vec_len};
ghost use Rattle.std.specs.Io.KnownBytes.{ReadConsumes};
ghost use Rattle.mrt_io.specs.steps.Left.{IsReadOn};
ghost use Rattle.mrt_io.specs.Memory.{counted as fault_counted};

use crate::device::{OpenError, Shelf, ShelfError, ShelfFailed};
use crate::piece::zeros;
use crate::word::Word;
use std::alloc::Global;
use std::io::{ErrorKind, Read};
use std::rt::Files;
use std::{fs, io, str};

/// How many bytes one call of the system asks for at most.
const PIECE: usize = 65536;

/// The machine's files. A name is a path, and what it holds is not told, since no contract of the library says which bytes
/// the file of a path has; it counts as never healthy. What is read of a file that was opened is what that file tells of
/// itself (`read_all`, `read_some`); that of the machine tells nothing, so tests say what is read.
#[derive(Drop)]
pub struct FileShelf<'a, R: Files> {
    rt: &'a R,
    faults: u64,
    opened: Option<R::File>,
}

impl<'a, R: Files> FileShelf<'a, R> {
    /// The machine's files, without a fault yet, and none of them open.
    pub fn new(rt: &'a R) -> FileShelf<'a, R> {
        FileShelf {
            rt,
            faults: 0,
            opened: None,
        }
    }
}

impl<'a, R: Files> Shelf for FileShelf<'a, R> {
    ghost use Rattle.std.specs.Prelude.{None, IsSome};

    ghost held = { λ _. None };

    ghost faults = { λ shelf. shelf.faults };

    ghost healthy = { λ _. ⊥ };

    ghost is_open = { λ shelf. IsSome shelf.opened };

    ghost left = { λ _. None };

    ghost healthy_below = { λ _ never. absurd never };

    /// It reads at most one byte more than the limit, in pieces of 65,536 bytes at most.
    fn read(&mut self, alloc: Global, name: &Word, limit: u32) -> Result<Vec<u8>, ShelfError> {
        let file = read_file(self.rt, alloc, name, limit);
        if let Err(ShelfError::Failed) = file {
            self.faults = counted(self.faults);
        }
        file
    }

    /// It takes no memory.
    fn open(&mut self, _: Global, name: &Word) -> Result<(), OpenError> {
        let file = open_file(self.rt, name);
        if let Err(OpenError::Failed) = file {
            self.faults = counted(self.faults);
        }
        match file {
            Ok(file) => {
                self.opened = Some(file);
                Ok(())
            }
            Err(error) => {
                self.opened = None;
                Err(error)
            }
        }
    }

    /// It reads once, and again only where that was interrupted.
    fn more(&mut self, piece: &mut [u8]) -> Result<u32, ShelfFailed> {
        let wanted = piece.len().min(u32::MAX as usize);
        let count = match &mut self.opened {
            Some(file) => read_some(file, &mut piece[..wanted]),
            None => Err(ShelfFailed),
        };
        if count.is_err() {
            self.opened = None;
            self.faults = counted(self.faults);
        }
        count
    }
}

/// One fault more; the count stays at its last value.
fn counted(faults: u64) -> u64
    ensures { result ≡ fault_counted faults }
{
    faults.saturating_add(1)
}

/// The file of this name, at its front.
fn open_file<R: Files>(rt: &R, name: &Word) -> Result<R::File, OpenError> {
    let path = str::from_utf8(name.bytes()).map_err(|_| OpenError::Failed)?;
    fs::open(rt, path).map_err(|error| {
        if error.kind() == ErrorKind::OutOfMemory {
            OpenError::NoMemory
        } else {
            OpenError::Failed
        }
    })
}

/// Reads the next bytes of a file into the front of a piece, and answers how many. Where the file tells what it has left, these
/// are its first bytes, and none only where none is left.
fn read_some<F: Read>(file: &mut F, piece: &mut [u8]) -> Result<u32, ShelfFailed>
    requires { length piece.old < 2 ^ 32 }
    ensures length { length piece.new ≡ length piece.old }
    ensures within { IfOk result (λ count. count ≤ length piece.old) }
    ensures bytes { ReadConsumes (F.remaining file.old) (F.remaining file.new) result piece.new }
{
    for _ in 0..u64::MAX {
        match file.read(piece) {
            Ok(count) => return Ok(count as u32),
            Err(error) if error.kind() == ErrorKind::Interrupted => {}
            Err(_) => return Err(ShelfFailed),
        }
    }
    Err(ShelfFailed)
}

/// The bytes of the file of this name, which has at most `limit`.
fn read_file<R: Files>(
    rt: &R,
    alloc: Global,
    name: &Word,
    limit: u32,
) -> Result<Vec<u8>, ShelfError>
    ensures { IfOk result (λ file. vec_len file ≤ limit) }
{
    let mut file = open_file(rt, name)?;
    read_all(&mut file, alloc, limit)
}

/// All bytes that a file has left, of which at most one more than the limit are read. Where the file tells what it has left,
/// these are all of that, and there are more than the limit where it is said to be too long.
fn read_all<F: Read>(file: &mut F, alloc: Global, limit: u32) -> Result<Vec<u8>, ShelfError>
    ensures within { IfOk result (λ bytes. vec_len bytes ≤ limit) }
    ensures all { IfOk result (λ bytes. IfSome (F.remaining file.old) (λ left. bytes.items ≡ left)) }
    ensures too_long { IsErrOf result ShelfError.TooLong
        → IfSome (F.remaining file.old) (λ left. limit < length left) }
{
    let mut bytes = Vec::new(alloc);
    let mut piece = zeros(alloc, PIECE)?;
    for _ in 0..u64::MAX {
        let wanted = (limit as usize + 1 - bytes.len()).min(PIECE);
        if !read_on(file, &mut bytes, &mut piece[..wanted])? {
            return Ok(bytes);
        }
        if bytes.len() > limit as usize {
            return Err(ShelfError::TooLong);
        }
    }
    Err(ShelfError::Failed)
}

/// Reads into a piece, puts what was read at the end of the bytes, and answers whether more may be left.
fn read_on<F: Read>(file: &mut F, bytes: &mut Vec<u8>, piece: &mut [u8]) -> Result<bool, ShelfError>
    requires some { 0 < length piece.old }
    ensures length { length piece.new ≡ length piece.old }
    ensures on { IfOk result
        (IsReadOn (F.remaining file.old) (F.remaining file.new) (length piece.old) bytes.old.items bytes.new.items) }
    ensures error { IfErr result (λ error. error ≢ ShelfError.TooLong) }
{
    match file.read(piece) {
        Ok(0) => Ok(false),
        Ok(count) => {
            bytes.extend_from_slice(&piece[..count])?;
            Ok(true)
        }
        Err(error) if error.kind() == ErrorKind::Interrupted => Ok(true),
        Err(error) => Err(cause_of(&error)),
    }
}

/// Want of memory is no fault of the files.
fn cause_of(error: &io::Error) -> ShelfError
    ensures { result ≢ ShelfError.TooLong }
{
    if error.kind() == ErrorKind::OutOfMemory {
        ShelfError::NoMemory
    } else {
        ShelfError::Failed
    }
}
