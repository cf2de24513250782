//! Reading a certificate file, in pieces.

ghost use Rattle.std.specs.Prelude.{◌≡◌, ◌≤◌, ◌<◌, ◌-◌, ◌^◌, ◌++◌, ℕ, List, [], ◌∷◌, Ok, IfOk, IfErr, IfSome, OnOk, IsSome, length};
ghost use Rattle.mrt_io.specs.Left.{IsLeftOf};
ghost use Rattle.cert_format.specs.Stream.{fed};
ghost use Rattle.mrt_args.specs.Files.{IsReadAs};
ghost use Rattle.mrt_args.specs.Work.{IsCertRead};
ghost use Rattle.mrt_args.specs.steps.Pieces.{IsFedOn};
ghost use Rattle.mrt_args.specs.steps.Reading.{IsStopped};
ghost use Rattle.mrt_args.specs.Reading.{ReadsFiles};

use crate::named_file::NamedFile;
use cert_format::{CertError, CertFault, CertReader, any_pieces};
use mrt_exit::Exit;
use mrt_graph::CertFile;
use mrt_io::{OpenError, Shelf, ShelfFailed, zeros};
use std::alloc::Global;

/// How many bytes are asked for at a time.
const PIECE: usize = 65536;

/// The certificate that a file spells, or the first fault of the file.
///
/// The file is read in pieces of 65,536 bytes, also after a fault, to its end or to one byte more than its limit.
/// Each turn takes at least one byte or is the last.
pub(crate) fn read_certificate_file<F: Shelf>(
    alloc: Global,
    shelf: &mut F,
    file: &NamedFile<'_>,
) -> Result<Result<CertFile, CertFault>, Exit>
    requires { file.now.limit < 2 ^ 32 - 1 }
    ensures { ReadsFiles F.held F.faults F.healthy shelf.old shelf.new (file.now ∷ [])
        (λ held certificate. (bytes : List ℕ) × IsReadAs held file.now bytes × IsCertRead bytes certificate) result }
{
    open_file(alloc, shelf, file)?;
    let reader = read_to_end(alloc, shelf, file)?;
    Ok(end_of(reader))
}

/// Opens a file.
fn open_file<F: Shelf>(alloc: Global, shelf: &mut F, file: &NamedFile<'_>) -> Result<(), Exit>
    ensures open { OnOk result (F.is_open shelf.new) }
    ensures left { OnOk result (IsLeftOf (F.held shelf.old) file.now.name (F.left shelf.new)) }
    ensures opens { ReadsFiles F.held F.faults F.healthy shelf.old shelf.new (file.now ∷ []) (λ held _. Unit {0}) result }
{
    match shelf.open(alloc, file.name) {
        Ok(()) => Ok(()),
        Err(OpenError::Failed) => Err(Exit::ReadFault { word: file.place }),
        Err(OpenError::NoMemory) => Err(Exit::NoMemory),
    }
}

/// Feeds what is left of the open file to a reader.
fn read_to_end<F: Shelf>(
    alloc: Global,
    shelf: &mut F,
    file: &NamedFile<'_>,
) -> Result<CertReader, Exit>
    requires limit { file.now.limit < 2 ^ 32 - 1 }
    requires open { F.is_open shelf.old }
    requires left { IsLeftOf (F.held shelf.old) file.now.name (F.left shelf.old) }
    ensures { ReadsFiles F.held F.faults F.healthy shelf.old shelf.new (file.now ∷ [])
        (λ held reader. (bytes : List ℕ) × IsReadAs held file.now bytes × (reader ≡ fed (Ok []) bytes)) result }
{
    let mut piece = zeros(alloc, PIECE)?;
    read_in_pieces(alloc, shelf, file, piece.as_mut_slice())
}

/// Feeds what is left of the open file to a reader, as many bytes at a time as there are in the piece.
fn read_in_pieces<F: Shelf>(
    alloc: Global,
    shelf: &mut F,
    file: &NamedFile<'_>,
    piece: &mut [u8],
) -> Result<CertReader, Exit>
    requires limit { file.now.limit < 2 ^ 32 - 1 }
    requires piece { length piece.old ≡ 65536 }
    requires open { F.is_open shelf.old }
    requires left { IsLeftOf (F.held shelf.old) file.now.name (F.left shelf.old) }
    ensures { ReadsFiles F.held F.faults F.healthy shelf.old shelf.new (file.now ∷ [])
        (λ held reader. (bytes : List ℕ) × IsReadAs held file.now bytes × (reader ≡ fed (Ok []) bytes)) result }
{
    any_pieces();
    let mut reader = CertReader::new(alloc);
    let mut room = file.limit + 1;
    while room > 0 {
        let wanted = PIECE.min(room as usize);
        let count = read_piece(shelf, file, &mut reader, &mut piece[..wanted])?;
        if count == 0 {
            return Ok(reader);
        }
        room -= count;
    }
    Err(Exit::TooLarge {
        what: file.what,
        size: file.limit + 1,
    })
}

/// Feeds the next bytes of the open file to a reader, at most as many as there are in the piece, and answers how many.
fn read_piece<F: Shelf>(
    shelf: &mut F,
    file: &NamedFile<'_>,
    reader: &mut CertReader,
    piece: &mut [u8],
) -> Result<u32, Exit>
    requires open { F.is_open shelf.old }
    requires some { 0 < length piece.old }
    ensures within { IfOk result (λ count. count ≤ length piece.old) }
    ensures fed { IfOk result (IsFedOn (F.left shelf.old) reader.old (F.left shelf.new) reader.new) }
    ensures end { IfOk result (λ count. count ≡ 0 → IfSome (F.left shelf.old) (λ left. left ≡ [])) }
    ensures still_open { OnOk result (F.is_open shelf.new) }
    ensures stopped { IfErr result (IsStopped file.now (F.faults shelf.old) (F.faults shelf.new)) }
    ensures count { F.faults shelf.old ≤ F.faults shelf.new }
    ensures unchanged { F.held shelf.new ≡ F.held shelf.old }
    ensures no_fault { F.healthy shelf.old → IsSome (F.left shelf.old) → F.faults shelf.new ≡ F.faults shelf.old }
    ensures stays_healthy { F.healthy shelf.old → IsSome (F.left shelf.old) → F.healthy shelf.new }
{
    match shelf.more(piece) {
        Ok(count) => {
            feed(reader, &piece[..count as usize])?;
            Ok(count)
        }
        Err(ShelfFailed) => Err(Exit::ReadFault { word: file.place }),
    }
}

/// Feeds a piece to a reader. A fault stands for later, since whether the file is within its limit is said first.
fn feed(reader: &mut CertReader, piece: &[u8]) -> Result<(), Exit>
    ensures fed { (seen : List ℕ) → reader.old ≡ fed (Ok []) seen
        → OnOk result (reader.new ≡ fed (Ok []) (seen ++ piece.now)) }
    ensures memory { IfErr result (λ exit. exit ≡ Exit.NoMemory) }
{
    any_pieces();
    match reader.feed(piece) {
        Ok(()) => Ok(()),
        Err(CertError::Fault { .. }) => Ok(()),
        Err(CertError::NoMemory) => Err(Exit::NoMemory),
    }
}

/// The certificate that a stream spells, which ends here, or its first fault.
fn end_of(reader: CertReader) -> Result<CertFile, CertFault>
    ensures { (bytes : List ℕ) → reader ≡ fed (Ok []) bytes → IsCertRead bytes result }
{
    any_pieces();
    reader.finish()
}
