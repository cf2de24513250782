ghost use Rattle.std.specs.Prelude.{
  ◌≡◌,
  ◌↔◌,
  ◌⊎◌,
  ◌-◌,
  ◌<◌,
  ◌≤◌,
  ℕ,
  List,
  [],
  Option,
  Some,
  length,
  vec_len,
  take,
  IsErrOf,
  IsSome,
  IfSome,
  IfOk,
  OnOk,
  OnErr,
};
ghost use Rattle.mrt_io.specs.{Counts.Rose, Counts.last_count, Left.IsLeftOf, Left.IsTakenOff, Writing.Gained};
ghost use Rattle.mrt_io.specs.Holding.{Files, IsFileOf, IsTooLong, IsKnownTooLong, IsKnownMissing, IsKnownThere};

use crate::word::Word;
use mrt_graph::NoMemory;
use std::alloc::{AllocError, AllocFailed, Global};

/// Why a read gave no bytes: the shelf failed, the file has more bytes than the limit, or there was no memory.
#[derive(Clone, Copy)]
pub enum ShelfError {
    Failed,
    TooLong,
    NoMemory,
}

/// Why a name is not open: the shelf failed, or there was no memory.
#[derive(Clone, Copy)]
pub enum OpenError {
    Failed,
    NoMemory,
}

/// The error of a shelf that could not read on in what was open.
#[derive(Clone, Copy)]
pub struct ShelfFailed;

/// The error of a sink that took nothing.
#[derive(Clone, Copy)]
pub struct PutFailed;

/// The error of [`put_all`](crate::put_all): how many bytes the sink had taken when it failed.
#[derive(Clone, Copy)]
pub enum PutError {
    Failed { taken: u64 },
}

/// What files are read from: a whole file by one call, or the open file in pieces.
///
/// Its count of faults is a number of 64 bits that never falls and stays at its last value.
pub trait Shelf {
    // What is held: the bytes of each name that is held. None where it is not told.
    ghost held: { Self → Option Files };

    ghost faults: { Self → ℕ };

    // A healthy shelf reads and opens each name that it holds without a fault.
    ghost healthy: { Self → Type 0 };

    // Whether a name is open.
    ghost is_open: { Self → Type 0 };

    // What is left: the bytes of the open name that were not yet read. None where they are not told.
    ghost left: { Self → Option (List ℕ) };

    /// The bytes of the file of this name, which has at most `limit`.
    fn read(&mut self, alloc: Global, name: &Word, limit: u32) -> Result<Vec<u8>, ShelfError>
        ensures bytes { IfOk result (λ file. IsFileOf (held self.old) name.now file.items) }
        ensures within { IfOk result (λ file. vec_len file ≤ limit) }

        // `TooLong` comes only where the file has more bytes than the limit, and just there where that is told, but for
        // want of memory and for a fault.
        ensures too_long { IsErrOf result ShelfError.TooLong → IsTooLong (held self.old) name.now limit }
        ensures known_too_long { IsKnownTooLong (held self.old) name.now limit
            → IsErrOf result ShelfError.TooLong ⊎ IsErrOf result ShelfError.NoMemory
            ⊎ Rose (faults self.old) (faults self.new) }

        ensures failed { IsErrOf result ShelfError.Failed → Rose (faults self.old) (faults self.new) }
        ensures missing { IsKnownMissing (held self.old) name.now → Rose (faults self.old) (faults self.new) }

        ensures count { faults self.old ≤ faults self.new }
        ensures unchanged { held self.new ≡ held self.old }
        ensures no_fault { healthy self.old → IsKnownThere (held self.old) name.now → faults self.new ≡ faults self.old }
        ensures stays_healthy { healthy self.old → IsKnownThere (held self.old) name.now → healthy self.new }

        ensures still_open { is_open self.new ↔ is_open self.old }
        ensures still_left { left self.new ≡ left self.old };

    /// Opens the file of this name at its front. Whatever was open before is not open any more.
    fn open(&mut self, alloc: Global, name: &Word) -> Result<(), OpenError>
        // A name is open just where it is `Ok`. Where it is told what is held, the file is held and all of its bytes are left.
        ensures open { OnOk result (is_open self.new) }
        ensures closed { OnErr result (is_open self.new → ⊥) }
        ensures left { OnOk result (IsLeftOf (held self.old) name.now (left self.new)) }

        ensures failed { IsErrOf result OpenError.Failed → Rose (faults self.old) (faults self.new) }

        ensures count { faults self.old ≤ faults self.new }
        ensures unchanged { held self.new ≡ held self.old }
        ensures no_fault { healthy self.old → IsKnownThere (held self.old) name.now → faults self.new ≡ faults self.old }
        ensures stays_healthy { healthy self.old → IsKnownThere (held self.old) name.now → healthy self.new };

    /// Reads the next bytes of the open file into the front of a piece, and answers how many: none where none is left.
    fn more(&mut self, piece: &mut [u8]) -> Result<u32, ShelfFailed>
        requires open { is_open self.old }
        requires some { 0 < length piece.old }
        ensures length { length piece.new ≡ length piece.old }
        ensures within { IfOk result (λ count. count ≤ length piece.old) }
        ensures bytes { IfOk result (λ count. IsTakenOff (left self.old) (take count piece.new) (left self.new)) }
        ensures end { IfOk result (λ count. IfSome (left self.old) (λ bytes. (count ≡ 0) ↔ (bytes ≡ []))) }

        ensures still_open { OnOk result (is_open self.new) }
        ensures closed { OnErr result (is_open self.new → ⊥) }

        ensures failed { OnErr result (Rose (faults self.old) (faults self.new)) }

        ensures count { faults self.old ≤ faults self.new }
        ensures unchanged { held self.new ≡ held self.old }
        ensures no_fault { healthy self.old → faults self.new ≡ faults self.old }
        ensures stays_healthy { healthy self.old → healthy self.new };

    // A count at its last value could not rise any more, so no shelf is healthy there.
    ghost healthy_below: { (shelf : Self) → healthy shelf → faults shelf < last_count };
}

/// What bytes are written to.
///
/// Its count of faults is a number of 64 bits that never falls and stays at its last value.
pub trait Sink {
    // The bytes written so far. None where they are not told.
    ghost written: { Self → Option (List ℕ) };

    ghost faults: { Self → ℕ };

    // A sink that is healthy for a number of bytes takes that many without a fault.
    ghost healthy_for: { Self → ℕ → Type 0 };

    /// Writes the first bytes of a piece, and answers how many: at least one where the piece is not empty.
    fn put(&mut self, piece: &[u8]) -> Result<u32, PutFailed>
        ensures gained { IfOk result (λ taken. Gained (written self.old) (take taken piece.now) (written self.new)) }
        ensures within { IfOk result (λ taken. taken ≤ length piece.now) }
        ensures some { IfOk result (λ taken. 0 < length piece.now → 1 ≤ taken) }

        ensures failed { OnErr result (Rose (faults self.old) (faults self.new)) }
        ensures nothing { OnErr result (written self.new ≡ written self.old) }

        ensures count { faults self.old ≤ faults self.new }
        ensures no_fault { (n : ℕ) → healthy_for self.old n → 1 ≤ n → 0 < length piece.now
            → faults self.new ≡ faults self.old }
        ensures stays_healthy { (n : ℕ) → healthy_for self.old n → 1 ≤ n → 0 < length piece.now
            → IfOk result (λ taken. healthy_for self.new (n - taken)) };

    // A count at its last value could not rise any more, so no sink is healthy there.
    ghost healthy_below: { (sink : Self) (n : ℕ) → healthy_for sink n → faults sink < last_count };
}

impl From<OpenError> for ShelfError {
    fn from(error: OpenError) -> ShelfError {
        match error {
            OpenError::Failed => ShelfError::Failed,
            OpenError::NoMemory => ShelfError::NoMemory,
        }
    }
}

impl From<NoMemory> for ShelfError {
    ghost use Rattle.mrt_io.specs.declared.device.ShelfError.TheVariants.{NoMemory as no_memory};

    ghost from_gives = { λ _ error. error ≡ no_memory };

    fn from(_: NoMemory) -> ShelfError {
        ShelfError::NoMemory
    }
}

impl From<AllocError> for ShelfError {
    ghost use Rattle.mrt_io.specs.declared.device.ShelfError.TheVariants.{NoMemory as no_memory};

    ghost from_gives = { λ _ error. error ≡ no_memory };

    fn from(_: AllocError) -> ShelfError {
        ShelfError::NoMemory
    }
}
