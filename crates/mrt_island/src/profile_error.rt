//! Why bytes are no profile file.

ghost use Rattle.std.specs.Prelude.{◌≡◌};
ghost use Rattle.mrt_island.specs.declared.profile_error.ProfileError.TheVariants.{NoMemory as no_memory};

use std::alloc::{AllocError, AllocFailed};
use thiserror::Error;

/// What is wrong with a line. Of several faults of a line the first one in this order is told.
#[derive(Clone, Copy, Debug)]
pub enum ProfileKind {
    /// It has a byte other than a tab and 32 to 126.
    Bytes,
    /// Its first word is none that is known, or it has too few or too many words.
    Words,
    /// A word that should be an address is none.
    Address,
    /// A word that should be a number from 0 to 255 is none.
    Number,
    /// An earlier line has the same first word and router, and for `ineligible` the same link data.
    Repeated,
}

/// Why a profile file was not read.
#[derive(Clone, Copy, Debug, Error)]
pub enum ProfileError {
    /// The first line with a fault is that with this number, from 1.
    #[error("{kind:?} in line {line}")]
    Fault { line: u32, kind: ProfileKind },
    #[error("no memory")]
    NoMemory,
}

impl From<AllocError> for ProfileError {
    ghost from_gives = { λ _ e. e ≡ no_memory };

    fn from(_: AllocError) -> ProfileError {
        ProfileError::NoMemory
    }
}

impl<T: Drop> From<AllocFailed<T>> for ProfileError {
    ghost from_gives = { λ _ e. e ≡ no_memory };

    fn from(_: AllocFailed<T>) -> ProfileError {
        ProfileError::NoMemory
    }
}
