//! Why bytes are no Link State Update packets.

ghost use Rattle.std.specs.Prelude.{◌≡◌};
ghost use Rattle.flood.specs.declared.error.UpdateError.TheVariants.{NoMemory as no_memory};

use ospf_lsa::LsaKind;
use std::alloc::{AllocError, AllocFailed};
use thiserror::Error;

/// What is wrong with a packet. Of several faults of a packet the first one in this order is told.
#[derive(Clone, Copy, Debug)]
pub enum UpdateKind {
    /// Fewer than 28 bytes are left, or fewer than its length field says.
    Truncated,
    /// Its version is not 2, or its type not 4.
    Header,
    /// Its length field is below 28.
    Length,
    /// The bytes after its count are no LSAs: this is the first fault of the first record that has one.
    Lsa(LsaKind),
    /// Its count is not the number of its LSAs.
    Count,
}

/// Why a file of packets was not read.
#[derive(Clone, Copy, Debug, Error)]
pub enum UpdateError {
    /// The first faulty packet has this fault. The faulty record of an LSA's fault begins at byte `at` of the file, from
    /// 0; of any other fault the packet does.
    #[error("{kind:?} at {at}")]
    Fault { at: u32, kind: UpdateKind },
    #[error("no memory")]
    NoMemory,
}

impl From<AllocError> for UpdateError {
    ghost from_gives = { λ _ e. e ≡ no_memory };

    fn from(_: AllocError) -> UpdateError {
        UpdateError::NoMemory
    }
}

impl<T: Drop> From<AllocFailed<T>> for UpdateError {
    ghost from_gives = { λ _ e. e ≡ no_memory };

    fn from(_: AllocFailed<T>) -> UpdateError {
        UpdateError::NoMemory
    }
}
