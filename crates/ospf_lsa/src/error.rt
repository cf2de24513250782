//! Why bytes are no database.

ghost use Rattle.std.specs.Prelude.{◌≡◌};
ghost use Rattle.ospf_lsa.specs.declared.error.LsaError.TheVariants.{NoMemory as no_memory};

use std::alloc::{AllocError, AllocFailed};
use thiserror::Error;

/// What is wrong with a record. Of several faults of a record the first one in this order is told.
#[derive(Clone, Copy, Debug)]
pub enum LsaKind {
    /// Fewer than 20 bytes are left, or fewer than its length field says.
    Truncated,
    /// Its length field is below 20.
    Length,
    /// Its checksum is not good.
    Checksum,
    /// Its sequence number is 0x80000000, which is reserved (RFC 2328, section 12.1.6).
    ReservedSequence,
    /// It is a router-LSA, and link state ID and advertising router differ.
    IdMismatch,
    /// It is a router-LSA whose body is not exactly its counted links, or a network-LSA whose length is below 24 or no
    /// multiple of 4.
    Body,
    /// It is a router-LSA, and a link to a router or to a transit network in it has metric 0.
    ZeroMetric,
}

/// Why a database was not read.
#[derive(Clone, Copy, Debug, Error)]
pub enum LsaError {
    /// The first record with a fault begins at byte `at`, from 0.
    #[error("{kind:?} at {at}")]
    Fault { at: u32, kind: LsaKind },
    #[error("no memory")]
    NoMemory,
}

impl From<AllocError> for LsaError {
    ghost from_gives = { λ _ e. e ≡ no_memory };

    fn from(_: AllocError) -> LsaError {
        LsaError::NoMemory
    }
}

impl<T: Drop> From<AllocFailed<T>> for LsaError {
    ghost from_gives = { λ _ e. e ≡ no_memory };

    fn from(_: AllocFailed<T>) -> LsaError {
        LsaError::NoMemory
    }
}
