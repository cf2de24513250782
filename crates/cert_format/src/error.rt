//! Why bytes are no certificate file.

ghost use Rattle.std.specs.Prelude.{◌≡◌};
ghost use Rattle.cert_format.specs.declared.error.CertError.TheVariants.{NoMemory as no_memory};

use mrt_graph::NoMemory;
use std::alloc::AllocError;
use thiserror::Error;

/// What is wrong with a field.
#[derive(Clone, Copy, Debug)]
pub enum CertKind {
    /// These are not the magic bytes, or not a version that is known.
    Magic,
    /// Fewer bytes are left than the field has.
    Truncated,
    /// The number is out of its range.
    Range,
    /// The number is no tag: tags are 0 to 6 in version 1, and 0 to 5 in version 2, where 6, of a Carried row, is refused
    /// too.
    Tag,
    /// Bytes stand after the last row.
    Trailing,
    /// The chain of heads of a node does not come to the least node that is its own head, or there is no such node. It
    /// comes in version 2 alone.
    Heads,
}

/// The first field that is not allowed begins at byte `at`, from 0.
#[derive(Clone, Copy, Debug)]
pub struct CertFault {
    pub at: u32,
    pub kind: CertKind,
}

/// Why a certificate file was not read.
#[derive(Clone, Copy, Debug, Error)]
pub enum CertError {
    /// The first field that is not allowed begins at byte `at`, from 0.
    #[error("{kind:?} at {at}")]
    Fault { at: u32, kind: CertKind },
    #[error("no memory")]
    NoMemory,
}

impl From<CertFault> for CertError {
    ghost use Rattle.cert_format.specs.declared.error.CertError.TheVariants.{Fault};

    ghost from_gives = { λ fault error. error ≡ Fault fault.at fault.kind };

    fn from(fault: CertFault) -> CertError {
        CertError::Fault {
            at: fault.at,
            kind: fault.kind,
        }
    }
}

impl From<NoMemory> for CertError {
    ghost from_gives = { λ _ e. e ≡ no_memory };

    fn from(_: NoMemory) -> CertError {
        CertError::NoMemory
    }
}

impl From<AllocError> for CertError {
    ghost from_gives = { λ _ e. e ≡ no_memory };

    fn from(_: AllocError) -> CertError {
        CertError::NoMemory
    }
}
