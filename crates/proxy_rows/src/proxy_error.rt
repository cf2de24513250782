//! Why there are no proxy rows.

ghost use Rattle.std.specs.Prelude.{◌≡◌};
ghost use Rattle.proxy_rows.specs.declared.proxy_error.ProxyError.TheVariants.{NoMemory as no_memory};

use mrt_graph::NoMemory;
use std::alloc::{AllocError, AllocFailed};

/// Why there are no proxy rows: the certificate gives the two routers no common block, or there was no memory.
#[derive(Clone, Copy)]
pub enum ProxyError {
    NoCommonBlock,
    NoMemory,
}

impl From<NoMemory> for ProxyError {
    ghost from_gives = { λ _ error. error ≡ no_memory };

    fn from(_: NoMemory) -> ProxyError {
        ProxyError::NoMemory
    }
}

impl From<AllocError> for ProxyError {
    ghost from_gives = { λ _ error. error ≡ no_memory };

    fn from(_: AllocError) -> ProxyError {
        ProxyError::NoMemory
    }
}

impl<T: Drop> From<AllocFailed<T>> for ProxyError {
    ghost from_gives = { λ _ error. error ≡ no_memory };

    fn from(_: AllocFailed<T>) -> ProxyError {
        ProxyError::NoMemory
    }
}
