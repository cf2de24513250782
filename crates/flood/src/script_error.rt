//! Why bytes are no script file.

ghost use Rattle.std.specs.Prelude.{◌≡◌};
ghost use Rattle.flood.specs.declared.script_error.FloodScriptError.TheVariants.{NoMemory as no_memory};

use std::alloc::{AllocError, AllocFailed};
use thiserror::Error;

/// Why a script file was not read.
#[derive(Clone, Copy, Debug, Error)]
pub enum FloodScriptError {
    /// The first line that is not as it should be is that with this number, from 1.
    #[error("line {line}")]
    Fault { line: u32 },
    #[error("no memory")]
    NoMemory,
}

impl From<AllocError> for FloodScriptError {
    ghost from_gives = { λ _ e. e ≡ no_memory };

    fn from(_: AllocError) -> FloodScriptError {
        FloodScriptError::NoMemory
    }
}

impl<T: Drop> From<AllocFailed<T>> for FloodScriptError {
    ghost from_gives = { λ _ e. e ≡ no_memory };

    fn from(_: AllocFailed<T>) -> FloodScriptError {
        FloodScriptError::NoMemory
    }
}
