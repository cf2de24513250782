ghost use Rattle.std.specs.Prelude.{◌≡◌};
ghost use Rattle.mrt_island.specs.declared.island_error.IslandError.TheVariants.{NoMemory as no_memory};

use mrt_graph::NoMemory;
use std::alloc::{AllocError, AllocFailed};

/// Why a router has no island here: it is not in the area, or it does not support the profile; or there was no memory.
#[derive(Clone, Copy, Debug)]
pub enum IslandError {
    NotThere,
    Unsupported,
    NoMemory,
}

impl From<NoMemory> for IslandError {
    ghost from_gives = { λ _ error. error ≡ no_memory };

    fn from(_: NoMemory) -> IslandError {
        IslandError::NoMemory
    }
}

impl From<AllocError> for IslandError {
    ghost from_gives = { λ _ error. error ≡ no_memory };

    fn from(_: AllocError) -> IslandError {
        IslandError::NoMemory
    }
}

impl<T: Drop> From<AllocFailed<T>> for IslandError {
    ghost from_gives = { λ _ error. error ≡ no_memory };

    fn from(_: AllocFailed<T>) -> IslandError {
        IslandError::NoMemory
    }
}
