ghost use Rattle.std.specs.Prelude.{◌≡◌};
ghost use Rattle.area_graph.specs.declared.area_error.AreaError.TheVariants.{NoMemory as no_memory};

use mrt_graph::NoMemory;
use std::alloc::{AllocError, AllocFailed};

/// Why no area was made: there are more nodes or arcs than one may have, told by both counts, or there was no memory.
/// A count that no number of 32 bits can tell is told as 4,294,967,295.
#[derive(Clone, Copy, Debug)]
pub enum AreaError {
    TooLarge { nodes: u32, arcs: u32 },
    NoMemory,
}

impl From<NoMemory> for AreaError {
    ghost from_gives = { λ _ error. error ≡ no_memory };

    fn from(_: NoMemory) -> AreaError {
        AreaError::NoMemory
    }
}

impl From<AllocError> for AreaError {
    ghost from_gives = { λ _ error. error ≡ no_memory };

    fn from(_: AllocError) -> AreaError {
        AreaError::NoMemory
    }
}

impl<T: Drop> From<AllocFailed<T>> for AreaError {
    ghost from_gives = { λ _ error. error ≡ no_memory };

    fn from(_: AllocFailed<T>) -> AreaError {
        AreaError::NoMemory
    }
}
