//! Why there are no next hops.

ghost use Rattle.std.specs.Prelude.{◌≡◌};
ghost use Rattle.next_hops.specs.{Failures.area_failure, Failures.island_failure, Failures.lsa_failure, declared.failure.Failure.TheVariants.Conflict as conflict, declared.failure.Failure.TheVariants.NoMemory as no_memory};

use area_graph::AreaError;
use lsdb::Conflict;
use mrt_graph::NoMemory;
use mrt_island::IslandError;
use ospf_lsa::{LsaError, LsaKind};
use thiserror::Error;

/// Why a router has no next hops for another one.
#[derive(Clone, Copy, Debug, Error)]
pub enum Failure {
    #[error("no database: {kind:?} at {at}")]
    Lsa { at: u32, kind: LsaKind },
    #[error("two newest instances differ")]
    Conflict(Conflict),
    #[error("the area is too large")]
    TooLarge { nodes: u32, arcs: u32 },
    #[error("no island of the router")]
    NoIsland,
    #[error("the destination is not in the router's island")]
    NotThere,
    #[error("no memory")]
    NoMemory,
}

impl From<LsaError> for Failure {
    ghost from_gives = { λ error failure. failure ≡ lsa_failure error };

    fn from(error: LsaError) -> Failure {
        match error {
            LsaError::Fault { at, kind } => Failure::Lsa { at, kind },
            LsaError::NoMemory => Failure::NoMemory,
        }
    }
}

impl From<Conflict> for Failure {
    ghost from_gives = { λ error failure. failure ≡ conflict error };

    fn from(error: Conflict) -> Failure {
        Failure::Conflict(error)
    }
}

impl From<AreaError> for Failure {
    ghost from_gives = { λ error failure. failure ≡ area_failure error };

    fn from(error: AreaError) -> Failure {
        match error {
            AreaError::TooLarge { nodes, arcs } => Failure::TooLarge { nodes, arcs },
            AreaError::NoMemory => Failure::NoMemory,
        }
    }
}

impl From<IslandError> for Failure {
    ghost from_gives = { λ error failure. failure ≡ island_failure error };

    fn from(error: IslandError) -> Failure {
        match error {
            IslandError::NotThere | IslandError::Unsupported => Failure::NoIsland,
            IslandError::NoMemory => Failure::NoMemory,
        }
    }
}

impl From<NoMemory> for Failure {
    ghost from_gives = { λ _ failure. failure ≡ no_memory };

    fn from(_: NoMemory) -> Failure {
        Failure::NoMemory
    }
}
