//! The exits that the faults of the readers and of the devices come to.

ghost use Rattle.std.specs.Prelude.{◌≡◌};
ghost use Rattle.mrt_exit.specs.declared.exit.Exit.TheVariants.{NoMemory as no_memory};
ghost use Rattle.mrt_exit.specs.Faults.{area_exit, certificate_exit, conflict_exit, flood_script_exit, profile_exit, put_exit, record_exit, script_exit, too_large, update_exit};

use crate::exit::{DbKind, Exit, What};
use area_graph::AreaError;
use cert_format::CertFault;
use fabric_script::ScriptError;
use flood::{FloodScriptError, UpdateError};
use lsdb::Conflict;
use mrt_graph::NoMemory;
use mrt_io::PutError;
use mrt_island::ProfileError;
use ospf_lsa::LsaError;
use std::alloc::AllocFailed;

/// The most nodes that an area may have.
const AREA_NODES: u32 = 4096;

impl From<NoMemory> for Exit {
    ghost from_gives = { λ _ exit. exit ≡ no_memory };

    fn from(_: NoMemory) -> Exit {
        Exit::NoMemory
    }
}

impl<T: Drop> From<AllocFailed<T>> for Exit {
    ghost from_gives = { λ _ exit. exit ≡ no_memory };

    fn from(_: AllocFailed<T>) -> Exit {
        Exit::NoMemory
    }
}

impl From<LsaError> for Exit {
    ghost from_gives = { λ error exit. exit ≡ record_exit error };

    fn from(error: LsaError) -> Exit {
        match error {
            LsaError::Fault { at, kind } => Exit::BadDatabase {
                at,
                kind: DbKind::Lsa(kind),
            },
            LsaError::NoMemory => Exit::NoMemory,
        }
    }
}

impl From<Conflict> for Exit {
    ghost from_gives = { λ conflict exit. exit ≡ conflict_exit conflict };

    fn from(conflict: Conflict) -> Exit {
        Exit::BadDatabase {
            at: conflict.second,
            kind: DbKind::Conflict {
                first: conflict.first,
            },
        }
    }
}

impl From<ProfileError> for Exit {
    ghost from_gives = { λ error exit. exit ≡ profile_exit error };

    fn from(error: ProfileError) -> Exit {
        match error {
            ProfileError::Fault { line, kind } => Exit::BadProfile { line, kind },
            ProfileError::NoMemory => Exit::NoMemory,
        }
    }
}

impl From<CertFault> for Exit {
    ghost from_gives = { λ fault exit. exit ≡ certificate_exit fault };

    fn from(fault: CertFault) -> Exit {
        Exit::BadCertificate {
            at: fault.at,
            kind: fault.kind,
        }
    }
}

impl From<ScriptError> for Exit {
    ghost from_gives = { λ error exit. exit ≡ script_exit error };

    fn from(error: ScriptError) -> Exit {
        match error {
            ScriptError::Fault { line } => Exit::BadScript { line },
            ScriptError::NoMemory => Exit::NoMemory,
        }
    }
}

impl From<UpdateError> for Exit {
    ghost from_gives = { λ error exit. exit ≡ update_exit error };

    fn from(error: UpdateError) -> Exit {
        match error {
            UpdateError::Fault { at, kind } => Exit::BadUpdate { at, kind },
            UpdateError::NoMemory => Exit::NoMemory,
        }
    }
}

impl From<FloodScriptError> for Exit {
    ghost from_gives = { λ error exit. exit ≡ flood_script_exit error };

    fn from(error: FloodScriptError) -> Exit {
        match error {
            FloodScriptError::Fault { line } => Exit::BadScript { line },
            FloodScriptError::NoMemory => Exit::NoMemory,
        }
    }
}

impl From<AreaError> for Exit {
    ghost from_gives = { λ error exit. exit ≡ area_exit error };

    fn from(error: AreaError) -> Exit {
        match error {
            AreaError::TooLarge { nodes, arcs } => {
                too_large(AREA_NODES, What::AreaNodes, nodes, What::AreaArcs, arcs)
            }
            AreaError::NoMemory => Exit::NoMemory,
        }
    }
}

impl From<PutError> for Exit {
    ghost from_gives = { λ error exit. exit ≡ put_exit error };

    fn from(error: PutError) -> Exit {
        match error {
            PutError::Failed { taken } => Exit::WriteFault { taken },
        }
    }
}

/// One count is too large, or another where the first is at most this many.
fn too_large(most: u32, what: What, count: u32, other: What, others: u32) -> Exit
    ensures { result ≡ too_large most what count other others }
{
    if count > most {
        return Exit::TooLarge { what, size: count };
    }
    Exit::TooLarge {
        what: other,
        size: others,
    }
}
