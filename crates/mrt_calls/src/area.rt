//! An area as C hands it in.

ghost use Rattle.std.specs.Prelude.{◌≤◌, ◌<◌, ◌-◌, ◌^◌, IfOk, length};
ghost use Rattle.mrt_exit.specs.AnswerSteps.{IsAnswer};
ghost use Rattle.mrt_args.specs.Files.{database_limit, profile_limit};
ghost use Rattle.mrt_calls.specs.Areas.{area_within, files_within, input_in, unreserved, within};

use mrt_answer::{Given, given_of};
use mrt_args::{DATABASE_LIMIT, PROFILE_LIMIT};
use mrt_exit::{Exit, What};
use mrt_lent::MrtBytes;
use std::alloc::Global;

/// LSAs and a profile: `struct mrt_area` in C.
#[repr(C)]
#[derive(Clone, Copy)]
pub struct MrtArea<'a> {
    pub lsas: MrtBytes<'a>,
    pub profile: MrtBytes<'a>,
    pub reserved: u64,
}

/// The database and the profile of an area.
#[tactic(auto, using(mrt_exit::proofs::Stepping::early, mrt_exit::proofs::Stepping::late))]
pub(crate) fn given_in(alloc: Global, area: &MrtArea<'_>) -> Result<Given, Exit>
    ensures { IsAnswer (input_in area.now) result }
{
    area_within(area)?;
    given_of(alloc, area.lsas.data, area.profile.data)
}

/// Whether an area asks for nothing that is not there, and its files are within their limits.
#[tactic(auto, using(mrt_exit::proofs::Stepping::early, mrt_exit::proofs::Stepping::late))]
pub(crate) fn area_within(area: &MrtArea<'_>) -> Result<(), Exit>
    ensures within { IsAnswer (area_within area.now) result }
    ensures lsas { IfOk result (λ _. length area.now.lsas.data.now ≤ database_limit) }
    ensures profile { IfOk result (λ _. length area.now.profile.data.now ≤ profile_limit) }
{
    unreserved(area)?;
    files_within(area)
}

/// Whether what is reserved in an area is 0.
fn unreserved(area: &MrtArea<'_>) -> Result<(), Exit>
    ensures { IsAnswer (unreserved area.now) result }
{
    if area.reserved != 0 {
        return Err(Exit::Usage);
    }
    Ok(())
}

/// Whether both files of an area are within their limits.
#[tactic(auto, using(mrt_exit::proofs::Stepping::early, mrt_exit::proofs::Stepping::late))]
fn files_within(area: &MrtArea<'_>) -> Result<(), Exit>
    ensures within { IsAnswer (files_within area.now) result }
    ensures lsas { IfOk result (λ _. length area.now.lsas.data.now ≤ database_limit) }
    ensures profile { IfOk result (λ _. length area.now.profile.data.now ≤ profile_limit) }
{
    within(What::DatabaseFile, DATABASE_LIMIT, area.lsas.data)?;
    within(What::ProfileFile, PROFILE_LIMIT, area.profile.data)
}

/// Whether so many bytes are within a limit.
pub(crate) fn within(what: What, limit: u32, bytes: &[u8]) -> Result<(), Exit>
    requires { limit < 2 ^ 32 - 1 }
    ensures { IsAnswer (within what limit bytes.now) result }
{
    if bytes.len() > limit as usize {
        return Err(Exit::TooLarge {
            what,
            size: limit + 1,
        });
    }
    Ok(())
}
