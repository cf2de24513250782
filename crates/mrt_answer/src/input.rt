//! What the bytes of the files are.

ghost use Rattle.std.specs.Prelude.{◌≡◌, ◌≤◌, None, Ok, Err, IfOk, IfErr, length, map};
ghost use Rattle.lsdb.specs.Conflicts.{least_conflict};
ghost use Rattle.mrt_args.specs.Files.{database_limit, profile_limit, script_limit};
ghost use Rattle.mrt_answer.specs.Reading.{database_of as database_step, input_of, profile_of as profile_step, script_of as script_step};
ghost use Rattle.mrt_exit.specs.{Due.IsDue, AnswerSteps.IsAnswer};

use crate::given::Given;
use fabric_script::{Script, read_script};
use lsdb::{Lsdb, refuses_exactly_where_not_settled, tells_the_first_conflict};
use mrt_exit::Exit;
use mrt_island::{Profile, read_profile};
use ospf_lsa::read_lsas;
use std::alloc::Global;

/// The database and the profile that the bytes are.
#[tactic(auto, using(mrt_exit::proofs::Stepping::early, mrt_exit::proofs::Stepping::late))]
pub fn given_of(alloc: Global, database: &[u8], profile: &[u8]) -> Result<Given, Exit>
    requires database { length database.now ≤ database_limit }
    requires profile { length profile.now ≤ profile_limit }
    ensures { IsAnswer (input_of database.now profile.now) result }
{
    let database = database_of(alloc, database)?;
    let profile = profile_of(alloc, profile)?;
    Ok(Given { database, profile })
}

/// The database of the router-LSAs and network-LSAs that the bytes are.
pub(crate) fn database_of(alloc: Global, bytes: &[u8]) -> Result<Lsdb, Exit>
    requires { length bytes.now ≤ database_limit }
    ensures newest { IfOk result (λ database. database_step bytes.now (Ok (map (λ entry. entry.lsa) database.entries))) }
    ensures settled { IfOk result (λ database. least_conflict database.entries ≡ None) }
    ensures none { IfErr result (IsDue (λ exit. database_step bytes.now (Err exit))) }
{
    refuses_exactly_where_not_settled();
    tells_the_first_conflict();
    let lsas = read_lsas(alloc, bytes)?;
    let database = lsdb::database_of(alloc, lsas)?;
    database.settled()?;
    Ok(database)
}

/// The profile that the bytes are.
pub(crate) fn profile_of(alloc: Global, bytes: &[u8]) -> Result<Profile, Exit>
    requires { length bytes.now ≤ profile_limit }
    ensures { IsAnswer (profile_step bytes.now) result }
{
    Ok(read_profile(alloc, bytes)?)
}

/// The script that the bytes are.
pub(crate) fn script_of(alloc: Global, bytes: &[u8]) -> Result<Script, Exit>
    requires { length bytes.now ≤ script_limit }
    ensures script { IsAnswer (script_step bytes.now) result }
    ensures room { IfOk result (λ script. 1 ≤ script.room) }
{
    Ok(read_script(alloc, bytes)?)
}
