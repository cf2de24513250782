//! The island of a router in a database.

ghost use Rattle.std.specs.Prelude.{◌≡◌, ◌<◌, None, IfOk, length, map};
ghost use Rattle.area_graph.specs.Fits.{Fits};
ghost use Rattle.lsdb.specs.Conflicts.{least_conflict};
ghost use Rattle.mrt_island.specs.Policy.{policy_of};
ghost use Rattle.mrt_answer.specs.Input.{policy};
ghost use Rattle.mrt_answer.specs.Islands.{area_of as area_step, island_in as island_step, island_of as island_under_step};
ghost use Rattle.mrt_exit.specs.AnswerSteps.{IsAnswer};

use crate::given::Given;
use area_graph::{Area, build_area};
use lsdb::Lsdb;
use mrt_exit::Exit;
use mrt_island::{Island, IslandError, Profile, find_island};
use std::alloc::Global;

/// The island of a router under the profile.
pub fn island_in(alloc: Global, given: &Given, router: u32) -> Result<Island, Exit>
    ensures island { IsAnswer (island_step given.now router) result }
    ensures root { IfOk result (λ island. island.root < length island.graph.ids) }
{
    let area = area_of(alloc, given)?;
    island_of(alloc, &area, given, router)
}

/// The area of the database.
pub(crate) fn area_of(alloc: Global, given: &Given) -> Result<Area, Exit>
    ensures { IsAnswer (area_step given.now.newest) result }
{
    area_in(alloc, &given.database)
}

/// The area of a database.
fn area_in(alloc: Global, database: &Lsdb) -> Result<Area, Exit>
    requires { least_conflict database.now.entries ≡ None }
    ensures { IsAnswer (area_step (map (λ entry. entry.lsa) database.now.entries)) result }
{
    Ok(build_area(alloc, database)?)
}

/// The island of a router under the profile, in whatever area.
pub(crate) fn island_of(
    alloc: Global,
    area: &Area,
    given: &Given,
    router: u32,
) -> Result<Island, Exit>
    ensures island { IsAnswer (island_under_step (policy given.now) area.now router) result }
    ensures fits { IfOk result (λ island. Fits area.now island.graph island.link_of) }
{
    island_under(alloc, area, &given.profile, router)
}

/// The island of a router under a profile.
fn island_under(alloc: Global, area: &Area, profile: &Profile, router: u32) -> Result<Island, Exit>
    ensures island { IsAnswer (island_under_step (policy_of profile.now) area.now router) result }
    ensures fits { IfOk result (λ island. Fits area.now island.graph island.link_of) }
{
    match find_island(alloc, area, profile, router) {
        Ok(island) => Ok(island),
        Err(IslandError::NotThere) => Err(Exit::NotThere { number: router }),
        Err(IslandError::Unsupported) => Err(Exit::NotThere { number: router }),
        Err(IslandError::NoMemory) => Err(Exit::NoMemory),
    }
}
