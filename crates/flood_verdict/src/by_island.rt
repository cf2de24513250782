//! Databases compared by the certificate of a router's island.

ghost use Rattle.std.specs.Prelude.{◌≡◌, ◌⊎◌, None, IfOk, IfErr, IsTrue, if◌then◌else◌, length};
ghost use Rattle.area_graph.specs.{AreaInvariant.IsArea, AreaSize.IsTooLarge, AreaSize.TellsTooLarge};
ghost use Rattle.lsdb.specs.Conflicts.{least_conflict};
ghost use Rattle.flood_verdict.specs.steps.Found.{IsFound, IsFoundIn};
ghost use Rattle.flood_verdict.specs.Says.{area_in};

use area_graph::{Area, AreaError, build_area};
use cert_stream::CertStream;
use flood::{Compare, SharedLsdb, Verdict, newest_of_the_same_give_one_area};
use mrt_graph::NoMemory;
use mrt_island::{IslandError, Profile, find_island};
use std::alloc::Global;
use std::marker::Model;

/// Compares two databases by the certificate of a router's island in each, under a profile (RFC 7811, section 5).
#[derive(Drop)]
pub struct ByIsland<'a> {
    profile: &'a Profile,
}

impl<'a> Model for ByIsland<'a> {
    ghost use Rattle.std.specs.Prelude.{List};
    ghost use Rattle.mrt_island.specs.declared.setting.Setting.{Setting};

    ghost Value = { List Setting };

    ghost view = { λ by. by.profile.now };
}

impl<'a> ByIsland<'a> {
    /// The comparison under this profile.
    pub fn new(profile: &'a Profile) -> ByIsland<'a>
        ensures { result ≡ profile.now }
    {
        ByIsland { profile }
    }
}

impl<'a> Compare for ByIsland<'a> {
    ghost use Rattle.flood_verdict.specs.Says.{Says};

    ghost says = { λ settings. Says settings };

    /// Whether the certificates of a router's islands are the same, where both databases tell of it.
    ///
    /// A database tells of a router where its newest instances agree, its area is within the limits, and the router is in
    /// it and takes part under the profile. Certificates are the same where their roots, nodes, links, roles and rows
    /// are; metrics and link data are no part of that.
    ///
    /// Where both hold the same LSAs in the same order, it takes the time of copying one database, of its area and island,
    /// and of the search and the directions of that. Else it takes these of both, one after the other. Rows are found only
    /// where the islands have the same nodes, links and roots in words and not the same metrics or link data: then source
    /// after source, up to the first that differ, so no certificate is ever held whole.
    ///
    /// # Errors
    ///
    /// [`NoMemory`] where there was none for an area, an island or the parts of a certificate.
    fn compare(
        &self,
        alloc: Global,
        one: &SharedLsdb,
        other: &SharedLsdb,
        router: u32,
    ) -> Result<Verdict, NoMemory> {
        let Some(its) = found(alloc, one, self.profile, router)? else {
            return Ok(Verdict::None);
        };
        if have_one_area(one, other) {
            return Ok(Verdict::Same);
        }
        let Some(others) = found(alloc, other, self.profile, router)? else {
            return Ok(Verdict::None);
        };
        Ok(verdict_on(its.is_same(others)))
    }
}

/// Whether the second of two databases is settled, and has the area of the first by the LSAs that both hold. It does not
/// tell of each two that have one area.
fn have_one_area(one: &SharedLsdb, other: &SharedLsdb) -> bool
    ensures settled { IsTrue result → least_conflict other.now.entries ≡ None }
    ensures area { IsTrue result → area_in one.now ≡ area_in other.now }
{
    newest_of_the_same_give_one_area();
    if !one.holds_the_same(other) {
        return false;
    }
    other.is_settled()
}

/// What two certificates come to, which are the same or are not.
fn verdict_on(same: bool) -> Verdict
    ensures { result ≡ (if same then Verdict.Same else Verdict.Different) }
{
    if same {
        Verdict::Same
    } else {
        Verdict::Different
    }
}

/// The certificate of a router's island in a database, the rows of which are not found yet; none where the database has no
/// island of the router (it is not there, the area is too large, or two LSAs contradict each other).
fn found(
    alloc: Global,
    database: &SharedLsdb,
    profile: &Profile,
    router: u32,
) -> Result<Option<CertStream>, NoMemory>
    ensures { IfOk result (IsFound profile.now database.now router) }
{
    if !database.is_settled() {
        return Ok(None);
    }
    match area_in(alloc, database) {
        Ok(area) => found_in(alloc, &area, profile, router),
        Err(AreaError::TooLarge { .. }) => Ok(None),
        Err(AreaError::NoMemory) => Err(NoMemory),
    }
}

/// The area of a settled database. The copy that it is built of is given up before it is used.
fn area_in(alloc: Global, database: &SharedLsdb) -> Result<Area, AreaError>
    requires { least_conflict database.now.entries ≡ None }
    ensures area { IfOk result (λ area. area ≡ area_in database.now) }
    ensures within { IfOk result (λ _.
        IsTooLarge (length (area_in database.now).ids) (length (area_in database.now).arcs) → ⊥) }
    ensures refused { IfErr result (λ error. (error ≡ AreaError.NoMemory)
        ⊎ TellsTooLarge (length (area_in database.now).ids) (length (area_in database.now).arcs) error) }
{
    newest_of_the_same_give_one_area();
    let copy = database.copied(alloc)?;
    build_area(alloc, &copy)
}

/// The certificate of a router's island in an area; none where the router is not there or takes no part.
fn found_in(
    alloc: Global,
    area: &Area,
    profile: &Profile,
    router: u32,
) -> Result<Option<CertStream>, NoMemory>
    ensures found { IfOk result (IsFoundIn profile.now area.now router) }
    ensures kept { IsArea area.now }
{
    // what each area keeps is told by reading it
    let _nodes = area.count();
    match find_island(alloc, area, profile, router) {
        Ok(island) => Ok(Some(CertStream::new(alloc, island.graph, island.root)?)),
        Err(IslandError::NotThere) => Ok(None),
        Err(IslandError::Unsupported) => Ok(None),
        Err(IslandError::NoMemory) => Err(NoMemory),
    }
}
