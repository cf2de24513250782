//! What of an area is in an island.

ghost use Rattle.std.specs.Prelude.{◌≡◌, ◌<◌, ◌↔◌, ◌&&◌, ℕ, IfOk, length, map};
ghost use Rattle.std.specs.List.{AllByRecursion};
ghost use Rattle.area_graph.specs.AreaInvariant.{IsArea};
ghost use Rattle.mrt_graph.specs.Search.{IsMarked};
ghost use Rattle.mrt_island.specs.Members.{IsMember};
ghost use Rattle.mrt_island.specs.Numbering.{is_inside, is_link};
ghost use Rattle.mrt_island.specs.Policy.{policy_of};
ghost use Rattle.mrt_island.specs.steps.Searching.{chosen};

use crate::eligible::eligible_pairs;
use crate::profile::Profile;
use crate::settling::settle;
use area_graph::{Area, Bond, Spot};
use mrt_graph::NoMemory;
use std::alloc::Global;

/// Of each node and of each bond of an area whether it is in an island.
pub struct Extent {
    pub nodes: Vec<bool>,
    pub links: Vec<bool>,
}

impl Drop for Extent {
    fn drop(self) {
        let Self { nodes: _, links: _ } = self;
    }
}

/// What of the area is in the island of the router `start`.
pub fn extent_of(
    alloc: Global,
    area: &Area,
    profile: &Profile,
    start: Spot,
) -> Result<Extent, NoMemory>
    requires kept { IsArea area.now }
    requires start { start < length area.now.ids }
    ensures count { IfOk result (λ extent. length extent.nodes.items ≡ length area.now.ids) }
    ensures nodes { IfOk result (λ extent. (s : ℕ) → IsMarked extent.nodes.items s ↔ IsMember (policy_of profile.now) area.now start s) }
    ensures links { IfOk result (λ extent. extent.links.items ≡ map (is_link (policy_of profile.now) area.now.ids extent.nodes.items) area.now.bonds) }
{
    let eligible = eligible_pairs(alloc, area, profile)?;
    let nodes = settle(alloc, area, &eligible, start)?;
    let links = choose(alloc, &eligible, &nodes, area.bonds())?;
    Ok(Extent { nodes, links })
}

/// Of each bond whether its flag is set and both its nodes are inside.
fn choose(
    alloc: Global,
    flags: &[bool],
    inside: &[bool],
    bonds: &[Bond],
) -> Result<Vec<bool>, NoMemory>
    requires flags { length flags.now ≡ length bonds.now }
    requires within { AllByRecursion (λ bond. (bond.a < length inside.now) × (bond.b < length inside.now)) bonds.now }
    ensures { IfOk result (λ links. links.items ≡ chosen flags.now inside.now bonds.now) }
{
    let mut links = Vec::with_capacity(alloc, bonds.len())?;
    for k in 0..bonds.len() {
        links.push_reserved(is_between(flags[k], inside, &bonds[k]));
    }
    Ok(links)
}

fn is_between(flag: bool, inside: &[bool], bond: &Bond) -> bool
    requires a { bond.now.a < length inside.now }
    requires b { bond.now.b < length inside.now }
    ensures { result ≡ (flag && (is_inside inside.now bond.now.a && is_inside inside.now bond.now.b)) }
{
    flag && inside[bond.a.get() as usize] && inside[bond.b.get() as usize]
}
