//! The search for the nodes of an island.

ghost use Rattle.std.specs.Prelude.{◌≡◌, ◌<◌, ◌↔◌, ℕ, IfOk, length, vec_len};
ghost use Rattle.area_graph.specs.AreaInvariant.{IsArea};
ghost use Rattle.mrt_graph.specs.{Reachable.Reachable, Search.Enters, Search.IsMarked};
ghost use Rattle.mrt_island.specs.steps.Searching.{ArePairs, LeadsBy, LeadsOver};

use area_graph::{Arc, Area, Spot};
use mrt_graph::{NoMemory, NodeSearch};
use std::alloc::Global;

/// Of each node of the area whether bonds whose flags are set lead to it from `start`.
pub fn settle(
    alloc: Global,
    area: &Area,
    flags: &[bool],
    start: Spot,
) -> Result<Vec<bool>, NoMemory>
    requires kept { IsArea area.now }
    requires flags { length flags.now ≡ length area.now.bonds }
    requires pairs { ArePairs area.now.bonds flags.now }
    requires start { start < length area.now.ids }
    ensures count { IfOk result (λ inside. vec_len inside ≡ length area.now.ids) }
    ensures reached { IfOk result (λ inside. (t : ℕ) → IsMarked inside.items t ↔ Reachable (LeadsOver area.now.bonds flags.now) start t) }
{
    let mut search = NodeSearch::new(alloc, area.count(), start.get())?;
    while let Some(at) = search.next() {
        visit(area, flags, Spot::new(at), &mut search);
    }
    Ok(search.into_marks())
}

/// Enters all nodes that an arc leads to from `at`, over a bond whose flag is set.
fn visit(area: &Area, flags: &[bool], at: Spot, search: &mut NodeSearch)
    requires kept { IsArea area.now }
    requires flags { length flags.now ≡ length area.now.bonds }
    requires pairs { ArePairs area.now.bonds flags.now }
    requires at { at < length area.now.ids }
    requires count { length search.old.marks ≡ length area.now.ids }
    ensures { Enters (LeadsOver area.now.bonds flags.now at) search.old search.new }
{
    let arcs = area.arcs(at);
    for i in 0..arcs.len() {
        pass(flags, &arcs[i], search);
    }
}

/// Enters the node that an arc leads to, if its bond's flag is set.
fn pass(flags: &[bool], arc: &Arc, search: &mut NodeSearch)
    requires bond { arc.now.bond < length flags.now }
    requires to { arc.now.to < length search.old.marks }
    ensures { Enters (LeadsBy flags.now arc.now) search.old search.new }
{
    if flags[arc.bond.get() as usize] {
        search.enter(arc.to.get());
    }
}
