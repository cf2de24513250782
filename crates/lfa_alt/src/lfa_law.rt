//! What holds of the loop-free alternates of each area.

ghost use Rattle.std.specs.Prelude.{◌≡◌, ◌<◌, ℕ, Option, length};
ghost use Rattle.area_graph.specs.{AreaInvariant.IsArea, Parts.AreaParts};
ghost use Rattle.primary_alt.specs.Routers.{IsRouter};
ghost use Rattle.lfa_alt.specs.{declared.alternate.Lfa.Lfa, LoopFree.IsLfa};

/// A law: a router has one answer at most for each node, a loop-free alternate or none.
pub fn one_loop_free_alternate_each()
    ensures { (area : AreaParts) (s t : ℕ) (entry other : Option Lfa) → IsLfa area s t entry
        → IsLfa area s t other → entry ≡ other }
{}

/// A law: in each area each router has its loop-free alternate for each node, or there is none.
pub fn each_router_has_its_alternates()
    ensures { (area : AreaParts) → IsArea area → (s t : ℕ) → IsRouter area.ids s
        → t < length area.ids → (entry : Option Lfa) × IsLfa area s t entry }
{}
