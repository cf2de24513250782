//! That no packet comes back on the way round.

ghost use Rattle.std.specs.Prelude.{◌≡◌, ◌++◌, ℕ, true, List, Option, Some, slice_get};
ghost use Rattle.area_graph.specs.{declared.area_types.Arc.Arc, AreaInvariant.IsArea, Parts.AreaParts};
ghost use Rattle.primary_alt.specs.{declared.shortest.Primary.Primary, ArcWalk.ArcWalk, Primaries.IsPrimary, Routers.IsRouter};
ghost use Rattle.lfa_alt.specs.{declared.alternate.Lfa.Lfa, LoopFree.IsLfa};
ghost use Rattle.lfa_alt.specs.HopWalks.{AreHopArcs, HopWalk, Meets, UsesBond, arcs_of};

/// Laws, where each router has its primary for a node: a loop-free alternate's own arcs are there and lead from the source
/// to its next, and from there the primaries hop by hop lead to the node, on a walk along arcs; this walk does not meet the
/// source; so the one walk of both does not use the bond of the source's primary.
pub fn no_alternate_leads_back()
    ensures arrives { (area : AreaParts) → IsArea area → (s t : ℕ) → IsRouter area.ids s
        → (lfa : Lfa) → IsLfa area s t (Some lfa) → (entries : ℕ → Option Primary)
        → ((x : ℕ) → IsRouter area.ids x → IsPrimary area x t (entries x))
        → (hops : List (List Arc)) × HopWalk area.arcs entries t lfa.next hops }
    ensures own { (area : AreaParts) → IsArea area → (s t : ℕ) → IsRouter area.ids s
        → (lfa : Lfa) → IsLfa area s t (Some lfa)
        → (own : List Arc) × AreHopArcs area.arcs lfa.first lfa.second own }
    ensures begins { (area : AreaParts) → IsArea area → (s t : ℕ) → IsRouter area.ids s
        → (lfa : Lfa) → IsLfa area s t (Some lfa) → (own : List Arc)
        → AreHopArcs area.arcs lfa.first lfa.second own → ArcWalk area.arcs s own lfa.next }
    ensures leads { (area : AreaParts) → IsArea area → (s t : ℕ) → IsRouter area.ids s
        → (lfa : Lfa) → IsLfa area s t (Some lfa) → (entries : ℕ → Option Primary)
        → ((x : ℕ) → IsRouter area.ids x → IsPrimary area x t (entries x))
        → (hops : List (List Arc)) → HopWalk area.arcs entries t lfa.next hops
        → ArcWalk area.arcs lfa.next (arcs_of hops) t }
    ensures source { (area : AreaParts) → IsArea area → (s t : ℕ) → IsRouter area.ids s
        → (lfa : Lfa) → IsLfa area s t (Some lfa) → (entries : ℕ → Option Primary)
        → ((x : ℕ) → IsRouter area.ids x → IsPrimary area x t (entries x))
        → (hops : List (List Arc)) → HopWalk area.arcs entries t lfa.next hops
        → Meets lfa.next (arcs_of hops) s → ⊥ }
    ensures bond { (area : AreaParts) → IsArea area → (s t : ℕ) → IsRouter area.ids s
        → (lfa : Lfa) → IsLfa area s t (Some lfa) → (entries : ℕ → Option Primary)
        → ((x : ℕ) → IsRouter area.ids x → IsPrimary area x t (entries x))
        → (hops : List (List Arc)) → HopWalk area.arcs entries t lfa.next hops
        → (own : List Arc) → AreHopArcs area.arcs lfa.first lfa.second own
        → (primary : Primary) (arc : Arc) → IsPrimary area s t (Some primary)
        → slice_get area.arcs primary.first ≡ Some arc → UsesBond (own ++ arcs_of hops) arc.bond → ⊥ }
{}

/// A law: from the next of an alternate that protects the primary's next, the primaries hop by hop do not meet it.
pub fn a_protecting_alternate_goes_round_the_next()
    ensures { (area : AreaParts) → IsArea area → (s t : ℕ) → IsRouter area.ids s
        → (lfa : Lfa) → IsLfa area s t (Some lfa) → lfa.node ≡ true → (entries : ℕ → Option Primary)
        → ((x : ℕ) → IsRouter area.ids x → IsPrimary area x t (entries x))
        → (primary : Primary) → IsPrimary area s t (Some primary)
        → (hops : List (List Arc)) → HopWalk area.arcs entries t lfa.next hops
        → Meets lfa.next (arcs_of hops) primary.next → ⊥ }
{}
