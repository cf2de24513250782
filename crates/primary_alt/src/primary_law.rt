//! What holds of the primaries of each area.

ghost use Rattle.std.specs.Prelude.{◌≡◌, ◌≢◌, ◌<◌, ◌⊎◌, ◌↔◌, ℕ, List, Option, Some, IsSome, length};
ghost use Rattle.area_graph.specs.{declared.area_types.Arc.Arc, AreaInvariant.IsArea, Parts.AreaParts};
ghost use Rattle.primary_alt.specs.{declared.shortest.Primary.Primary, ArcWalk.ArcWalk, Distance.IsDistance, Primaries.IsPrimary};
ghost use Rattle.primary_alt.specs.{PrimaryHops.HopsReach, Routers.IsRouter};

/// A law: a node has one entry at most for each node.
pub fn one_primary_each()
    ensures { (area : AreaParts) (s t : ℕ) (entry other : Option Primary)
        → IsPrimary area s t entry → IsPrimary area s t other → entry ≡ other }
{}

/// A law: in each area each router has an entry for each node, its primary or that there is none.
pub fn each_router_has_its_primaries()
    ensures { (area : AreaParts) → IsArea area → (entries : ℕ → ℕ → Option Primary)
        × ((s t : ℕ) → IsRouter area.ids s → t < length area.ids
        → IsPrimary area s t (entries s t)) }
{}

/// A law: there is a primary exactly where a walk leads to another node.
pub fn a_primary_where_a_walk_leads()
    ensures { (area : AreaParts) (s t : ℕ) (entry : Option Primary) → IsPrimary area s t entry
        → IsSome entry ↔ ((s ≢ t) × ((walk : List Arc) × ArcWalk area.arcs s walk t)) }
{}

/// Laws: the primary of a router leads to the destination or to another router, and the distance from there is smaller.
pub fn primaries_lead_nearer()
    ensures router { (area : AreaParts) → IsArea area → (s t : ℕ) (primary : Primary)
        → IsPrimary area s t (Some primary)
        → (primary.next ≡ t) ⊎ IsRouter area.ids primary.next }
    ensures nearer { (area : AreaParts) → IsArea area → (s t distance : ℕ) (primary : Primary)
        → IsRouter area.ids s → IsPrimary area s t (Some primary)
        → IsDistance area.arcs s t distance
        → (rest : ℕ) × IsDistance area.arcs primary.next t rest × (rest < distance) }
{}

/// A law: where each router has its primary for a node, the hops from each router from which a walk leads there reach
/// it.
pub fn primaries_reach_their_destinations()
    ensures { (area : AreaParts) → IsArea area → (t : ℕ) (entries : ℕ → Option Primary)
        → ((s : ℕ) → IsRouter area.ids s → IsPrimary area s t (entries s))
        → (s : ℕ) → IsRouter area.ids s
        → (walk : List Arc) → ArcWalk area.arcs s walk t → HopsReach entries t s }
{}
