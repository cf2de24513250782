//! What holds of routes, whatever the area and the graph that they are made with.

ghost use Rattle.std.specs.Prelude.{◌≡◌, ◌<◌, ◌⊎◌, ℕ, List, Some};
ghost use Rattle.area_graph.specs.{declared.area_types.Arc.Arc, AreaInvariant.IsArea, Parts.AreaParts};
ghost use Rattle.mrt_graph.specs.Topology.{Topology};
ghost use Rattle.primary_alt.specs.{declared.shortest.Primary.Primary, ArcWalk.ArcWalk, Distance.IsDistance, PrimaryHops.HopsReach, Routers.IsRouter};
ghost use Rattle.primary_alt.specs.RoutesMade.{AreMade};
ghost use Rattle.primary_alt.specs.RouteLists.{HasColumn, RouteLists, primary_at};

/// Laws: a primary that routes give leads to the destination or to a router, and the distance from there is smaller.
pub fn routes_lead_nearer()
    ensures router { (area : AreaParts) (graph : Topology) (routes : RouteLists) → IsArea area
        → AreMade area graph routes → (s t : ℕ) (primary : Primary)
        → primary_at routes s t ≡ Some primary
        → (primary.next ≡ t) ⊎ IsRouter area.ids primary.next }
    ensures nearer { (area : AreaParts) (graph : Topology) (routes : RouteLists) → IsArea area
        → AreMade area graph routes → (s t : ℕ) (primary : Primary)
        → primary_at routes s t ≡ Some primary
        → (distance : ℕ) × (rest : ℕ) × IsDistance area.arcs s t distance
        × IsDistance area.arcs primary.next t rest × (rest < distance) }
{}

/// A law: from each router from which a walk leads to a node that has a column, the primaries hop by hop reach it.
pub fn routes_reach_their_destinations()
    ensures { (area : AreaParts) (graph : Topology) (routes : RouteLists) → IsArea area
        → AreMade area graph routes → (s t : ℕ) → IsRouter area.ids s → HasColumn routes t
        → (walk : List Arc) → ArcWalk area.arcs s walk t → HopsReach (λ x. primary_at routes x t) t s }
{}
