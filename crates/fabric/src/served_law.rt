//! What serves every event. The law holds of the definitions alone; the function does nothing.

ghost use Rattle.area_graph.specs.Parts.{AreaParts};
ghost use Rattle.fabric.specs.{Served.IsEventServed, Viewed.parts_with, declared.event.Event.Event};
ghost use Rattle.mrt_graph.specs.{AcceptedFor.IsAcceptedFor, Certificate.Certificate, Certificate.row_of, Topology.Topology};
ghost use Rattle.primary_alt.specs.{RouteLists.RouteLists, RoutesMade.AreMadeWith};

/// A law: the rows of a certificate that is accepted for the island, with the routes to all nodes of the area, serve each
/// event, as `Fabric::apply` asks for it.
pub fn a_certificate_serves_each_event()
    ensures { (area : AreaParts) (island : Topology) (cert : Certificate) (routes : RouteLists)
        → IsAcceptedFor island cert → AreMadeWith area island routes
        → (event : Event) → IsEventServed (parts_with area island (row_of cert) routes) routes event }
{}
