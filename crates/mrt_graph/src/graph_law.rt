//! That a graph is determined by what it is made of.

ghost use Rattle.std.specs.Prelude.{◌≡◌, List};
ghost use Rattle.mrt_graph.specs.{declared.link.LinkIn.LinkIn, declared.node_id.NodeId.NodeId, NewGraph.IsGraphOf, Topology.Topology};

/// Laws: of identifiers and links there is a graph, and just one.
pub fn one_graph_of_its_parts()
    ensures some { (ids : List NodeId) (links : List LinkIn) → (g : Topology) × IsGraphOf ids links g }
    ensures one { (ids : List NodeId) (links : List LinkIn) (g h : Topology) → IsGraphOf ids links g → IsGraphOf ids links h → g ≡ h }
{}
