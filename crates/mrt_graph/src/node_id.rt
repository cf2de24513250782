ghost use Rattle.std.proofs.Common.{rules};
ghost use Rattle.std.specs.{Cmp.partial_order_from_own_ties, Cmp.Rules.comparing, Ordering.as_partial_cmp};

use std::cmp::Ordering;

/// What a node of the area is: a router, or a transit network (RFC 2328, section 2.1).
#[derive(Clone, Copy, PartialEq, Eq)]
pub enum Kind {
    Router,
    Network,
}

/// What names a node throughout the area: a router's ID, or the interface address of a network's designated router
/// (RFC 2328, section 12.1.4).
///
/// Identifiers are ordered by number; at one number the router comes before the network.
#[derive(Clone, Copy, PartialEq, Eq)]
pub struct NodeId {
    pub kind: Kind,
    pub number: u32,
}

impl NodeId {
    ghost use Rattle.std.specs.Prelude.{◌≡◌};
    ghost use Rattle.mrt_graph.specs.NodeIds.{network, router};

    /// What names the router of this ID.
    pub fn router(number: u32) -> NodeId
        ensures { result ≡ router number }
    {
        NodeId {
            kind: Kind::Router,
            number,
        }
    }

    /// What names the network of this designated router's interface address.
    pub fn network(number: u32) -> NodeId
        ensures { result ≡ network number }
    {
        NodeId {
            kind: Kind::Network,
            number,
        }
    }
}

impl Ord for NodeId {
    ghost use Rattle.mrt_graph.specs.NodeOrder.{node_id_cmp};

    ghost cmp = { node_id_cmp };

    ghost total = { Prim.search (comparing, rules) };

    ghost matches_partial_cmp = { Prim.search (comparing, rules) };

    ghost matches_eq = { Prim.search (comparing, rules) };

    fn cmp(&self, other: &NodeId) -> Ordering {
        self.number
            .cmp(&other.number)
            .then((self.kind as u8).cmp(&(other.kind as u8)))
    }
}

impl PartialOrd for NodeId {
    ghost use Rattle.mrt_graph.specs.NodeOrder.{node_id_cmp};

    ghost partial_cmp = { as_partial_cmp node_id_cmp };

    ghost laws = { partial_order_from_own_ties (Prim.search (comparing, rules)) (Prim.search (comparing, rules)) };

    fn partial_cmp(&self, other: &NodeId) -> Option<Ordering> {
        Some(self.cmp(other))
    }
}
