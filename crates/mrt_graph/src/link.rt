//! Links between nodes, and their ends at each of the two.

ghost use Rattle.std.specs.Prelude.{◌≡◌};
ghost use Rattle.mrt_graph.specs.Leads.{far_node};

use crate::numbers::{LinkNo, NodeNo};

/// A link as [`Graph::new`](crate::Graph::new) takes it: its two nodes, and at each of them the metric and the link
/// data of the interface (RFC 2328, section A.4.2). In an island's graph, a network's end has metric 0 and link
/// data 0.
#[derive(Clone, Copy, PartialEq, Eq)]
pub struct LinkIn {
    pub a: NodeNo,
    pub b: NodeNo,
    pub metric_a: u16,
    pub metric_b: u16,
    pub data_a: u32,
    pub data_b: u32,
}

/// A link's two nodes, the lower one first.
#[derive(Clone, Copy, PartialEq, Eq)]
pub struct Link {
    pub a: NodeNo,
    pub b: NodeNo,
}

impl Link {
    /// The other node of a link that touches `s`. `None` where it does not touch `s`.
    pub fn far_node(&self, s: NodeNo) -> Option<NodeNo>
        ensures { result ≡ far_node s self.now }
    {
        if self.a == s {
            Some(self.b)
        } else if self.b == s {
            Some(self.a)
        } else {
            None
        }
    }
}

/// An interface of a node: the link it is on, the node at the link's other end, and the node's own metric and link
/// data there.
#[derive(Clone, Copy, Default, PartialEq, Eq)]
pub struct End {
    pub link: LinkNo,
    pub to: NodeNo,
    pub metric: u16,
    pub link_data: u32,
}

/// What can fail, and what a walk uses: a link or a node.
#[derive(Clone, Copy, PartialEq, Eq)]
pub enum Element {
    Link(LinkNo),
    Node(NodeNo),
}
