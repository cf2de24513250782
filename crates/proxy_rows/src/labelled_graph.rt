//! What a certificate says of nodes and links.

ghost use Rattle.std.specs.Prelude.{◌≡◌, ◌<◌, Some, length, slice_get};

use mrt_graph::{CertLink, CertNode, Graph, LinkNo, NodeNo};

/// A graph, and the fields of a certificate for its nodes and links.
#[derive(Clone, Copy)]
pub struct LabelledGraph<'a> {
    pub graph: &'a Graph,
    pub nodes: &'a [CertNode],
    pub links: &'a [CertLink],
}

/// What is said of a node.
pub fn node_at(nodes: &[CertNode], n: NodeNo) -> CertNode
    requires { n < length nodes.now }
    ensures { slice_get nodes.now n ≡ Some result }
{
    nodes[n.get() as usize]
}

/// What is said of a link.
pub fn link_at(links: &[CertLink], e: LinkNo) -> CertLink
    requires { e < length links.now }
    ensures { slice_get links.now e ≡ Some result }
{
    links[e.get() as usize]
}
