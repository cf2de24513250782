//! What a block has: nodes and links.

ghost use Rattle.std.specs.Prelude.{◌≡◌, ◌<◌, Some, length, slice_get};
ghost use Rattle.order_repair.specs.steps.Blocks.{blocks_of, count_of, element_of};

use mrt_graph::{Directed, Element, Graph, LinkNo, NodeNo, Place};

/// Its nodes, or its links.
#[derive(Clone, Copy)]
pub enum Kind {
    Nodes,
    Links,
}

/// The nodes, or the links, of a block.
#[derive(Clone, Copy)]
pub struct Members {
    pub kind: Kind,
    pub place: Place,
}

/// Those of a kind.
pub fn members_of(kind: Kind, place: &Place) -> Members
    ensures { result ≡ record { kind = kind; place = place.now } }
{
    Members {
        kind,
        place: *place,
    }
}

/// How many a graph has of a kind.
pub fn count_of(g: &Graph, kind: Kind) -> u16
    ensures { result ≡ count_of kind g.now }
{
    match kind {
        Kind::Nodes => g.node_count(),
        Kind::Links => g.link_count(),
    }
}

/// The block of a node, its own and none of which it is the head, or of a link.
pub fn block_at(d: &Directed, kind: Kind, number: u16) -> NodeNo
    requires { number < length (blocks_of kind d.now) }
    ensures { slice_get (blocks_of kind d.now) number ≡ Some result }
{
    match kind {
        Kind::Nodes => d.place(NodeNo::new(number)).block,
        Kind::Links => d.mark(LinkNo::new(number)).block,
    }
}

/// One of a kind, as what may fail.
pub fn element(kind: Kind, number: u16) -> Element
    ensures { result ≡ element_of kind number }
{
    match kind {
        Kind::Nodes => Element::Node(NodeNo::new(number)),
        Kind::Links => Element::Link(LinkNo::new(number)),
    }
}
