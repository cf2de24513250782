//! What the area's nodes and bonds are in the island.

ghost use Rattle.std.specs.Prelude.{◌≡◌, ◌<◌, Some, length};
ghost use Rattle.fabric.specs.Answers.{HasElement};
ghost use Rattle.fabric.specs.steps.Viewed.{AreRouted, viewed};
ghost use Rattle.fabric.specs.FabricParts.{ArePartsKept, element_at, element_of, link_at, node_at};
ghost use Rattle.fabric.specs.declared.event.Failure.{Failure};
ghost use Rattle.primary_alt.specs.Offers.{is_network};

use crate::event::Failure;
use crate::next_hop::Crossing;
use crate::parts::Parts;
use area_graph::{Area, BondNo, Spot};
use mrt_graph::{Element, Kind, LinkNo, NodeNo, RowsOf};
use primary_alt::ColorHop;

/// The island node that a node of the area is, if it is one.
pub fn node_of<R: RowsOf>(parts: &Parts<'_, R>, s: Spot) -> Option<NodeNo>
    requires kept { ArePartsKept (viewed R.rows parts.now) }
    requires routed { AreRouted parts.now }
    requires within { s < length parts.now.area.now.ids }
    ensures { result ≡ node_at (viewed R.rows parts.now) s }
{
    parts.routes.node(s)
}

/// The island link that a bond is, if it is one.
fn link_of<R: RowsOf>(parts: &Parts<'_, R>, b: BondNo) -> Option<LinkNo>
    requires kept { ArePartsKept (viewed R.rows parts.now) }
    requires within { b < length parts.now.area.now.bonds }
    ensures { result ≡ link_at (viewed R.rows parts.now) b }
{
    parts.routes.link(b)
}

/// The element of the island that has failed, if one has.
pub fn element_of<R: RowsOf>(parts: &Parts<'_, R>, failure: &Option<Failure>) -> Option<Element>
    requires kept { ArePartsKept (viewed R.rows parts.now) }
    requires routed { AreRouted parts.now }
    requires within { (failed : Failure) → failure.now ≡ Some failed
        → HasElement parts.now.area.now failed }
    ensures { result ≡ element_of (viewed R.rows parts.now) failure.now }
{
    match failure {
        None => None,
        Some(failed) => element_at(parts, failed),
    }
}

/// The element of the island that a failed element of the area is, if it is one.
fn element_at<R: RowsOf>(parts: &Parts<'_, R>, failed: &Failure) -> Option<Element>
    requires kept { ArePartsKept (viewed R.rows parts.now) }
    requires routed { AreRouted parts.now }
    requires within { HasElement parts.now.area.now failed.now }
    ensures { result ≡ element_at (viewed R.rows parts.now) failed.now }
{
    match failed {
        Failure::Node(s) => match node_of(parts, *s) {
            Some(node) => Some(Element::Node(node)),
            None => None,
        },
        Failure::Bond(b) => match link_of(parts, *b) {
            Some(link) => Some(Element::Link(link)),
            None => None,
        },
    }
}

/// The bond that the link of a hop on a color is, and the node of the area that it leads to.
pub fn crossing_of<R: RowsOf>(parts: &Parts<'_, R>, hop: &ColorHop) -> Crossing
    requires kept { ArePartsKept (viewed R.rows parts.now) }
    requires routed { AreRouted parts.now }
    requires link { hop.now.link < length parts.now.island.now.links }
    requires to { hop.now.to < length parts.now.island.now.ids }
    ensures link { link_at (viewed R.rows parts.now) result.bond ≡ Some hop.now.link }
    ensures node { node_at (viewed R.rows parts.now) result.node ≡ Some hop.now.to }
{
    Crossing {
        bond: parts.routes.bond(hop.link),
        node: parts.routes.spot(hop.to),
    }
}

/// Whether a node is a network.
pub fn is_at_network(area: &Area, s: Spot) -> bool
    requires { s < length area.now.ids }
    ensures { result ≡ is_network area.now.ids s }
{
    area.id(s).kind == Kind::Network
}
