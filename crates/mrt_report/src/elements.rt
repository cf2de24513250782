//! What an arc leads over in the island.

ghost use Rattle.std.specs.Prelude.{◌<◌, IfSome, length};
ghost use Rattle.area_graph.specs.{AreaInvariant.IsArea, Fits.Fits};
ghost use Rattle.mrt_report.specs.Repairs.{AreArcElements, IsLinkElement, IsNodeElement};
ghost use Rattle.mrt_report.specs.steps.Viewed.{viewed};

use crate::parts::Parts;
use area_graph::{ArcNo, BondNo};
use mrt_graph::{Element, Graph, LinkNo, NodeId, RowsOf};

/// The link that an arc's bond is, and the node that the arc leads to; None for what is outside the island.
#[derive(Clone, Copy)]
pub struct ArcElements {
    pub link: Option<Element>,
    pub node: Option<Element>,
}

/// The elements of an arc.
pub fn elements_of<R: RowsOf>(parts: &Parts<'_, R>, number: ArcNo) -> ArcElements
    requires kept { IsArea parts.now.area.now }
    requires fits { Fits parts.now.area.now parts.now.island.now parts.now.link_of.now }
    requires within { number < length parts.now.area.now.arcs }
    ensures { AreArcElements (viewed R.rows parts.now) number result.link result.node }
{
    let arc = parts.area.arc(number);
    ArcElements {
        link: element_of_bond(parts.link_of, arc.bond),
        node: element_of_node(parts.island, parts.area.id(arc.to)),
    }
}

/// The elements of an arc that may not be there.
pub fn elements_of_second<R: RowsOf>(parts: &Parts<'_, R>, second: Option<ArcNo>) -> ArcElements
    requires kept { IsArea parts.now.area.now }
    requires fits { Fits parts.now.area.now parts.now.island.now parts.now.link_of.now }
    requires within { IfSome second (λ number. number < length parts.now.area.now.arcs) }
    ensures { IfSome second (λ number.
        AreArcElements (viewed R.rows parts.now) number result.link result.node) }
{
    match second {
        Some(number) => elements_of(parts, number),
        None => ArcElements {
            link: None,
            node: None,
        },
    }
}

/// The link of the island that a bond is, if it is one.
fn element_of_bond(link_of: &[Option<LinkNo>], bond: BondNo) -> Option<Element>
    requires { bond < length link_of.now }
    ensures { IsLinkElement link_of.now bond result }
{
    match link_of[bond.get() as usize] {
        Some(link) => Some(Element::Link(link)),
        None => None,
    }
}

/// The node of the island that has this identifier, if there is one.
fn element_of_node(island: &Graph, id: NodeId) -> Option<Element>
    ensures { IsNodeElement island.now.ids id result }
{
    match island.find(id) {
        Some(node) => Some(Element::Node(node)),
        None => None,
    }
}
