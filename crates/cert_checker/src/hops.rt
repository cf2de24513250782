//! Where the two links of a row lead. Neighbouring rows of one source mostly have the same links, so what was found for
//! one row serves the next.

ghost use Rattle.std.specs.Prelude.{◌≡◌, ◌==◌, ◌<◌, IfSome, false, length};
ghost use Rattle.std.specs.Option.{option_map, option_map_or};
ghost use Rattle.cert_checker.specs.steps.KnownNode.{IsHop};
ghost use Rattle.mrt_graph.specs.{Leads.leads, SameGraph.SameCounts};

use crate::known_node::{KnownNode, known_node};
use crate::row_facts::far_end;
use mrt_graph::{Cert, Graph, LinkNo, NodeNo};

/// A link that leads from a source, and the node to which it leads.
#[derive(Drop)]
pub(crate) struct Hop<'a> {
    pub link: LinkNo,
    pub to: KnownNode<'a>,
}

/// The hops of the last row of a source; none where a link leads nowhere, or before the first row.
#[derive(Drop)]
pub(crate) struct Hops<'a> {
    pub blue: Option<Hop<'a>>,
    pub red: Option<Hop<'a>>,
}

/// Makes it the hop by a link from `s`, which it stays where it has that link. None where the link does not touch `s`.
#[inline(always)]
pub(crate) fn turn_to<'a>(g: &Graph, c: &'a Cert, s: NodeNo, hop: &mut Option<Hop<'a>>, e: LinkNo)
    requires counts { SameCounts g.now c.now }
    requires link { e < length c.now.links }
    requires last { IfSome hop.old (λ hop. IsHop g.now c.now s hop) }
    ensures hop { IfSome hop.new (λ hop. IsHop g.now c.now s hop) }
    ensures leads { option_map (λ hop. hop.to.number) hop.new ≡ leads g.now.links e s }
{
    if is_by(hop, e) {
        return;
    }
    *hop = new_hop(g, c, s, e);
}

/// Whether it is the hop by a link.
fn is_by(hop: &Option<Hop>, e: LinkNo) -> bool
    ensures { result ≡ option_map_or (λ hop. hop.link == e) hop.now false }
{
    match hop {
        None => false,
        Some(hop) => hop.link == e,
    }
}

#[inline(never)]
fn new_hop<'a>(g: &Graph, c: &'a Cert, s: NodeNo, e: LinkNo) -> Option<Hop<'a>>
    requires counts { SameCounts g.now c.now }
    requires link { e < length c.now.links }
    ensures hop { IfSome result (λ hop. IsHop g.now c.now s hop) }
    ensures leads { option_map (λ hop. hop.to.number) result ≡ leads g.now.links e s }
{
    match far_end(g, c, e, s) {
        None => None,
        Some(v) => Some(Hop {
            link: e,
            to: known_node(c, v),
        }),
    }
}
