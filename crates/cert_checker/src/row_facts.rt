//! Words of the rules on rows: where a link leads, what tag a row has, which role a link has.

ghost use Rattle.std.specs.Prelude.{◌≡◌, ◌<◌, ◌≤◌, IfSome, length};
ghost use Rattle.mrt_graph.specs.{CertFields.has_role, Leads.leads, SameGraph.SameCounts, Tags.tag_number, Roles.is_closing, Roles.is_plain, Roles.is_sole};

use mrt_graph::{Cert, Graph, LinkNo, NodeNo, Role, Tag};

/// Where the link leads from `s`.
pub(crate) fn far_end(g: &Graph, c: &Cert, e: LinkNo, s: NodeNo) -> Option<NodeNo>
    requires counts { SameCounts g.now c.now }
    requires link { e < length c.now.links }
    ensures leads { result ≡ leads g.now.links e s }
    ensures within { IfSome result (λ v. v < length c.now.nodes) }
{
    let _same = c.node_count();
    g.link(e).far_node(s)
}

pub(crate) fn number_of(tag: Tag) -> u8
    ensures number { result ≡ tag_number tag }
    ensures few { result ≤ 6 }
{
    tag as u8
}

pub(crate) fn is_plain_link(c: &Cert, e: LinkNo) -> bool
    requires { e < length c.now.links }
    ensures { result ≡ has_role is_plain c.now e }
{
    matches!(c.link(e).role, Role::Plain)
}

pub(crate) fn is_sole_link(c: &Cert, e: LinkNo) -> bool
    requires { e < length c.now.links }
    ensures { result ≡ has_role is_sole c.now e }
{
    matches!(c.link(e).role, Role::Sole)
}

pub(crate) fn is_closing_link(c: &Cert, e: LinkNo) -> bool
    requires { e < length c.now.links }
    ensures { result ≡ has_role is_closing c.now e }
{
    matches!(c.link(e).role, Role::Closing)
}
