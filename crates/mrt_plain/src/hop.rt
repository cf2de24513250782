//! Where a link, a row and a color lead.

ghost use Rattle.std.specs.Prelude.{◌≡◌, ◌<◌, IfNone, IfSome, [], length};
ghost use Rattle.mrt_graph.specs.{Certificate.row_of, Hop.color_hop, ColorWalk.links_followed, Leads.leads, Rows.link_of_color};
ghost use Rattle.mrt_plain.specs.Within.{AreWithin};
ghost use Rattle.mrt_plain.specs.steps.NextHop.{IsNextHop};

use mrt_graph::{Cert, Color, Link, LinkNo, NodeNo, Row};

/// A link, and the node that it leads to.
#[derive(Clone, Copy)]
pub struct Hop {
    pub link: LinkNo,
    pub to: NodeNo,
}

/// Where link number `e` leads from `at`.
pub fn lead(links: &[Link], e: usize, at: NodeNo) -> Option<NodeNo>
    ensures { result ≡ leads links.now e at }
{
    match links.get(e) {
        Some(link) => link.far_node(at),
        None => None,
    }
}

/// The link of a color in a row.
fn link_on(color: Color, row: &Row) -> LinkNo
    ensures { result ≡ link_of_color color row.now }
{
    match color {
        Color::Blue => row.blue,
        Color::Red => row.red,
    }
}

/// Where a packet for `t` goes next on a color from `at`, if it may go over `left` links more.
pub fn next_hop(
    links: &[Link],
    c: &Cert,
    color: Color,
    at: NodeNo,
    t: NodeNo,
    left: u32,
) -> Option<Hop>
    requires within { AreWithin (length c.now.nodes) links.now }
    requires at { at < length c.now.nodes }
    requires target { t < length c.now.nodes }
    ensures none { IfNone result (links_followed (color_hop links.now (row_of c.now) color t) t left at ≡ []) }
    ensures some { IfSome result (λ hop. IsNextHop links.now (length c.now.nodes) (color_hop links.now (row_of c.now) color t) t left at hop.link hop.to) }
{
    if left == 0 || at == t {
        return None;
    }
    let link = link_on(color, &c.row(at, t));
    let to = lead(links, link.get() as usize, at)?;
    Some(Hop { link, to })
}
