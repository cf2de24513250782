//! Where a packet on a color goes.

ghost use Rattle.std.specs.Prelude.{◌≡◌, ◌<◌, IsSome, Some, length};
ghost use Rattle.mrt_graph.specs.{Hop.color_hop, Hop.hop_over, Rows.link_of_color};

use mrt_graph::{Color, Graph, LinkNo, NodeNo, Row, RowsOf};

/// One hop on a color: a link, and the node that it leads to.
#[derive(Clone, Copy)]
pub struct ColorHop {
    pub link: LinkNo,
    pub to: NodeNo,
}

/// Where a packet for `t` goes from `at` on a color, by these rows (RFC 7812, section 5.2).
///
/// It takes the time of reading one row and one link.
pub fn next_hop<R: RowsOf>(g: &Graph, rows: &R, at: NodeNo, t: NodeNo, color: Color) -> ColorHop
    requires { IsSome (color_hop g.now.links (R.rows rows.now) color t at) }
    ensures hop { color_hop g.now.links (R.rows rows.now) color t at
        ≡ Some (record { link = result.link; to = result.to }) }
    ensures link { result.link < length g.now.links }
    ensures to { result.to < length g.now.ids }
{
    hop_over(g, at, link_on(color, &rows.row_for(at, t)))
}

/// The hop from a node over a link that touches it.
fn hop_over(g: &Graph, at: NodeNo, link: LinkNo) -> ColorHop
    requires { IsSome (hop_over g.now.links at link) }
    ensures hop { hop_over g.now.links at link
        ≡ Some (record { link = result.link; to = result.to }) }
    ensures link { result.link < length g.now.links }
    ensures to { result.to < length g.now.ids }
{
    let nodes = g.link(link);
    ColorHop {
        link,
        to: if nodes.a == at { nodes.b } else { nodes.a },
    }
}

/// The link of a color in a row.
fn link_on(color: Color, row: &Row) -> LinkNo
    ensures { result ≡ link_of_color color row.now }
{
    match color {
        Color::Blue => row.blue,
        Color::Red => row.red,
    }
}
