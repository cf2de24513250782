//! What a color uses on its way.

ghost use Rattle.std.specs.Prelude.{◌<◌, ◌↔◌, ◌≢◌, ℕ, IsTrue, length};
ghost use Rattle.mrt_graph.specs.{Alternate.UsesOn, Separates.IsNeitherEnd, Sound.SoundFor};
ghost use Rattle.primary_alt.specs.Meets.{IsOver};

use crate::color_hops::{ColorHop, next_hop};
use mrt_graph::{Color, Element, Graph, NodeNo, RowsOf};

/// Whether the color walk from `s` to `t` uses `x`, which is neither `s` nor `t`.
///
/// It follows the walk, so it takes at most as many steps as there are nodes.
pub fn uses<R: RowsOf>(g: &Graph, rows: &R, s: NodeNo, t: NodeNo, x: &Element, color: Color) -> bool
    requires sound { (at : ℕ) → at < length g.now.ids → at ≢ t
        → SoundFor g.now.links (length g.now.ids) (R.rows rows.now) at t }
    requires source { s < length g.now.ids }
    requires between { IsNeitherEnd x.now s t }
    ensures { IsTrue result
        ↔ UsesOn g.now.links (length g.now.ids) (R.rows rows.now) s t x.now color }
{
    let mut at = s;
    let mut left = g.node_count();
    while left > 0 && at != t {
        let hop = next_hop(g, rows, at, t, color);
        if is_over(&hop, x) {
            return true;
        }
        at = hop.to;
        left -= 1;
    }
    false
}

/// Whether the element is the link of a hop, or the node that it leads to.
pub fn is_over(hop: &ColorHop, x: &Element) -> bool
    ensures { IsTrue result ↔ IsOver hop.now.link hop.now.to x.now }
{
    match x {
        Element::Link(link) => *link == hop.link,
        Element::Node(node) => *node == hop.to,
    }
}
