//! Color walks.

ghost use Rattle.std.specs.Prelude.{◌≡◌, ◌<◌, IfOk, length};
ghost use Rattle.mrt_graph.specs.{Certificate.row_of, ColorWalk.color_walk, Uses.nodes_met, Walk.Walk};
ghost use Rattle.mrt_plain.specs.Within.{AreWithin};

use crate::hop::next_hop;
use mrt_graph::{Cert, Color, Link, LinkNo, NoMemory, NodeNo};
use std::alloc::Global;

/// A walk as a packet went it: the links that it went over, the nodes that it met, and the node where it stopped.
#[derive(Drop)]
pub struct Course {
    pub links: Vec<LinkNo>,
    pub nodes: Vec<NodeNo>,
    pub end: NodeNo,
}

/// The color walk from `s` to `t`.
///
/// It takes at most as many steps as there are nodes.
pub fn follow(
    alloc: Global,
    links: &[Link],
    c: &Cert,
    color: Color,
    s: NodeNo,
    t: NodeNo,
) -> Result<Course, NoMemory>
    requires within { AreWithin (length c.now.nodes) links.now }
    requires source { s < length c.now.nodes }
    requires target { t < length c.now.nodes }
    ensures links { IfOk result (λ course.
        course.links.items ≡ color_walk links.now (length c.now.nodes) (row_of c.now) color s t) }
    ensures nodes { IfOk result (λ course. course.nodes.items ≡ nodes_met links.now s course.links.items) }
    ensures end { IfOk result (λ course. Walk links.now s course.links.items course.end) }
{
    let mut gone = Vec::new(alloc);
    let mut met = Vec::new(alloc);
    let mut at = s;
    let mut left = u32::from(c.node_count());
    while let Some(hop) = next_hop(links, c, color, at, t, left) {
        gone.push(hop.link)?;
        met.push(at)?;
        at = hop.to;
        left -= 1;
    }
    met.push(at)?;
    Ok(Course {
        links: gone,
        nodes: met,
        end: at,
    })
}
