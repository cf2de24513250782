//! Color walks that arrive.

ghost use Rattle.std.specs.Prelude.{◌<◌, ◌↔◌, IfOk, IsTrue, length};
ghost use Rattle.mrt_graph.specs.{Certificate.row_of, Reaches.AreDifferent, Reaches.Reaches};
ghost use Rattle.mrt_plain.specs.Within.{AreWithin};

use crate::walking::follow;
use mrt_graph::{Cert, Color, Link, NoMemory, NodeNo};
use std::alloc::Global;

/// Whether the color walk from `s` ends at `t` and meets no node twice.
///
/// It takes time in proportion to the square of the nodes at worst.
pub fn reaches(
    alloc: Global,
    links: &[Link],
    c: &Cert,
    color: Color,
    s: NodeNo,
    t: NodeNo,
) -> Result<bool, NoMemory>
    requires within { AreWithin (length c.now.nodes) links.now }
    requires source { s < length c.now.nodes }
    requires target { t < length c.now.nodes }
    ensures { IfOk result (λ yes. IsTrue yes ↔ Reaches links.now (length c.now.nodes) (row_of c.now) color s t) }
{
    let course = follow(alloc, links, c, color, s, t)?;
    if course.end != t {
        return Ok(false);
    }
    Ok(are_different(&course.nodes))
}

/// Whether no two of the nodes are the same.
fn are_different(nodes: &[NodeNo]) -> bool
    ensures { IsTrue result ↔ AreDifferent nodes.now }
{
    for later in 0..nodes.len() {
        if nodes[..later].contains(&nodes[later]) {
            return false;
        }
    }
    true
}
