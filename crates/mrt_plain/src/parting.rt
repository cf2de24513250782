//! What separates two nodes.

ghost use Rattle.std.specs.Prelude.{◌<◌, ◌↔◌, IfOk, IsTrue};
ghost use Rattle.mrt_graph.specs.Separates.{IsNeitherEnd, Separates};
ghost use Rattle.mrt_plain.specs.Within.{AreWithin};

use crate::settling::settle;
use mrt_graph::{Element, Link, NoMemory, NodeNo};
use std::alloc::Global;

/// Whether `x` is a link, or a node other than `s` and `t`, that every walk from `s` to `t` uses.
///
/// It takes time in proportion to nodes times links at worst.
pub fn separates(
    alloc: Global,
    links: &[Link],
    count: u16,
    x: Element,
    s: NodeNo,
    t: NodeNo,
) -> Result<bool, NoMemory>
    requires within { AreWithin count links.now }
    requires source { s < count }
    requires target { t < count }
    ensures { IfOk result (λ yes. IsTrue yes ↔ Separates links.now x s t) }
{
    if !is_between(&x, s, t) {
        return Ok(false);
    }
    let reached = settle(alloc, links, count, &x, s)?;
    Ok(!reached[t.get() as usize])
}

/// Whether `x` is a link, or a node other than `s` and `t`.
fn is_between(x: &Element, s: NodeNo, t: NodeNo) -> bool
    ensures { IsTrue result ↔ IsNeitherEnd x.now s t }
{
    match x {
        Element::Link(_) => true,
        Element::Node(v) => *v != s && *v != t,
    }
}
