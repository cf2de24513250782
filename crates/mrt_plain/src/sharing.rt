//! Color walks that share only what they must.

ghost use Rattle.std.specs.Prelude.{◌<◌, ◌↔◌, ℕ, IfOk, IsTrue, Contains, length};
ghost use Rattle.mrt_graph.specs.{Apart.Apart, Certificate.row_of, Separates.IsNeitherEnd, Separates.Separates};
ghost use Rattle.mrt_plain.specs.steps.PairWithin.{IsPairWithin};
ghost use Rattle.mrt_plain.specs.Within.{AreWithin};

use crate::pair::Pair;
use crate::parting::separates;
use crate::walking::follow;
use mrt_graph::{Cert, Color, Element, Link, LinkNo, NoMemory, NodeNo};
use std::alloc::Global;

/// Whether each link that both color walks from `s` to `t` use, and each node other than `s` and `t` that both use,
/// separates `s` and `t`.
///
/// It takes the time of `separates` for each link and node that both walks use.
pub fn apart(
    alloc: Global,
    links: &[Link],
    c: &Cert,
    s: NodeNo,
    t: NodeNo,
) -> Result<bool, NoMemory>
    requires within { AreWithin (length c.now.nodes) links.now }
    requires source { s < length c.now.nodes }
    requires target { t < length c.now.nodes }
    ensures { IfOk result (λ yes. IsTrue yes ↔ Apart links.now (length c.now.nodes) (row_of c.now) s t) }
{
    let count = c.node_count();
    let blue = follow(alloc, links, c, Color::Blue, s, t)?;
    let red = follow(alloc, links, c, Color::Red, s, t)?;
    let pair = Pair { links, count, s, t };
    if !shared_links_separate(alloc, &pair, &blue.links, &red.links)? {
        return Ok(false);
    }
    shared_nodes_separate(alloc, &pair, &blue.nodes, &red.nodes)
}

/// Whether each link of both lists separates the two.
fn shared_links_separate(
    alloc: Global,
    pair: &Pair,
    blue: &[LinkNo],
    red: &[LinkNo],
) -> Result<bool, NoMemory>
    requires { IsPairWithin pair.now }
    ensures { IfOk result (λ yes. IsTrue yes ↔
        ((e : ℕ) → Contains blue.now e → Contains red.now e
        → Separates pair.now.links.now (Element.Link e) pair.now.s pair.now.t)) }
{
    for e in blue {
        if !link_passes(alloc, pair, *e, red)? {
            return Ok(false);
        }
    }
    Ok(true)
}

/// Whether a link separates the two, if it is among the red ones.
fn link_passes(alloc: Global, pair: &Pair, e: LinkNo, red: &[LinkNo]) -> Result<bool, NoMemory>
    requires { IsPairWithin pair.now }
    ensures { IfOk result (λ yes. IsTrue yes ↔
        (Contains red.now e → Separates pair.now.links.now (Element.Link e) pair.now.s pair.now.t)) }
{
    if !red.contains(&e) {
        return Ok(true);
    }
    separates(
        alloc,
        pair.links,
        pair.count,
        Element::Link(e),
        pair.s,
        pair.t,
    )
}

/// Whether each node of both lists, other than the two, separates them.
fn shared_nodes_separate(
    alloc: Global,
    pair: &Pair,
    blue: &[NodeNo],
    red: &[NodeNo],
) -> Result<bool, NoMemory>
    requires { IsPairWithin pair.now }
    ensures { IfOk result (λ yes. IsTrue yes ↔
        ((v : ℕ) → Contains blue.now v → Contains red.now v
        → IsNeitherEnd (Element.Node v) pair.now.s pair.now.t
        → Separates pair.now.links.now (Element.Node v) pair.now.s pair.now.t)) }
{
    for v in blue {
        if !node_passes(alloc, pair, *v, red)? {
            return Ok(false);
        }
    }
    Ok(true)
}

/// Whether a node separates the two, if it is among the red ones and is none of them.
fn node_passes(alloc: Global, pair: &Pair, v: NodeNo, red: &[NodeNo]) -> Result<bool, NoMemory>
    requires { IsPairWithin pair.now }
    ensures { IfOk result (λ yes. IsTrue yes ↔
        (Contains red.now v → IsNeitherEnd (Element.Node v) pair.now.s pair.now.t
        → Separates pair.now.links.now (Element.Node v) pair.now.s pair.now.t)) }
{
    if !red.contains(&v) {
        return Ok(true);
    }
    if v == pair.s || v == pair.t {
        return Ok(true);
    }
    separates(
        alloc,
        pair.links,
        pair.count,
        Element::Node(v),
        pair.s,
        pair.t,
    )
}
