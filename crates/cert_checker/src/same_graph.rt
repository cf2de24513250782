//! The first rule: the certificate speaks of this graph.

ghost use Rattle.std.specs.Prelude.{◌≡◌, ◌<◌, length, MatchBool, MatchOption};
ghost use Rattle.cert_checker.specs.steps.Found.{FoundFirst};
ghost use Rattle.mrt_graph.specs.SameGraph.{GraphFault, SameCounts, SameGraph, same_id, same_link, same_node};

use crate::fault_at::FaultAt;
use mrt_graph::{Cert, Graph, LinkNo, NodeId, NodeNo};

/// Other counts at 0 and 2; the least node with another identifier, and 0; the least link with other nodes, and 1.
pub(crate) fn graph_fault(g: &Graph, c: &Cert) -> Option<FaultAt>
    ensures { MatchOption result (SameGraph g.now c.now)
        (λ place. GraphFault g.now c.now place.a place.b) }
{
    if !counts_agree(g, c) {
        return Some(FaultAt { a: 0, b: 2 });
    }
    if let Some(a) = first_other_node(g, c) {
        return Some(FaultAt { a, b: 0 });
    }
    if let Some(a) = first_other_link(g, c) {
        return Some(FaultAt { a, b: 1 });
    }
    None
}

fn counts_agree(g: &Graph, c: &Cert) -> bool
    ensures { MatchBool result (SameCounts g.now c.now) (SameCounts g.now c.now → ⊥) }
{
    if c.node_count() != g.node_count() {
        return false;
    }
    if c.link_count() != g.link_count() {
        return false;
    }
    true
}

fn first_other_node(g: &Graph, c: &Cert) -> Option<u16>
    requires { SameCounts g.now c.now }
    ensures { FoundFirst (same_node g.now c.now) (length c.now.nodes) result }
{
    for a in 0..c.node_count() {
        if !node_agrees(g, c, NodeNo::new(a)) {
            return Some(a);
        }
    }
    None
}

fn node_agrees(g: &Graph, c: &Cert, a: NodeNo) -> bool
    requires counts { SameCounts g.now c.now }
    requires within { a < length c.now.nodes }
    ensures { result ≡ same_node g.now c.now a }
{
    ids_agree(g.id(a), c.node(a).id)
}

fn ids_agree(id: NodeId, other: NodeId) -> bool
    ensures { result ≡ same_id id other }
{
    id.number == other.number && id.kind as u8 == other.kind as u8
}

fn first_other_link(g: &Graph, c: &Cert) -> Option<u16>
    requires { SameCounts g.now c.now }
    ensures { FoundFirst (same_link g.now c.now) (length c.now.links) result }
{
    for e in 0..c.link_count() {
        if !link_agrees(g, c, LinkNo::new(e)) {
            return Some(e);
        }
    }
    None
}

fn link_agrees(g: &Graph, c: &Cert, e: LinkNo) -> bool
    requires counts { SameCounts g.now c.now }
    requires within { e < length c.now.links }
    ensures { result ≡ same_link g.now c.now e }
{
    let link = g.link(e);
    let words = c.link(e);
    link.a == words.a && link.b == words.b
}
