//! The third and the fourth rule: heads, and the blocks of links.

ghost use Rattle.std.specs.Prelude.{IsTrue, ◌≡◌, ◌<◌, Some, MatchOption, length};
ghost use Rattle.cert_checker.specs.steps.Found.{FoundFirst};
ghost use Rattle.mrt_graph.specs.HeadsAndBlocks.{HeadFails, HeadFault, HeadHoldsAt, HeadsHold, link_placed, one_head, placed};
ghost use Rattle.mrt_graph.specs.{Places.EachPair, Related.is_common_block};

use crate::fault_at::FaultAt;
use crate::key_table::{KEYS, has_number, set_number};
use mrt_graph::{Cert, LinkNo, NodeNo};

/// The least node that is not placed, and 0; or the least in whose block there is a node of another head, and the least
/// such node.
pub(crate) fn head_fault(c: &Cert, root: NodeNo) -> Option<FaultAt>
    ensures { MatchOption result (HeadsHold c.now root)
        (λ place. HeadFault c.now root place.a place.b) }
{
    let agree = each_has_told_head(c);
    for a in 0..c.node_count() {
        if let Some(b) = head_fault_at(c, root, NodeNo::new(a), agree) {
            return Some(FaultAt { a, b });
        }
    }
    None
}

/// Whether each node has the head that the last node of its block has, so that all nodes of a block have one. It is one
/// pass.
#[inline(never)]
fn each_has_told_head(c: &Cert) -> bool
    ensures { IsTrue result → EachPair (one_head c.now) (length c.now.nodes) }
{
    let mut heads = [0; KEYS];
    for node in c.nodes() {
        set_number(&mut heads, node.block.get(), node.head.get());
    }
    for a in 0..c.node_count() {
        let node = c.node(NodeNo::new(a));
        if !has_number(&heads, node.block.get(), node.head.get()) {
            return false;
        }
    }
    true
}

/// Where the nodes of all blocks agree on their heads, a node needs no search.
fn head_fault_at(c: &Cert, root: NodeNo, a: NodeNo, agree: bool) -> Option<u16>
    requires within { a < length c.now.nodes }
    requires agree { IsTrue agree → EachPair (one_head c.now) (length c.now.nodes) }
    ensures { MatchOption result (HeadHoldsAt c.now root a) (HeadFails c.now root a) }
{
    if !is_placed(c, root, a) {
        return Some(0);
    }
    if agree {
        return None;
    }
    first_other_head(c, a)
}

fn is_placed(c: &Cert, root: NodeNo, a: NodeNo) -> bool
    requires { a < length c.now.nodes }
    ensures { result ≡ placed c.now root a }
{
    let node = c.node(a);
    if a == root {
        return node.head == root && node.block == root;
    }
    c.node(node.head).order < node.order && node.block != root
}

fn first_other_head(c: &Cert, a: NodeNo) -> Option<u16>
    requires { a < length c.now.nodes }
    ensures { FoundFirst (one_head c.now a) (length c.now.nodes) result }
{
    for b in 0..c.node_count() {
        if !have_one_head(c, a, NodeNo::new(b)) {
            return Some(b);
        }
    }
    None
}

/// Whether two nodes have one head, if they have one block.
fn have_one_head(c: &Cert, a: NodeNo, b: NodeNo) -> bool
    requires node { a < length c.now.nodes }
    requires other { b < length c.now.nodes }
    ensures { result ≡ one_head c.now a b }
{
    let node = c.node(a);
    let other = c.node(b);
    node.block != other.block || node.head == other.head
}

/// The least link whose block is not the common block of its two nodes.
pub(crate) fn first_misplaced_link(c: &Cert) -> Option<u16>
    ensures { FoundFirst (link_placed c.now) (length c.now.links) result }
{
    for e in 0..c.link_count() {
        if !is_link_placed(c, LinkNo::new(e)) {
            return Some(e);
        }
    }
    None
}

fn is_link_placed(c: &Cert, e: LinkNo) -> bool
    requires { e < length c.now.links }
    ensures { result ≡ link_placed c.now e }
{
    let link = c.link(e);
    has_common_block(c, link.a, link.b, link.block)
}

/// Whether `k` is the common block of the nodes `s` and `t`.
fn has_common_block(c: &Cert, s: NodeNo, t: NodeNo, k: NodeNo) -> bool
    requires source { s < length c.now.nodes }
    requires target { t < length c.now.nodes }
    ensures { result ≡ is_common_block c.now s t (Some k) }
{
    let from = c.node(s);
    let to = c.node(t);
    if from.block == to.block && k == from.block {
        return true;
    }
    if from.head == t && k == from.block {
        return true;
    }
    to.head == s && k == to.block
}
