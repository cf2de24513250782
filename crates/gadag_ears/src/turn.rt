//! The turns of the nodes.

ghost use Rattle.std.specs.Prelude.{◌≡◌, ◌<◌, ◌+◌, ◌↔◌, ℕ, IsTrue, IfSome, IfNone, Some, true, false, length};
ghost use Rattle.lowpoint_dfs.specs.Subtree.{parent_of};
ghost use Rattle.gadag_ears.specs.steps.Growing.{AreAllMarked, HasRoom, HasSearch, HasTurn, IsAtEnd, IsEnded, IsMarked, IsEarTurn};

use crate::growing::{Growing, grow};
use crate::kind::EarKind;
use crate::walk::is_listed;
use mrt_graph::{End, Graph, NodeNo, Tree};

/// The turn of x. It answers the node whose turn is next, None where all turns are over.
pub fn take_turn(g: &Graph, tree: &Tree, growing: &mut Growing, x: NodeNo) -> Option<NodeNo>
    requires turn { HasTurn g.now tree.now x growing.old }
    requires room { HasRoom (length g.now.ids) growing.old }
    ensures onward { IfSome result (λ next. (root : ℕ) → IsEarTurn g.now root tree.now x growing.old
        → IsEarTurn g.now root tree.now next growing.new) }
    ensures ended { IfNone result ((root : ℕ) → IsEarTurn g.now root tree.now x growing.old
        → IsEnded g.now root tree.now growing.new) }
    ensures room { HasRoom (length g.now.ids) growing.new }
    ensures longer { length growing.new.order.items ≡ length growing.old.order.items + 1 }
{
    child_ears(g, tree, growing, x);
    neighbour_ears(g, tree, growing, x);
    growing.order.push_reserved(x);
    growing.waiting.pop()
}

/// Brings the child ears of x.
fn child_ears(g: &Graph, tree: &Tree, growing: &mut Growing, x: NodeNo)
    requires turn { HasTurn g.now tree.now x growing.old }
    requires room { HasRoom (length g.now.ids) growing.old }
    ensures turn { (root : ℕ) → IsEarTurn g.now root tree.now x growing.old
        → IsEarTurn g.now root tree.now x growing.new }
    ensures room { HasRoom (length g.now.ids) growing.new }
    ensures order { growing.new.order ≡ growing.old.order }
    ensures children { (v : ℕ) → parent_of g.now tree.now v ≡ Some x
        → IsMarked growing.new.listed.items v }
{
    let ends = g.ends(x);
    for end in ends {
        child_ear(g, tree, growing, x, end);
    }
}

/// Brings the child ear of x over this end, if it leads to a child that is not listed.
fn child_ear(g: &Graph, tree: &Tree, growing: &mut Growing, x: NodeNo, end: &End)
    requires turn { HasTurn g.now tree.now x growing.old }
    requires room { HasRoom (length g.now.ids) growing.old }
    requires at { IsAtEnd g.now (λ other. parent_of g.now tree.now other.to ≡ Some x
        → IsMarked growing.old.listed.items other.to) x end.now }
    ensures turn { (root : ℕ) → IsEarTurn g.now root tree.now x growing.old
        → IsEarTurn g.now root tree.now x growing.new }
    ensures room { HasRoom (length g.now.ids) growing.new }
    ensures order { growing.new.order ≡ growing.old.order }
    ensures grows { (v : ℕ) → IsMarked growing.old.listed.items v → IsMarked growing.new.listed.items v }
    ensures child { parent_of g.now tree.now end.now.to ≡ Some x
        → IsMarked growing.new.listed.items end.now.to }
{
    if is_new_child(g, tree, &growing.listed, x, end.to) {
        grow(g, tree, EarKind::Child, growing, x, end.link, end.to);
    }
}

/// Brings the neighbour ears of x, where its children are listed.
fn neighbour_ears(g: &Graph, tree: &Tree, growing: &mut Growing, x: NodeNo)
    requires turn { HasTurn g.now tree.now x growing.old }
    requires room { HasRoom (length g.now.ids) growing.old }
    requires children { (v : ℕ) → parent_of g.now tree.now v ≡ Some x
        → IsMarked growing.old.listed.items v }
    ensures turn { (root : ℕ) → IsEarTurn g.now root tree.now x growing.old
        → IsEarTurn g.now root tree.now x growing.new }
    ensures room { HasRoom (length g.now.ids) growing.new }
    ensures order { growing.new.order ≡ growing.old.order }
    ensures done { AreAllMarked g.now x growing.new.listed.items }
{
    let ends = g.ends(x);
    for end in ends {
        neighbour_ear(g, tree, growing, x, end);
    }
}

/// Brings the neighbour ear of x over this end, if it leads to a node that is not listed.
fn neighbour_ear(g: &Graph, tree: &Tree, growing: &mut Growing, x: NodeNo, end: &End)
    requires turn { HasTurn g.now tree.now x growing.old }
    requires room { HasRoom (length g.now.ids) growing.old }
    requires children { (v : ℕ) → parent_of g.now tree.now v ≡ Some x
        → IsMarked growing.old.listed.items v }
    requires at { IsAtEnd g.now (λ other. IsMarked growing.old.listed.items other.to) x end.now }
    ensures turn { (root : ℕ) → IsEarTurn g.now root tree.now x growing.old
        → IsEarTurn g.now root tree.now x growing.new }
    ensures room { HasRoom (length g.now.ids) growing.new }
    ensures order { growing.new.order ≡ growing.old.order }
    ensures grows { (v : ℕ) → IsMarked growing.old.listed.items v → IsMarked growing.new.listed.items v }
    ensures entered { IsMarked growing.new.listed.items end.now.to }
{
    if !is_listed(&growing.listed, end.to) {
        grow(g, tree, EarKind::Neighbour, growing, x, end.link, end.to);
    }
}

/// Whether v is a child of x that is not listed.
fn is_new_child(g: &Graph, tree: &Tree, listed: &[bool], x: NodeNo, v: NodeNo) -> bool
    requires search { HasSearch g.now tree.now }
    requires within { v < length g.now.ids }
    requires one_mark_each { length listed.now ≡ length g.now.ids }
    ensures child { result ≡ true → parent_of g.now tree.now v ≡ Some x }
    ensures outside { result ≡ true → ¬ IsMarked listed.now v }
    ensures others { result ≡ false → parent_of g.now tree.now v ≡ Some x → IsMarked listed.now v }
{
    if is_listed(listed, v) {
        return false;
    }
    is_parent(g, tree, x, v)
}

/// Whether x is the parent of v.
fn is_parent(g: &Graph, tree: &Tree, x: NodeNo, v: NodeNo) -> bool
    requires search { HasSearch g.now tree.now }
    requires within { v < length g.now.ids }
    ensures { IsTrue result ↔ (parent_of g.now tree.now v ≡ Some x) }
{
    match tree.node(v).parent {
        Some(link) => g.other_node(link, v) == x,
        None => false,
    }
}
