//! The marks of an ear's links.

ghost use Rattle.std.specs.Prelude.{◌≡◌, ◌≢◌, ◌<◌, ◌↔◌, ◌∷◌, ℕ, List, IsTrue, IsSome, Some, Contains, length, slice_get, slice_set};
ghost use Rattle.mrt_graph.specs.{declared.link.Link.Link};
ghost use Rattle.gadag_ears.specs.steps.Ear.{ear_of};
ghost use Rattle.gadag_ears.specs.Ear.{last_node, onward_link};
ghost use Rattle.gadag_ears.specs.HeadAndBlock.{BeginsBlock};
ghost use Rattle.gadag_ears.specs.steps.Marking.{AreEarMarked, AreSetAlong, IsMarkable, mark_along};

use crate::kind::EarKind;
use mrt_graph::{Graph, LinkNo, Mark, NodeNo, Role, Tree, Way};

/// Marks the links of an ear. Where a block has one link, it is directed from the head alone.
pub fn mark_ear(
    g: &Graph,
    tree: &Tree,
    kind: EarKind,
    marks: &mut Vec<Mark>,
    x: NodeNo,
    link: LinkNo,
    new: &[NodeNo],
    begins: bool,
)
    requires can { IsMarkable g.now tree.now kind x link new.now begins }
    requires one_each { length marks.old.items ≡ length g.now.links }
    ensures one_each { length marks.new.items ≡ length marks.old.items }
    ensures marked { (first stop : ℕ) (others : List ℕ) → new.now ≡ first ∷ others
        → (IsTrue begins ↔ BeginsBlock (ear_of kind x link first others stop))
        → AreEarMarked g.now tree.now (ear_of kind x link first others stop) marks.old.items marks.new.items }
{
    let last_node = new[new.len() - 1];
    let last = onward(tree, kind, last_node);
    if is_of_one_link(begins, last, link) {
        set_mark(g, marks, x, link, Role::Sole);
        return;
    }
    mark_way(g, tree, kind, marks, x, link, new, begins);
    if begins {
        set_mark(g, marks, last_node, last, Role::Closing);
    }
}

/// Whether an ear goes out and comes back by one link.
fn is_of_one_link(begins: bool, last: LinkNo, link: LinkNo) -> bool
    ensures { IsTrue result ↔ (IsTrue begins × (last ≡ link)) }
{
    begins && last == link
}

/// Directs the links of an ear along it.
fn mark_way(
    g: &Graph,
    tree: &Tree,
    kind: EarKind,
    marks: &mut Vec<Mark>,
    x: NodeNo,
    link: LinkNo,
    new: &[NodeNo],
    begins: bool,
)
    requires can { IsMarkable g.now tree.now kind x link new.now begins }
    requires not_sole { (v : ℕ) → Contains new.now v → onward_link kind tree.now v ≢ Some link }
    requires one_each { length marks.old.items ≡ length g.now.links }
    ensures { AreSetAlong g.now tree.now kind x link new.now marks.old.items marks.new.items }
{
    set_mark(g, marks, x, link, Role::Plain);
    for k in 0..new.len() {
        let over = onward(tree, kind, new[k]);
        set_mark(g, marks, new[k], over, Role::Plain);
    }
}

/// Marks a link as directed away from its node v. Its block comes later.
fn set_mark(g: &Graph, marks: &mut Vec<Mark>, v: NodeNo, e: LinkNo, role: Role)
    requires link { e < length g.now.links }
    requires one_each { length marks.old.items ≡ length g.now.links }
    ensures { (link : Link) → slice_get g.now.links e ≡ Some link
        → marks.new.items ≡ slice_set marks.old.items e (mark_along v link role) }
{
    let way = if g.link(e).a == v {
        Way::AToB
    } else {
        Way::BToA
    };
    marks[e.get() as usize] = Mark {
        way,
        role,
        block: v,
    };
}

/// The link over which an ear goes on from one of its new nodes.
pub fn onward(tree: &Tree, kind: EarKind, v: NodeNo) -> LinkNo
    requires within { v < length tree.now }
    requires some { IsSome (onward_link kind tree.now v) }
    ensures { onward_link kind tree.now v ≡ Some result }
{
    let node = tree.node(v);
    match kind {
        EarKind::Child => node.low_link.unwrap(),
        EarKind::Neighbour => node.parent.unwrap(),
    }
}
