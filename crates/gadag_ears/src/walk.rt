//! The way of an ear.

ghost use Rattle.std.specs.Prelude.{◌≡◌, ◌<◌, ◌≤◌, ℕ, List, false, IsSome, Some, length, slice_index_or, vec_capacity};
ghost use Rattle.gadag_ears.specs.Ear.{next_node};
ghost use Rattle.gadag_ears.specs.steps.Growing.{AreListed, IsLeaving, IsEarWay};

use crate::kind::EarKind;
use crate::marking::onward;
use mrt_graph::{Graph, NodeNo, Tree};

/// Goes on from the first node of an ear to the first node that is listed; it answers that node, and leaves the
/// nodes on the way, the new ones, in `new`.
pub fn walk(
    g: &Graph,
    tree: &Tree,
    kind: EarKind,
    listed: &[bool],
    new: &mut Vec<NodeNo>,
    first: NodeNo,
) -> NodeNo
    requires leaving { IsLeaving g.now tree.now kind listed.now first }
    requires room { length g.now.ids ≤ vec_capacity new.old }
    ensures way { (nodes : List ℕ) → AreListed listed.now nodes
        → IsEarWay g.now tree.now kind nodes first new.new.items result }
    ensures room { vec_capacity new.new ≡ vec_capacity new.old }
{
    new.clear();
    let mut here = first;
    'way: loop {
        new.push_reserved(here);
        let next = next_on(g, tree, kind, here);
        if is_listed(listed, next) {
            return next;
        }
        here = next;
    }
}

/// The node to which an ear goes on from here.
fn next_on(g: &Graph, tree: &Tree, kind: EarKind, here: NodeNo) -> NodeNo
    requires within { here < length tree.now }
    requires some { IsSome (next_node g.now tree.now kind here) }
    ensures { next_node g.now tree.now kind here ≡ Some result }
{
    let link = onward(tree, kind, here);
    g.other_node(link, here)
}

/// Whether a node is listed.
pub fn is_listed(listed: &[bool], v: NodeNo) -> bool
    requires { v < length listed.now }
    ensures { result ≡ slice_index_or listed.now v false }
{
    listed[v.get() as usize]
}
