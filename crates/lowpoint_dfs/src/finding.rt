//! In which order the search finds the nodes, and over which links.

ghost use Rattle.std.specs.Prelude.{
  ◌≡◌,
  ◌<◌,
  ◌≤◌,
  ◌+◌,
  ◌-◌,
  ◌++◌,
  ◌^◌,
  ℕ,
  [],
  ◌∷◌,
  IfOk,
  IfSome,
  IfNone,
  IsSome,
  Some,
  length,
  nat_lt,
  slice_get,
  slice_index_or,
  slice_set,
  vec_capacity,
};
ghost use Rattle.std.specs.List.{AllByRecursion};
ghost use Rattle.mrt_graph.specs.declared.link.End.{End};
ghost use Rattle.mrt_graph.specs.GraphInvariant.{IsTopology};
ghost use Rattle.mrt_graph.specs.TreeFields.{search_number};
ghost use Rattle.lowpoint_dfs.specs.Subtree.{parent_of};
ghost use Rattle.lowpoint_dfs.specs.steps.Finding.{IsFinished, IsSearching, LeadToFound, found_node, left_at};

use mrt_graph::{End, Graph, LinkNo, NoMemory, NodeNo, TreeNode};
use std::alloc::Global;

/// A node that the search has not found.
const NOT_FOUND: TreeNode = TreeNode {
    number: 0,
    parent: None,
    low: 0,
    low_link: None,
};

/// What a search has found: of each node its number and its parent link; and the nodes in the order of their numbers.
#[derive(Drop)]
pub struct Found {
    pub nodes: Vec<TreeNode>,
    pub order: Vec<NodeNo>,
}

/// Finds the nodes of a graph, depth first from its root.
///
/// It needs no stack: the way back from a node is its parent link. Of each node it keeps how many ends it has passed.
pub fn find_nodes(alloc: Global, g: &Graph, root: NodeNo) -> Result<Found, NoMemory>
    requires { root < length g.now.ids }
    ensures finished { IfOk result
        (λ found. IsFinished g.now root found.nodes.items found.order.items) }
    ensures kept { IsTopology g.now }
{
    let count = g.node_count() as usize;
    let mut nodes = vec![in alloc; NOT_FOUND; count]?;
    let mut passed = vec![in alloc; 0; count]?;
    let mut order = Vec::with_capacity(alloc, count)?;
    find(&mut nodes, &mut order, root, None);
    let mut here = root;
    while let Some(next) = step(g, root, &mut nodes, &mut order, &mut passed, here) {
        here = next;
    }
    Ok(Found { nodes, order })
}

/// Finds the next node from here, if an end leads to one; else goes back. It answers where the search is then, None
/// where it has come back to the root and found all.
fn step(
    g: &Graph,
    root: NodeNo,
    nodes: &mut Vec<TreeNode>,
    order: &mut Vec<NodeNo>,
    passed: &mut Vec<usize>,
    here: NodeNo,
) -> Option<NodeNo>
    requires kept { IsTopology g.now }
    requires root { root < length g.now.ids }
    requires searching { IsSearching g.now root nodes.old.items order.old.items passed.old.items
        here }
    requires room { length g.now.ids ≤ vec_capacity order.old }
    ensures onward { IfSome result (IsSearching g.now root nodes.new.items order.new.items
        passed.new.items) }
    ensures finished { IfNone result (IsFinished g.now root nodes.new.items order.new.items) }
    ensures room { length g.now.ids ≤ vec_capacity order.new }
    ensures left { IfSome result
        (λ next. left_at nodes.new.items next < left_at nodes.old.items here) }
{
    let ends = g.ends(here);
    let place = look_on(nodes, ends, passed, here);
    if place < ends.len() {
        let end = &ends[place];
        find(nodes, order, end.to, Some(end.link));
        return Some(end.to);
    }
    if here == root {
        return None;
    }
    Some(parent(g, nodes, here))
}

/// Passes the ends of a node, from where it was left, until one leads to a node that is not found. It answers that
/// end's place, or the count of ends where there is none.
fn look_on(nodes: &[TreeNode], ends: &[End], passed: &mut Vec<usize>, here: NodeNo) -> usize
    requires within { AllByRecursion (λ end. end.to < length nodes.now) ends.now }
    requires here { here < length passed.old.items }
    ensures passed { passed.new.items ≡ slice_set passed.old.items here result }
    ensures inside { LeadToFound nodes.now ends.now (slice_index_or passed.old.items here 0)
        result }
    ensures outside { (end : End) → slice_get ends.now result ≡ Some end
        → search_number nodes.now end.to ≡ 0 }
{
    let at = here.get() as usize;
    let place = first_outside(nodes, ends, passed[at]);
    passed[at] = place;
    place
}

/// The place of the first end, from `from` on, that leads to a node that is not found; the count of ends where none
/// does.
fn first_outside(nodes: &[TreeNode], ends: &[End], from: usize) -> usize
    requires { AllByRecursion (λ end. end.to < length nodes.now) ends.now }
    ensures inside { LeadToFound nodes.now ends.now from result }
    ensures outside { (end : End) → slice_get ends.now result ≡ Some end
        → search_number nodes.now end.to ≡ 0 }
{
    for place in from..ends.len() {
        if !is_found(nodes, ends[place].to) {
            return place;
        }
    }
    ends.len()
}

fn is_found(nodes: &[TreeNode], v: NodeNo) -> bool
    requires { v < length nodes.now }
    ensures { result ≡ nat_lt 0 (search_number nodes.now v) }
{
    nodes[v.get() as usize].number > 0
}

/// Gives a node the next number and its parent link.
fn find(nodes: &mut Vec<TreeNode>, order: &mut Vec<NodeNo>, v: NodeNo, link: Option<LinkNo>)
    requires within { v < length nodes.old.items }
    requires small { length order.old.items < 2 ^ 16 - 1 }
    requires room { length order.old.items < vec_capacity order.old }
    ensures nodes { nodes.new.items
        ≡ slice_set nodes.old.items v (found_node (length order.old.items + 1) link) }
    ensures order { order.new.items ≡ order.old.items ++ v ∷ [] }
    ensures room { vec_capacity order.new ≡ vec_capacity order.old }
{
    let number = order.len() as u16 + 1;
    let low_link = link;
    nodes[v.get() as usize] = TreeNode {
        number,
        parent: link,
        low: number,
        low_link,
    };
    order.push_reserved(v);
}

/// The parent of a node that has one.
fn parent(g: &Graph, nodes: &[TreeNode], v: NodeNo) -> NodeNo
    requires node { v < length nodes.now }
    requires some { IsSome (parent_of g.now nodes.now v) }
    ensures { parent_of g.now nodes.now v ≡ Some result }
{
    let link = nodes[v.get() as usize].parent.unwrap();
    g.other_node(link, v)
}
