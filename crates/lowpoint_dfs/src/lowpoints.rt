//! The lowpoints of the found nodes.

ghost use Rattle.std.specs.Prelude.{◌≡◌, ◌<◌, ◌==◌, ℕ, Contains, false, length};
ghost use Rattle.std.specs.{List.AllByRecursion};
ghost use Rattle.mrt_graph.specs.GraphInvariant.{IsTopology};
ghost use Rattle.lowpoint_dfs.specs.steps.Lowering.{AreAlike, AreNumbered, IsGiven, IsLowest, lowered};
ghost use Rattle.lowpoint_dfs.specs.Lowpoint.{HasLowpoint, is_parent_link, offer};

use mrt_graph::{End, Graph, LinkNo, NodeNo, TreeNode};

/// The least number that is known for a node, and the link that offers it; the parent link where that is the node's own.
#[derive(Drop)]
struct Lowest {
    low: u16,
    link: Option<LinkNo>,
}

/// Gives each node of the list its lowpoint. The list has parents before their children and is gone through from its
/// end, so that a node's children have theirs when its turn comes.
pub fn set_lowpoints(g: &Graph, nodes: &mut Vec<TreeNode>, order: &[NodeNo])
    requires kept { IsTopology g.now }
    requires one_each { length nodes.old.items ≡ length g.now.ids }
    requires numbered { AreNumbered g.now nodes.old.items order.now }
    ensures one_each { length nodes.new.items ≡ length nodes.old.items }
    ensures alike { AreAlike nodes.old.items nodes.new.items }
    ensures lowpoints { (v : ℕ) → Contains order.now v → HasLowpoint g.now nodes.new.items v }
{
    for place in (0..order.len()).rev() {
        let v = order[place];
        set_lowpoint(nodes, v, g.ends(v));
    }
}

/// Gives a node its lowpoint, where its children have theirs.
fn set_lowpoint(nodes: &mut Vec<TreeNode>, v: NodeNo, ends: &[End])
    requires node { v < length nodes.old.items }
    requires within { AllByRecursion (λ end. end.to < length nodes.old.items) ends.now }
    ensures { IsGiven nodes.old.items v ends.now nodes.new.items }
{
    let lowest = least_low(nodes, v, ends);
    let node = nodes[v.get() as usize];
    nodes[v.get() as usize] = TreeNode {
        number: node.number,
        parent: node.parent,
        low: lowest.low,
        low_link: lowest.link,
    };
}

/// The least of a node's number and of all offers of its ends.
fn least_low(nodes: &[TreeNode], v: NodeNo, ends: &[End]) -> Lowest
    requires node { v < length nodes.now }
    requires within { AllByRecursion (λ end. end.to < length nodes.now) ends.now }
    ensures { IsLowest nodes.now v ends.now (length ends.now) result }
{
    let node = nodes[v.get() as usize];
    let mut lowest = Lowest {
        low: node.number,
        link: node.parent,
    };
    for end in ends {
        lowest = lower(lowest, offer_of(nodes, v, end), end.link);
    }
    lowest
}

/// The lower one of what is known and an offer over a link.
fn lower(known: Lowest, offer: Option<u16>, link: LinkNo) -> Lowest
    ensures { result ≡ lowered known offer link }
{
    match offer {
        Some(low) if low < known.low => Lowest {
            low,
            link: Some(link),
        },
        _ => known,
    }
}

/// What an end offers its node v.
fn offer_of(nodes: &[TreeNode], v: NodeNo, end: &End) -> Option<u16>
    requires node { v < length nodes.now }
    requires to { end.now.to < length nodes.now }
    ensures { result ≡ offer nodes.now v end.now }
{
    if is_parent_link_of(nodes, v, end.link) {
        return None;
    }
    if is_parent_link_of(nodes, end.to, end.link) {
        return Some(nodes[end.to.get() as usize].low);
    }
    Some(nodes[end.to.get() as usize].number)
}

fn is_parent_link_of(nodes: &[TreeNode], v: NodeNo, link: LinkNo) -> bool
    requires { v < length nodes.now }
    ensures { result ≡ is_parent_link nodes.now v link }
{
    match nodes[v.get() as usize].parent {
        Some(parent) => parent == link,
        None => false,
    }
}
