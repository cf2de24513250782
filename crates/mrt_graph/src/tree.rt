//! The search tree: what the search over a graph says of each node.

use crate::numbers::{LinkNo, NodeNo};
use std::marker::Model;

/// What the search says of one node: its number, the link over which it was found, its lowpoint, and the lowpoint's
/// link (RFC 7811, section 4.3). Where the lowpoint is the node's own number, that is the link over which it was found.
#[derive(Clone, Copy, PartialEq, Eq)]
pub struct TreeNode {
    pub number: u16,
    pub parent: Option<LinkNo>,
    pub low: u16,
    pub low_link: Option<LinkNo>,
}

/// What the search says of each node, by the node's place in the graph.
#[derive(Drop)]
pub struct Tree {
    nodes: Vec<TreeNode>,
}

impl Model for Tree {
    ghost use Rattle.std.specs.Prelude.{List};
    ghost use Rattle.mrt_graph.specs.declared.tree.TreeNode.{TreeNode};

    ghost Value = { List TreeNode };

    ghost view = { λ tree. tree.nodes.items };
}

impl Tree {
    ghost use Rattle.std.specs.Prelude.{◌≡◌, ◌<◌, Some, length, slice_get};

    /// The tree that says this of the nodes.
    pub fn new(nodes: Vec<TreeNode>) -> Tree
        ensures { result ≡ nodes.items }
    {
        Tree { nodes }
    }

    /// What it says of a node.
    pub fn node(&self, n: NodeNo) -> TreeNode
        requires { n < length self.now }
        ensures { slice_get self.now n ≡ Some result }
    {
        self.nodes[n.get() as usize]
    }
}
