//! The search with its lowpoints.

ghost use Rattle.std.specs.Prelude.{◌<◌, IfOk, length};
ghost use Rattle.lowpoint_dfs.specs.SearchTree.{IsSearchTree};

use crate::finding::find_nodes;
use crate::lowpoints::set_lowpoints;
use mrt_graph::{Graph, NoMemory, NodeNo, Tree};
use std::alloc::Global;

/// Searches a graph depth first from its root, taking the ends of each node in interface order, and gives each node its
/// number, its parent link and its lowpoint (RFC 7811, sections 4.3 and 5.5).
///
/// It takes time in proportion to nodes and links. It keeps no stack, and takes all its memory at the start.
///
/// # Example
///
/// All metrics are equal, and the root is node 0.
///
/// ```text
///     0 --- link 0 --- 1 --- link 1 --- 2
///                        \              |
///                         link 2      link 3
///                             \        |
///                              \------ 3
///
///     node   number   parent   lowpoint   its link
///     0      1        none     1          none
///     1      2        link 0   2          link 0, since no lower number is offered
///     2      3        link 1   2          link 3, to the child 3, whose lowpoint is 2
///     3      4        link 3   2          link 2, to node 1
/// ```
pub fn search(alloc: Global, g: &Graph, root: NodeNo) -> Result<Tree, NoMemory>
    requires { root < length g.now.ids }
    ensures { IfOk result (IsSearchTree g.now root) }
{
    let mut found = find_nodes(alloc, g, root)?;
    set_lowpoints(g, &mut found.nodes, &found.order);
    Ok(Tree::new(found.nodes))
}
