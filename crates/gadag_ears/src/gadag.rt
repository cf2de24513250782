//! The GADAG of a graph.

ghost use Rattle.std.specs.Prelude.{◌<◌, IfOk, length};
ghost use Rattle.lowpoint_dfs.specs.SearchTree.{IsSearchTree};
ghost use Rattle.gadag_ears.specs.Gadag.{IsGadag};

use crate::blocks::give_blocks;
use crate::turns::take_turns;
use mrt_graph::{Gadag, Graph, NoMemory, NodeNo, Tree};
use std::alloc::Global;

/// The ears of a graph over its search tree: their order, the head and the block of each node, and the direction, the
/// role and the block of each link.
pub fn ears(alloc: Global, g: &Graph, root: NodeNo, tree: &Tree) -> Result<Gadag, NoMemory>
    requires root { root < length g.now.ids }
    requires tree { IsSearchTree g.now root tree.now }
    ensures { IfOk result (IsGadag g.now root tree.now) }
{
    let mut growing = take_turns(alloc, g, root, tree)?;
    give_blocks(g, &growing.places, &mut growing.marks);
    Ok(Gadag::new(growing.order, growing.places, growing.marks))
}
