//! All turns.

ghost use Rattle.std.specs.Prelude.{◌<◌, IfOk, length};
ghost use Rattle.lowpoint_dfs.specs.SearchTree.{IsSearchTree};
ghost use Rattle.gadag_ears.specs.steps.Growing.{IsBeginning, IsEnded};

use crate::growing::Growing;
use crate::turn::take_turn;
use mrt_graph::{Graph, Mark, NoMemory, NodeNo, Place, Role, Tree, Way};
use std::alloc::Global;

/// Takes the turns of all nodes, from the root on.
pub fn take_turns(alloc: Global, g: &Graph, root: NodeNo, tree: &Tree) -> Result<Growing, NoMemory>
    requires root { root < length g.now.ids }
    requires tree { IsSearchTree g.now root tree.now }
    ensures { IfOk result (IsEnded g.now root tree.now) }
{
    let mut growing = begin(alloc, g, root)?;
    let mut here = root;
    while let Some(next) = take_turn(g, tree, &mut growing, here) {
        here = next;
    }
    Ok(growing)
}

/// The root alone.
fn begin(alloc: Global, g: &Graph, root: NodeNo) -> Result<Growing, NoMemory>
    requires { root < length g.now.ids }
    ensures { IfOk result (IsBeginning g.now root) }
{
    let count = g.node_count() as usize;
    let mut listed = vec![in alloc; false; count]?;
    listed[root.get() as usize] = true;
    let place = Place {
        head: root,
        block: root,
    };
    let places = vec![in alloc; place; count]?;
    let mark = Mark {
        way: Way::Unset,
        role: Role::Plain,
        block: root,
    };
    let marks = vec![in alloc; mark; g.link_count() as usize]?;
    let order = Vec::with_capacity(alloc, count)?;
    let waiting = Vec::with_capacity(alloc, count)?;
    let added = Vec::with_capacity(alloc, count)?;
    Ok(Growing {
        order,
        waiting,
        listed,
        places,
        marks,
        added,
    })
}
