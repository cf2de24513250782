//! The directions of a graph from a root.

ghost use Rattle.std.specs.Prelude.{◌<◌, IfOk, length};
ghost use Rattle.mrt_graph.specs.GraphInvariant.{IsTopology};
ghost use Rattle.link_direction.specs.OrderedGadag.{SaysOrdered};
ghost use Rattle.mrt_rows.specs.DirectedFrom.{IsDirectedFrom};
ghost use Rattle.mrt_rows.specs.steps.NearOf.{IsPlaceOf};
ghost use Rattle.mrt_rows.specs.steps.ListedDirections.{IsNode, IsRooted, directions_by};

use gadag_ears::ears;
use link_direction::direct;
use lowpoint_dfs::search;
use mrt_graph::{Directed, Graph, NoMemory, NodeNo, Place};
use std::alloc::Global;

/// A graph, its root, and its directions from it.
#[derive(Clone, Copy)]
pub struct Rooted<'a> {
    pub graph: &'a Graph,
    pub root: NodeNo,
    pub directed: &'a Directed,
}

impl<'a> Rooted<'a> {
    /// The head and the block of node v.
    pub fn place(&self, v: NodeNo) -> Place
        requires rooted { IsRooted self.now }
        requires node { IsNode self.now v }
        ensures { IsPlaceOf (directions_by self.now) v result }
    {
        self.directed.place(v)
    }
}

/// The order of a graph's nodes and the directions of its links: the search from a root, the ears, and the order.
///
/// It takes time in proportion to the nodes and the links.
pub fn directions(alloc: Global, g: &Graph, root: NodeNo) -> Result<Directed, NoMemory>
    requires { root < length g.now.ids }
    ensures made { IfOk result (IsDirectedFrom g.now root) }
    ensures ordered { IfOk result (SaysOrdered g.now root) }
    ensures kept { IsTopology g.now }
{
    // what each graph keeps is told by reading it
    let _count = g.node_count();
    let tree = search(alloc, g, root)?;
    let gadag = ears(alloc, g, root, &tree)?;
    let d = direct(alloc, g, root, gadag)?;
    Ok(d)
}
