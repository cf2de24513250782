//! Up and down, the nodes by their turns, and where the paths from a node lead or those to a node begin.

ghost use Rattle.std.specs.Prelude.{◌≡◌, ◌≤◌, ℕ, IfOk, length};
ghost use Rattle.link_direction.specs.Directions.{Directions};
ghost use Rattle.block_spf.specs.{HasDirections.AreDirections, HasDirections.HasDirections, Turns.AreTurns, Turns.turn_at};

use mrt_graph::{Directed, Graph, LinkNo, NoMemory, NodeNo};
use std::alloc::Global;
use std::marker::Model;

/// Along the directions of links, or against them.
#[derive(Clone, Copy)]
pub enum Dir {
    Up,
    Down,
}

impl Dir {
    ghost use Rattle.std.specs.Prelude.{◌≡◌};
    ghost use Rattle.block_spf.specs.Against.{against};

    /// The other direction.
    pub(crate) fn against(self) -> Dir
        ensures { result ≡ against self }
    {
        match self {
            Dir::Up => Dir::Down,
            Dir::Down => Dir::Up,
        }
    }
}

/// The nodes by their turns: up, by ascending order; down, by descending order.
///
/// It takes time in proportion to the nodes.
pub fn nodes_by_turn(
    alloc: Global,
    g: &Graph,
    d: &Directed,
    dir: Dir,
) -> Result<Vec<NodeNo>, NoMemory>
    requires { HasDirections g.now d.now }
    ensures { (root : ℕ) (w : Directions) → AreDirections g.now d.now root w
        → IfOk result (λ turns. AreTurns g.now w dir turns.items) }
{
    let count = g.node_count();
    let mut turns = vec![in alloc; NodeNo::new(0); count as usize]?;
    for n in 0..count {
        let node = NodeNo::new(n);
        turns[turn(d.order(node), count, dir)] = node;
    }
    Ok(turns)
}

/// The turn of a node with this order, of so many nodes.
fn turn(order: u16, count: u16, dir: Dir) -> usize
    requires low { 1 ≤ order }
    requires high { order ≤ count }
    ensures { result ≡ turn_at dir count order }
{
    match dir {
        Dir::Up => order as usize - 1,
        Dir::Down => count as usize - order as usize,
    }
}

/// The cost of a least path, and the link of its first end.
#[derive(Clone, Copy)]
pub struct Hop {
    pub cost: u32,
    pub link: LinkNo,
}

/// One entry for each node, by number: as the destination of one source, or the source for one destination; none without a path.
#[derive(Drop)]
pub struct Reach {
    pub(crate) hops: Vec<Option<Hop>>,
}

impl Model for Reach {
    ghost use Rattle.std.specs.Prelude.{List, Option};
    ghost use Rattle.block_spf.specs.declared.reach.Hop.{Hop};

    ghost Value = { List (Option Hop) };

    ghost view = { λ reach. reach.hops.items };
}

impl Reach {
    ghost use Rattle.std.specs.Prelude.{◌≡◌, ◌<◌, Some, length, slice_get};

    /// The hop of the least path to node t or, where the entries are for one destination, from node t, if there is one.
    pub fn hop(&self, t: NodeNo) -> Option<Hop>
        requires { t < length self.now }
        ensures { slice_get self.now t ≡ Some result }
    {
        self.hops[t.get() as usize]
    }
}
