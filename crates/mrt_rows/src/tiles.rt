//! Tiles up and down, and what they are aimed at.

ghost use Rattle.std.specs.Prelude.{◌≡◌, ◌<◌, ◌*◌, ℕ, IfOk, IsTrue, length, slice_index};
ghost use Rattle.block_spf.specs.declared.reach.Dir.TheVariants.{Down, Up};
ghost use Rattle.block_spf.specs.Turns.{AreTurns};
ghost use Rattle.mrt_rows.specs.Put.{AreHeadsMarked};
ghost use Rattle.mrt_rows.specs.steps.ListedDirections.{IsRooted, directions_by};
ghost use Rattle.mrt_rows.specs.TilesAimed.{AreShared, AreTiles, AreTilesAimed, HaveLinksAt, HavePlace};

use crate::directed::Rooted;
use crate::row_over::FirstLinks;
use block_spf::{Aiming, Dir, Tile};
use mrt_graph::{NoMemory, NodeNo};
use std::alloc::Global;

/// What the blocks of a graph aim at, at some places side by side; marks on blocks; and tiles that are aimed so in the marked ones.
pub struct Tiles {
    pub aims: Vec<NodeNo>,
    pub wanted: Vec<bool>,
    pub up: Tile,
    pub down: Tile,
}

impl Drop for Tiles {
    fn drop(self) {
        let Self {
            aims: _,
            wanted: _,
            up: _,
            down: _,
        } = self;
    }
}

impl Tiles {
    /// Tiles of this width, in which no block is marked.
    ///
    /// It takes time and memory in proportion to the nodes times the width.
    pub fn new(alloc: Global, rooted: &Rooted, width: u16) -> Result<Tiles, NoMemory>
        ensures { IfOk result (AreTiles rooted.now.graph.now width) }
    {
        let count = rooted.graph.node_count() as usize;
        let aims = vec![in alloc; rooted.root; count * width as usize]?;
        let wanted = vec![in alloc; false; count]?;
        let up = Tile::new(alloc, rooted.graph, width)?;
        let down = Tile::new(alloc, rooted.graph, width)?;
        Ok(Tiles {
            aims,
            wanted,
            up,
            down,
        })
    }

    /// Aims the tiles in the marked blocks at what these aim at. It is given the nodes by ascending and by descending order, and
    /// marks on the heads of blocks of more than one link.
    ///
    /// It takes time in proportion to the nodes, and to the ends of those in the marked blocks and of the heads times the width.
    pub fn aim(
        &mut self,
        rooted: &Rooted,
        by_order: &[NodeNo],
        against_order: &[NodeNo],
        heads: &[bool],
    )
        requires rooted { IsRooted rooted.now }
        requires by_order { AreTurns rooted.now.graph.now (directions_by rooted.now) Up by_order.now }
        requires against_order { AreTurns rooted.now.graph.now (directions_by rooted.now) Down against_order.now }
        requires a_mark_each { length heads.now ≡ length rooted.now.graph.now.ids }
        requires heads { AreHeadsMarked rooted.now.graph.now (directions_by rooted.now) heads.now }
        requires tiles { AreTiles rooted.now.graph.now self.old.up.width self.old }
        ensures tiles { (places : ℕ) → AreTiles rooted.now.graph.now places self.old
            → AreTiles rooted.now.graph.now places self.new }
        ensures aims { self.new.aims.items ≡ self.old.aims.items }
        ensures wanted { self.new.wanted.items ≡ self.old.wanted.items }
        ensures aimed { AreTilesAimed rooted.now.graph.now (directions_by rooted.now) self.new }
    {
        let up = Aiming {
            graph: rooted.graph,
            directed: rooted.directed,
            dir: Dir::Up,
            turns: against_order,
            aims: self.aims.as_slice(),
            wanted: self.wanted.as_slice(),
        };
        self.up.aim(&up, heads);
        let down = Aiming {
            graph: rooted.graph,
            directed: rooted.directed,
            dir: Dir::Down,
            turns: by_order,
            aims: self.aims.as_slice(),
            wanted: self.wanted.as_slice(),
        };
        self.down.aim(&down, heads);
    }

    /// The links of node s at a place.
    pub fn links_of(&self, s: NodeNo, at: usize) -> FirstLinks
        requires { HavePlace self.now s at }
        ensures { HaveLinksAt self.now s at result }
    {
        FirstLinks {
            up: self.up.links_of(s)[at],
            down: self.down.links_of(s)[at],
        }
    }
}

/// Moves the marks of the blocks that aim at one node at all places from `wanted` to `shared`, and puts what each block aims at
/// at the first place. (No clause tells that all such marks are moved.)
pub fn take_shared(
    width: usize,
    aims: &[NodeNo],
    wanted: &mut [bool],
    firsts: &mut [NodeNo],
    shared: &mut [bool],
)
    requires some { 0 < width }
    requires room { length aims.now ≡ length wanted.old * width }
    requires one_first_each { length firsts.old ≡ length wanted.old }
    requires a_mark_each { length shared.old ≡ length wanted.old }
    ensures { AreShared (length wanted.old) width aims.now wanted.old wanted.new firsts.new shared.new }
{
    for k in 0..wanted.len() {
        let of_block = &aims[k * width..k * width + width];
        let is_shared = wanted[k] && are_one(of_block);
        firsts[k] = of_block[0];
        shared[k] = is_shared;
        wanted[k] = wanted[k] && !is_shared;
    }
}

/// Whether the nodes are all the first one.
fn are_one(nodes: &[NodeNo]) -> bool
    requires { 0 < length nodes.now }
    ensures { IsTrue result → (j : ℕ) → j < length nodes.now → slice_index nodes.now j ≡ slice_index nodes.now 0 }
{
    let first = nodes[0];
    for node in nodes {
        if *node != first {
            return false;
        }
    }
    true
}
