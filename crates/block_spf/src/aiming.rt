//! What a tile is aimed by, and what its blocks aim at.

ghost use Rattle.std.specs.Prelude.{◌≡◌, ◌<◌, ◌≤◌, ◌+◌, ◌*◌, ◌⊎◌, ℕ, length, slice_index};
ghost use Rattle.link_direction.specs.Directions.{Directions};
ghost use Rattle.block_spf.specs.{BlockAims.AreHeadAims, HasDirections.AreDirections, HasDirections.HasDirections};

use crate::reach::Dir;
use mrt_graph::{Directed, Graph, NodeNo};

/// A graph with its directions; up or down; the nodes by the turns of the other direction; what the blocks aim at, side by
/// side, those of block k from k times their number on; and marks on the blocks over which links are wanted.
#[derive(Clone, Copy)]
pub struct Aiming<'a> {
    pub graph: &'a Graph,
    pub directed: &'a Directed,
    pub dir: Dir,
    pub turns: &'a [NodeNo],
    pub aims: &'a [NodeNo],
    pub wanted: &'a [bool],
}

/// Each block aims at its head, at each of so many places.
pub fn put_heads(g: &Graph, d: &Directed, width: usize, aims: &mut [NodeNo])
    requires directed { HasDirections g.now d.now }
    requires room { length aims.old ≡ length g.now.ids * width }
    ensures room { length aims.new ≡ length aims.old }
    ensures heads { (root : ℕ) (w : Directions) → AreDirections g.now d.now root w
        → AreHeadAims g.now w width aims.new }
{
    for n in 0..g.node_count() {
        let place = d.place(NodeNo::new(n));
        put_all(place.block.get() as usize * width, width, place.head, aims);
    }
}

/// Puts a node at so many places from `at` on.
fn put_all(at: usize, width: usize, node: NodeNo, aims: &mut [NodeNo])
    requires { at + width ≤ length aims.old }
    ensures there { (j : ℕ) → j < width → slice_index aims.new (at + j) ≡ node }
    ensures elsewhere { (i : ℕ) → (i < at) ⊎ (at + width ≤ i)
        → slice_index aims.new i ≡ slice_index aims.old i }
{
    aims[at..at + width].fill(node);
}
