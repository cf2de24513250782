//! Tiles: the links by which all nodes begin the least paths to some nodes side by side.

ghost use Rattle.std.specs.Prelude.{◌≡◌, ◌<◌, ◌+◌, ◌*◌, ℕ, IfOk, Some, length, slice_get};
ghost use Rattle.link_direction.specs.Directions.{Directions};
ghost use Rattle.block_spf.specs.{Aiming.IsAiming, HasDirections.AreDirections, Tile.IsAimed, Tile.IsTile};
ghost use Rattle.block_spf.specs.FirstLink.{AreOthersInOneBlock};

use crate::aiming::Aiming;
use crate::paths_over_ends::{keep, take_own_paths, take_paths};
use crate::side::{FAR, NO_LINK};
use mrt_graph::{Graph, LinkNo, NoMemory, NodeNo};
use std::alloc::Global;
use std::marker::Model;

/// For each of so many nodes, costs and links to some nodes side by side; and the same of the node that has its turn.
pub struct Tile {
    nodes: usize,
    all_costs: Vec<u32>,
    all_links: Vec<LinkNo>,
    costs: Vec<u32>,
    links: Vec<LinkNo>,
}

impl Drop for Tile {
    fn drop(self) {
        let Self {
            nodes: _,
            all_costs: _,
            all_links: _,
            costs: _,
            links: _,
        } = self;
    }
}

impl Model for Tile {
    ghost use Rattle.std.specs.Prelude.{length};
    ghost use Rattle.block_spf.specs.steps.TileEntries.{AreTileEntries, tile_entries};
    ghost use Rattle.block_spf.specs.TileEntries.{TileEntries};

    ghost Value = { TileEntries };

    ghost view = { λ tile. tile_entries tile.nodes (length tile.costs.items) tile.all_costs.items tile.all_links.items };

    ghost invariant = { λ tile. AreTileEntries tile.nodes (length tile.costs.items) (length tile.links.items)
        tile.all_costs.items tile.all_links.items };
}

impl Tile {
    /// A tile of this width.
    ///
    /// It takes time and memory in proportion to the nodes times the width.
    pub fn new(alloc: Global, g: &Graph, width: u16) -> Result<Tile, NoMemory>
        ensures { IfOk result (IsTile g.now width) }
    {
        let none = LinkNo::new(NO_LINK);
        let nodes = g.node_count() as usize;
        Ok(Tile {
            nodes,
            all_costs: vec![in alloc; FAR; nodes * width as usize]?,
            all_links: vec![in alloc; none; nodes * width as usize]?,
            costs: vec![in alloc; FAR; width as usize]?,
            links: vec![in alloc; none; width as usize]?,
        })
    }

    /// Takes the links of all nodes, over the wanted blocks, to what these aim at. Each node that is not marked in `heads` has no
    /// other block of more than one link than its own.
    ///
    /// It takes time in proportion to the nodes, and to the ends of those in the wanted blocks and of the heads times the width.
    pub fn aim(&mut self, aiming: &Aiming, heads: &[bool])
        requires aiming { IsAiming aiming.now self.old.width }
        requires nodes { self.old.nodes ≡ length aiming.now.graph.now.ids }
        requires heads { length heads.now ≡ length aiming.now.graph.now.ids }
        ensures nodes { self.new.nodes ≡ self.old.nodes }
        ensures width { self.new.width ≡ self.old.width }
        ensures aimed { (root : ℕ) (w : Directions) → AreDirections aiming.now.graph.now aiming.now.directed.now root w
            → AreOthersInOneBlock aiming.now.graph.now w heads.now
            → IsAimed aiming.now.graph.now w aiming.now.wanted.now aiming.now.dir aiming.now.aims.now self.new }
    {
        take_own_paths(
            aiming,
            &mut self.all_costs,
            &mut self.all_links,
            &mut self.costs,
            &mut self.links,
        );
        for n in 0..aiming.graph.node_count() {
            if heads[n as usize] {
                let s = NodeNo::new(n);
                take_paths(
                    aiming,
                    s,
                    false,
                    &self.all_costs,
                    &mut self.costs,
                    &mut self.links,
                );
                keep(s, &self.links, &mut self.all_links);
            }
        }
    }

    /// The links of node s, for the nodes that it is aimed at. Over a block that is not marked an earlier aim left them.
    pub fn links_of(&self, s: NodeNo) -> &[LinkNo]
        requires { s < self.now.nodes }
        ensures one_each { length result.now ≡ self.now.width }
        ensures there { (j link : ℕ) → slice_get result.now j ≡ Some link
            → slice_get self.now.links (s * self.now.width + j) ≡ Some link }
    {
        let width = self.costs.len();
        let at = s.get() as usize * width;
        &self.all_links[at..at + width]
    }
}
