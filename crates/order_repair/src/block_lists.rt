//! The nodes and the links of each block.

ghost use Rattle.std.specs.Prelude.{◌≡◌, IfOk, length};
ghost use Rattle.mrt_graph.specs.GraphInvariant.{IsTopology};
ghost use Rattle.block_spf.specs.HasDirections.{HasDirections};
ghost use Rattle.order_repair.specs.steps.Blocks.{AreChainsOf, blocks_of, count_of};

use crate::chains::Chains;
use crate::kind::{Kind, block_at, count_of};
use mrt_graph::{Directed, Graph, NoMemory, NodeNo};
use std::alloc::Global;

/// The nodes and the links of each block, by number. A block's head is not among its nodes.
pub struct BlockLists {
    pub nodes: Chains,
    pub links: Chains,
}

impl Drop for BlockLists {
    fn drop(self) {
        let Self { nodes: _, links: _ } = self;
    }
}

impl BlockLists {
    ghost use Rattle.std.specs.Prelude.{IfOk};
    ghost use Rattle.mrt_graph.specs.GraphInvariant.{IsTopology};
    ghost use Rattle.block_spf.specs.HasDirections.{HasDirections};
    ghost use Rattle.order_repair.specs.steps.Blocks.{AreBlockLists};

    /// Those of a graph with its directions.
    ///
    /// It takes time in proportion to the nodes and the links.
    pub fn new(alloc: Global, g: &Graph, d: &Directed) -> Result<BlockLists, NoMemory>
        requires kept { IsTopology g.now }
        requires directed { HasDirections g.now d.now }
        ensures { IfOk result (AreBlockLists d.now) }
    {
        let nodes = chains_of(alloc, g, d, Kind::Nodes)?;
        let links = chains_of(alloc, g, d, Kind::Links)?;
        Ok(BlockLists { nodes, links })
    }
}

/// Those of a kind, in chains.
fn chains_of(alloc: Global, g: &Graph, d: &Directed, kind: Kind) -> Result<Chains, NoMemory>
    requires kept { IsTopology g.now }
    requires directed { HasDirections g.now d.now }
    ensures { IfOk result (AreChainsOf d.now kind) }
{
    let blocks = blocks_of(alloc, g, d, kind)?;
    Chains::new(alloc, &blocks, g.node_count() as usize)
}

/// Of each its block.
fn blocks_of(alloc: Global, g: &Graph, d: &Directed, kind: Kind) -> Result<Vec<NodeNo>, NoMemory>
    requires one_each { length (blocks_of kind d.now) ≡ count_of kind g.now }
    ensures { IfOk result (λ blocks. blocks.items ≡ blocks_of kind d.now) }
{
    let count = count_of(g, kind);
    let mut blocks = Vec::with_capacity(alloc, count as usize)?;
    for number in 0..count {
        blocks.push_reserved(block_at(d, kind, number));
    }
    Ok(blocks)
}
