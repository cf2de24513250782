//! The arcs of an area by the node that they lead to.

ghost use Rattle.std.specs.Prelude.{◌≡◌, ◌<◌, ◌+◌, IfOk, IsPermutation, length};
ghost use Rattle.std.specs.List.Sorted.{IsNonDecreasingBy};
ghost use Rattle.primary_alt.specs.steps.ArcsInto.{AreStartsInto, IsStartInto};

use area_graph::{Arc, Area, Spot};
use mrt_graph::NoMemory;
use std::alloc::Global;

/// The arcs of an area by the node that they lead to.
pub struct ArcsInto {
    pub arcs: Vec<Arc>,
    /// Of each node the number of arcs that lead to a lower node, and after them the number of all arcs.
    pub starts: Vec<usize>,
}

impl Drop for ArcsInto {
    fn drop(self) {
        let Self { arcs: _, starts: _ } = self;
    }
}

impl ArcsInto {
    ghost use Rattle.std.specs.Prelude.{◌≡◌, ◌<◌, ◌+◌, IfOk, IsPermutation, length};
    ghost use Rattle.primary_alt.specs.steps.ArcsInto.{AreInto, AreStartsInto};

    /// Those arcs, by the node that they lead to, of so many nodes.
    pub fn new(alloc: Global, mut arcs: Vec<Arc>, count: u16) -> Result<ArcsInto, NoMemory>
        ensures same { IfOk result (λ into. IsPermutation arcs.items into.arcs.items) }
        ensures starts { IfOk result (λ into. AreStartsInto into.arcs.items into.starts.items) }
        ensures rows { IfOk result (λ into. length into.starts.items ≡ count + 1) }
    {
        arcs.sort_unstable_by_key(|arc| arc.to.get());
        let starts = starts_into(alloc, &arcs, count)?;
        Ok(ArcsInto { arcs, starts })
    }

    /// The arcs that lead to a node.
    pub fn row(&self, v: Spot) -> &[Arc]
        requires starts { AreStartsInto self.now.arcs.items self.now.starts.items }
        requires node { v + 1 < length self.now.starts.items }
        ensures { AreInto self.now.arcs.items v result.now }
    {
        let place = v.get() as usize;
        let from = self.starts[place];
        let to = self.starts[place + 1];
        &self.arcs[from..to]
    }
}

/// Where the arcs to each of so many nodes begin, and after them the number of all arcs.
fn starts_into(alloc: Global, arcs: &[Arc], count: u16) -> Result<Vec<usize>, NoMemory>
    requires ascend { IsNonDecreasingBy (λ arc. arc.to) arcs.now }
    ensures starts { IfOk result (λ starts. AreStartsInto arcs.now starts.items) }
    ensures rows { IfOk result (λ starts. length starts.items ≡ count + 1) }
{
    let mut starts = Vec::with_capacity(alloc, count as usize + 1)?;
    for v in 0..count as usize + 1 {
        starts.push_reserved(start_into(arcs, v));
    }
    Ok(starts)
}

/// How many arcs lead to a node below `v`.
fn start_into(arcs: &[Arc], v: usize) -> usize
    requires ascend { IsNonDecreasingBy (λ arc. arc.to) arcs.now }
    ensures { IsStartInto arcs.now v result }
{
    arcs.partition_point(|arc| (arc.to.get() as usize) < v)
}
