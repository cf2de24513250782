//! Where the arcs of each node begin among all.

ghost use Rattle.std.specs.Prelude.{◌≡◌, ◌<◌, ◌≤◌, ◌+◌, IfOk, IfErr};
ghost use Rattle.std.specs.List.Sorted.{IsSorted};
ghost use Rattle.area_graph.specs.AreaInvariant.{by_tail_cmp};
ghost use Rattle.area_graph.specs.steps.Starts.{AreStarts, below};

use crate::area_error::AreaError;
use crate::area_types::Arc;
use std::alloc::Global;

/// Of each of so many nodes the number of arcs that leave a lower node, and after them the number of those that leave
/// any of them.
pub fn starts(alloc: Global, count: usize, arcs: &[Arc]) -> Result<Vec<usize>, AreaError>
    requires few { count ≤ 4096 }
    requires ascend { IsSorted by_tail_cmp arcs.now }
    ensures starts { IfOk result (λ starts. AreStarts count arcs.now starts.items) }
    ensures refused { IfErr result (λ error. error ≡ AreaError.NoMemory) }
{
    let mut starts = Vec::with_capacity(alloc, count + 1)?;
    let mut at = 0;
    for s in 0..count + 1 {
        at = first_from(arcs, at, s);
        starts.push_reserved(at);
    }
    Ok(starts)
}

/// The number of arcs that leave a node below `s`, which are at least `from`.
fn first_from(arcs: &[Arc], from: usize, s: usize) -> usize
    requires ascend { IsSorted by_tail_cmp arcs.now }
    requires from { from ≤ below s arcs.now }
    ensures { result ≡ below s arcs.now }
{
    let mut at = from;
    while at < arcs.len() && (arcs[at].tail.get() as usize) < s {
        at += 1;
    }
    at
}
