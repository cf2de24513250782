//! Where the arcs of each node begin.

ghost use Rattle.std.specs.Prelude.{IfOk, length};
ghost use Rattle.area_graph.specs.steps.Starts.{AreStarts};

use area_graph::{Area, Spot};
use mrt_graph::NoMemory;
use std::alloc::Global;

/// Of each node the number of arcs that leave a lower node, and after them the number of all arcs.
pub fn arc_starts(alloc: Global, area: &Area) -> Result<Vec<usize>, NoMemory>
    ensures { IfOk result (λ starts. AreStarts (length area.now.ids) area.now.arcs starts.items) }
{
    let count = area.count();
    let mut starts = Vec::with_capacity(alloc, count as usize + 1)?;
    let mut at = 0;
    starts.push_reserved(at);
    for s in 0..count {
        at += area.arcs(Spot::new(s)).len();
        starts.push_reserved(at);
    }
    Ok(starts)
}
