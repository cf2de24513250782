//! Arcs turned round.

ghost use Rattle.std.specs.Prelude.{◌≡◌, IfOk, map};
ghost use Rattle.primary_alt.specs.steps.Turned.{turned};

use area_graph::Arc;
use mrt_graph::NoMemory;
use std::alloc::Global;

/// The arcs, turned round.
pub fn turned(alloc: Global, arcs: &[Arc]) -> Result<Vec<Arc>, NoMemory>
    ensures { IfOk result (λ others. others.items ≡ map turned arcs.now) }
{
    let others = arcs.iter().map(|arc| turned_round(arc)).collect(alloc)?;
    Ok(others)
}

/// An arc turned round.
fn turned_round(arc: &Arc) -> Arc
    ensures { result ≡ turned arc.now }
{
    Arc {
        tail: arc.to,
        to: arc.tail,
        metric: arc.metric,
        link_data: arc.link_data,
        bond: arc.bond,
    }
}
