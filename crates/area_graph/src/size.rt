//! How large an area may be.

ghost use Rattle.std.specs.Prelude.{◌-◌, IfOk, IfErr};
ghost use Rattle.area_graph.specs.AreaSize.{IsTooLarge, TellsTooLarge};

use crate::area_error::AreaError;
use mrt_graph::saturated;

/// The most nodes that an area may have.
const MAX_NODES: usize = 4096;

/// The most arcs that it may have.
pub const MAX_ARCS: usize = 32768;

/// Refuses more nodes or arcs than an area may have.
pub fn check_size(nodes: usize, arcs: usize) -> Result<(), AreaError>
    ensures within { IfOk result (λ _. IsTooLarge nodes arcs → ⊥) }
    ensures refused { IfErr result (λ error. TellsTooLarge nodes arcs error) }
{
    if nodes > MAX_NODES || arcs > MAX_ARCS {
        return Err(AreaError::TooLarge {
            nodes: saturated(nodes),
            arcs: saturated(arcs),
        });
    }
    Ok(())
}
