//! The order numbers.

ghost use Rattle.std.specs.Prelude.{◌≡◌, ◌<◌, ◌≤◌, ℕ, IfOk, Some, length, slice_get};
ghost use Rattle.link_direction.specs.steps.Counting.{StandOnce};
ghost use Rattle.link_direction.specs.Directed.{AreNumbers};

use mrt_graph::{Graph, NoMemory, NodeNo};
use std::alloc::Global;

/// The order number of each node: its place in the order, counted from 1.
pub fn numbers_of(alloc: Global, g: &Graph, order: &[NodeNo]) -> Result<Vec<u16>, NoMemory>
    requires once { StandOnce order.now }
    requires few { length order.now ≤ length g.now.ids }
    requires within { (k v : ℕ) → slice_get order.now k ≡ Some v → v < length g.now.ids }
    ensures { IfOk result (λ numbers. AreNumbers g.now order.now numbers.items) }
{
    let mut numbers = vec![in alloc; 0; g.node_count() as usize]?;
    for place in 0..order.len() {
        numbers[order[place].get() as usize] = place as u16 + 1;
    }
    Ok(numbers)
}
