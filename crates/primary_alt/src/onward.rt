//! The arcs of shortest paths from one node, each after those that lead to its tail.

ghost use Rattle.std.specs.Prelude.{◌≡◌, ◌<◌, ◌≤◌, ◌↔◌, ℕ, IfOk, Some, length};
ghost use Rattle.std.specs.List.Sorted.{IsNonDecreasingBy};
ghost use Rattle.primary_alt.specs.steps.Attaining.{AreBetween};
ghost use Rattle.primary_alt.specs.steps.Onward.{AreOnward, IsOnward};

use area_graph::{Arc, ArcNo};
use mrt_graph::NoMemory;
use std::alloc::Global;

/// An arc of a shortest path.
#[derive(Clone, Copy)]
pub struct Onward {
    pub number: ArcNo,
    /// The sum of the distances of its tail and its far node.
    pub sum: u64,
}

/// The arcs of shortest paths by the distances from one node, in the order of their sums. Of two arcs in a row one at
/// least costs something, so the second one has the higher sum.
pub fn onward_arcs(
    alloc: Global,
    arcs: &[Arc],
    distances: &[Option<u32>],
) -> Result<Vec<Onward>, NoMemory>
    requires few { length arcs.now ≤ 32768 }
    requires between { AreBetween (length distances.now) arcs.now }
    ensures are { IfOk result (λ onward. AreOnward arcs.now distances.now (length arcs.now) onward.items) }
    ensures ascend { IfOk result (λ onward. IsNonDecreasingBy (λ next. next.sum) onward.items) }
{
    let mut onward = found(alloc, arcs, distances)?;
    onward.sort_unstable_by_key(|next| next.sum);
    Ok(onward)
}

/// The arcs of shortest paths, by number.
fn found(alloc: Global, arcs: &[Arc], distances: &[Option<u32>]) -> Result<Vec<Onward>, NoMemory>
    requires few { length arcs.now ≤ 32768 }
    requires between { AreBetween (length distances.now) arcs.now }
    ensures { IfOk result (λ onward. AreOnward arcs.now distances.now (length arcs.now) onward.items) }
{
    let mut onward = Vec::with_capacity(alloc, arcs.len())?;
    for number in 0..arcs.len() {
        if let Some(sum) = sum_over(&arcs[number], distances) {
            let number = ArcNo::new(number as u16);
            onward.push_reserved(Onward { number, sum });
        }
    }
    Ok(onward)
}

/// The sum of the distances of both nodes of an arc; None where it is not one of a shortest path.
fn sum_over(arc: &Arc, distances: &[Option<u32>]) -> Option<u64>
    requires tail { arc.now.tail < length distances.now }
    requires to { arc.now.to < length distances.now }
    ensures { (sum : ℕ) → (result ≡ Some sum) ↔ IsOnward distances.now arc.now sum }
{
    let near = distances[arc.tail.get() as usize]?;
    let far = distances[arc.to.get() as usize]?;
    if near as u64 + arc.metric as u64 != far as u64 {
        return None;
    }
    Some(near as u64 + far as u64)
}
