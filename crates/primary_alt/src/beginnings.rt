//! How shortest paths from one node begin.

ghost use Rattle.std.specs.Prelude.{◌≡◌, ◌<◌, ◌≤◌, ◌⊎◌, ◌↔◌, ℕ, IfOk, IfSome, IsTrue, Some, length, slice_get};
ghost use Rattle.area_graph.specs.declared.area_types.Arc.{Arc};
ghost use Rattle.primary_alt.specs.declared.beginnings.Beginning.{Beginning};
ghost use Rattle.primary_alt.specs.steps.Attaining.{AreBetween};
ghost use Rattle.primary_alt.specs.steps.Beginnings.{HasBeginning};
ghost use Rattle.primary_alt.specs.Distances.{HasDistance};
ghost use Rattle.primary_alt.specs.steps.Onward.{CostInRow};
ghost use Rattle.primary_alt.specs.steps.LeastBeginnings.{AreLeast, GoesOn, IsAtMost, IsPassedOn, IsUpTo};

use crate::onward::onward_arcs;
use area_graph::{Arc, ArcNo, Spot};
use mrt_graph::NoMemory;
use std::alloc::Global;

/// The numbers of the first two arcs of a path. Where it has but one arc, the second number tells nothing.
#[derive(Clone, Copy)]
pub struct Beginning {
    pub first: ArcNo,
    pub second: ArcNo,
}

/// Of each node the least beginning of the shortest paths to it from the source, by the first number and then by the
/// second one.
///
/// One pass over the arcs of shortest paths: when an arc is reached, the beginning of its tail is the least.
pub fn least_beginnings(
    alloc: Global,
    arcs: &[Arc],
    source: Spot,
    distances: &[Option<u32>],
) -> Result<Vec<Option<Beginning>>, NoMemory>
    requires few { length arcs.now ≤ 32768 }
    requires between { AreBetween (length distances.now) arcs.now }
    requires costs { CostInRow arcs.now }
    requires here { HasDistance distances.now source 0 }
    ensures least { IfOk result (λ begins. AreLeast arcs.now source distances.now begins.items) }
    ensures one_each { IfOk result (λ begins. length begins.items ≡ length distances.now) }
{
    let onward = onward_arcs(alloc, arcs, distances)?;
    let mut begins = vec![in alloc; None; distances.len()]?;
    for place in 0..onward.len() {
        pass_on(arcs, source, onward[place].number, &mut begins);
    }
    Ok(begins)
}

/// Offers the far node of an arc the beginning of the path that goes on over it.
fn pass_on(arcs: &[Arc], source: Spot, number: ArcNo, begins: &mut Vec<Option<Beginning>>)
    requires number { number < length arcs.now }
    requires between { AreBetween (length begins.old.items) arcs.now }
    requires firsts { (v : ℕ) (begin : Beginning) → HasBeginning begins.old.items v begin
        → begin.first < length arcs.now }
    ensures one_each { length begins.new.items ≡ length begins.old.items }
    ensures passed { (arc : Arc) → slice_get arcs.now number ≡ Some arc
        → IsPassedOn arcs.now source number arc begins.old.items begins.new.items }
{
    let arc = &arcs[number.get() as usize];
    if let Some(begin) = begin_over(arcs, source, number, arc, begins) {
        let at = arc.to.get() as usize;
        if is_lower(&begin, &begins[at]) {
            begins[at] = Some(begin);
        }
    }
}

/// How a path begins that goes on over an arc; None where the arc's tail has no beginning.
fn begin_over(
    arcs: &[Arc],
    source: Spot,
    number: ArcNo,
    arc: &Arc,
    begins: &[Option<Beginning>],
) -> Option<Beginning>
    requires tail { arc.now.tail < length begins.now }
    requires firsts { (v : ℕ) (begin : Beginning) → HasBeginning begins.now v begin
        → begin.first < length arcs.now }
    ensures { (begin : Beginning) → (result ≡ Some begin)
        ↔ GoesOn arcs.now source begins.now number arc.now begin }
{
    if arc.tail == source {
        return Some(Beginning {
            first: number,
            second: number,
        });
    }
    let before = begins[arc.tail.get() as usize]?;
    if arcs[before.first.get() as usize].to == arc.tail {
        return Some(Beginning {
            first: before.first,
            second: number,
        });
    }
    Some(before)
}

/// Whether a beginning is lower than the one that a node has, by the first number and then by the second one.
fn is_lower(begin: &Beginning, held: &Option<Beginning>) -> bool
    ensures lower { IsTrue result → IfSome held.now (λ held. IsUpTo begin.now held) }
    ensures other { IsTrue result ⊎ IsAtMost held.now begin.now }
{
    match held {
        Some(held) => {
            begin.first < held.first || (begin.first == held.first && begin.second < held.second)
        }
        None => true,
    }
}
