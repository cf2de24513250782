//! The paths from a router to its neighbours.

ghost use Rattle.std.specs.Prelude.{◌≡◌, ◌≢◌, ◌<◌, ◌≤◌, ◌↔◌, IfOk, IfSome, IsNone, IsTrue, Some, length, slice_get};
ghost use Rattle.area_graph.specs.{declared.area_types.Arc.Arc, AreaInvariant.IsArea};
ghost use Rattle.lfa_alt.specs.steps.NeighbourPaths.{AddsAcross, AddsOver, ArePaths, IsAgain, LeadsOn, path_across, path_over};

use crate::neighbour_path::NeighbourPath;
use area_graph::{Arc, ArcNo, Area, Spot};
use mrt_graph::NoMemory;
use primary_alt::is_network;
use std::alloc::Global;

/// Paths of a router that stand for all of its paths, ordered by the node that they lead to: over each arc of the router to a
/// network and on to a node, the one path by the least arc between these two.
///
/// So there are at most as many as the arcs of the router, and its arcs to networks times the nodes on them. It looks at
/// all arcs once, and once more for each arc of the router to a network.
pub fn paths(
    alloc: Global,
    area: &Area,
    arcs: &[Arc],
    source: Spot,
) -> Result<Vec<NeighbourPath>, NoMemory>
    requires kept { IsArea area.now }
    requires arcs { arcs.now ≡ area.now.arcs }
    ensures { IfOk result (λ paths. ArePaths area.now source paths.items) }
{
    let mut paths = Vec::new(alloc);
    for number in 0..arcs.len() {
        if let Some(first) = own_arc(arcs, number, source) {
            push_over(area, arcs, source, first, &mut paths)?;
        }
    }
    paths.sort_unstable_by_key(|path| path.next.get());
    Ok(paths)
}

/// The arc of that number, if it leaves the source.
fn own_arc(arcs: &[Arc], number: usize, source: Spot) -> Option<ArcNo>
    requires few { length arcs.now ≤ 32768 }
    requires within { number < length arcs.now }
    ensures some { IfSome result (λ first. (first ≡ number)
        × ((arc : Arc) → slice_get arcs.now number ≡ Some arc → arc.tail ≡ source)) }
    ensures none { IsNone result → (arc : Arc) → slice_get arcs.now number ≡ Some arc
        → arc.tail ≢ source }
{
    if arcs[number].tail == source {
        Some(ArcNo::new(number as u16))
    } else {
        None
    }
}

/// Puts paths over an arc of the source after those that are there.
fn push_over(
    area: &Area,
    arcs: &[Arc],
    source: Spot,
    number: ArcNo,
    paths: &mut Vec<NeighbourPath>,
) -> Result<(), NoMemory>
    requires kept { IsArea area.now }
    requires arcs { arcs.now ≡ area.now.arcs }
    requires within { number < length arcs.now }
    requires from { (arc : Arc) → slice_get arcs.now number ≡ Some arc → arc.tail ≡ source }
    ensures { IfOk result (λ _. AddsOver area.now source number paths.old.items paths.new.items) }
{
    let arc = &arcs[number.get() as usize];
    if is_network(area, arc.to) {
        paths.push(path_over(number, arc, Some(arc.to)))?;
        push_across(arcs, source, number, arc, paths)
    } else {
        paths.push(path_over(number, arc, None))?;
        Ok(())
    }
}

/// Puts paths over an arc to a network and from there on to other nodes than the source after those that are there: to each
/// node the one by the least arc.
///
/// The arcs of a network to one node follow one another.
fn push_across(
    arcs: &[Arc],
    source: Spot,
    number: ArcNo,
    arc: &Arc,
    paths: &mut Vec<NeighbourPath>,
) -> Result<(), NoMemory>
    requires few { length arcs.now ≤ 32768 }
    ensures { IfOk result (λ _.
        AddsAcross arcs.now source number arc.now (length arcs.now) paths.old.items paths.new.items) }
{
    for second in 0..arcs.len() {
        let onward = &arcs[second];
        if leads_on(arc, onward, source) && !is_again(arcs, second, onward) {
            let second = Some(ArcNo::new(second as u16));
            paths.push(path_across(number, arc, second, onward))?;
        }
    }
    Ok(())
}

/// Whether an arc goes on from another one, to another node than the source.
fn leads_on(arc: &Arc, onward: &Arc, source: Spot) -> bool
    ensures { IsTrue result ↔ LeadsOn arc.now source onward.now }
{
    onward.tail == arc.to && onward.to != source
}

/// Whether the arc just before leads between the same two nodes.
fn is_again(arcs: &[Arc], second: usize, onward: &Arc) -> bool
    requires within { second < length arcs.now }
    ensures { IsTrue result ↔ IsAgain arcs.now second onward.now }
{
    if second == 0 {
        return false;
    }
    let before = &arcs[second - 1];
    before.tail == onward.tail && before.to == onward.to
}

fn path_over(number: ArcNo, arc: &Arc, network: Option<Spot>) -> NeighbourPath
    ensures { result ≡ path_over number arc.now network }
{
    NeighbourPath {
        first: number,
        second: None,
        next: arc.to,
        bond: arc.bond,
        metric: arc.metric as u32,
        network,
    }
}

fn path_across(number: ArcNo, arc: &Arc, second: Option<ArcNo>, onward: &Arc) -> NeighbourPath
    ensures { result ≡ path_across number arc.now second onward.now }
{
    NeighbourPath {
        first: number,
        second,
        next: onward.to,
        bond: arc.bond,
        metric: arc.metric as u32 + onward.metric as u32,
        network: Some(arc.to),
    }
}
