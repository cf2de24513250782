//! The first arcs of shortest paths from all nodes of an area.

ghost use Rattle.std.specs.Prelude.{◌≡◌, ◌<◌, ◌≤◌, ◌+◌, ◌↔◌, ℕ, Contains, IfOk, IsPermutation, IsTrue, None, length, map};
ghost use Rattle.std.specs.List.{range_with_len};
ghost use Rattle.area_graph.specs.declared.area_types.Arc.{Arc};
ghost use Rattle.area_graph.specs.steps.Starts.{AreStarts};
ghost use Rattle.primary_alt.specs.steps.ArcsInto.{AreStartsInto};
ghost use Rattle.primary_alt.specs.steps.Attaining.{AreBetween, AreFirstToAttain, Attains, IsFirstToAttain};
ghost use Rattle.primary_alt.specs.steps.FirstArcs.{AreColumnsFor};

use crate::arc_starts::arc_starts;
use crate::arcs_into::ArcsInto;
use crate::backward::{Offer, distances_to};
use crate::first_arc::FirstArc;
use crate::first_column::FirstColumn;
use area_graph::{Arc, ArcNo, Area, Spot};
use mrt_graph::NoMemory;
use std::alloc::Global;
use std::cmp::Reverse;
use std::collections::BinaryHeap;

/// A column for each of these destinations: the first arc of each node on a shortest path there.
///
/// One search for each different destination, over one list and one heap for all of them.
pub fn first_columns(
    alloc: Global,
    area: &Area,
    arcs: &[Arc],
    destinations: &[Spot],
) -> Result<Vec<Option<FirstColumn>>, NoMemory>
    requires arcs { arcs.now ≡ area.now.arcs }
    requires within { (t : ℕ) → Contains destinations.now t → t < length area.now.ids }
    ensures { IfOk result (λ columns. AreColumnsFor area.now destinations.now columns.items) }
{
    let count = area.count();
    let starts = arc_starts(alloc, area)?;
    let into = ArcsInto::new(alloc, Vec::from_slice(alloc, arcs)?, count)?;
    let mut known = vec![in alloc; None; count as usize]?;
    let mut waiting = BinaryHeap::with_capacity(alloc, arcs.len() + 1)?;
    let lists = ArcLists {
        arcs,
        starts: &starts,
        into: &into,
    };
    columns_by(alloc, area, &lists, destinations, &mut known, &mut waiting)
}

/// The arcs of an area, by number and by the node that they lead to.
#[derive(Clone, Copy)]
struct ArcLists<'a> {
    arcs: &'a [Arc],
    /// Of each node the number of arcs that leave a lower node, and after them the number of all arcs.
    starts: &'a [usize],
    into: &'a ArcsInto,
}

/// A column for each of these destinations, by searches that use one list and one heap.
fn columns_by(
    alloc: Global,
    area: &Area,
    lists: &ArcLists,
    destinations: &[Spot],
    known: &mut Vec<Option<u32>>,
    waiting: &mut BinaryHeap<Reverse<Offer>>,
) -> Result<Vec<Option<FirstColumn>>, NoMemory>
    requires arcs { lists.now.arcs.now ≡ area.now.arcs }
    requires starts { AreStarts (length area.now.ids) area.now.arcs lists.now.starts.now }
    requires same { IsPermutation area.now.arcs lists.now.into.now.arcs.items }
    requires into { AreStartsInto lists.now.into.now.arcs.items lists.now.into.now.starts.items }
    requires rows { length lists.now.into.now.starts.items ≡ length area.now.ids + 1 }
    requires one_each { length known.old.items ≡ length area.now.ids }
    requires within { (t : ℕ) → Contains destinations.now t → t < length area.now.ids }
    ensures { IfOk result (λ columns. AreColumnsFor area.now destinations.now columns.items) }
{
    let mut columns = no_columns(alloc, area.count())?;
    for t in destinations {
        let place = t.get() as usize;
        if columns[place].is_some() {
            continue;
        }
        distances_to(lists.into, *t, known, waiting)?;
        columns[place] = Some(column(alloc, lists.arcs, lists.starts, known)?);
    }
    Ok(columns)
}

/// No column for each of so many nodes.
fn no_columns(alloc: Global, count: u16) -> Result<Vec<Option<FirstColumn>>, NoMemory>
    ensures { IfOk result (λ columns. columns.items ≡ map (λ _. None) (range_with_len 0 count)) }
{
    let columns = (0..count).map(|_| None).collect(alloc)?;
    Ok(columns)
}

/// The first arc of each node that attains its distance.
fn column(
    alloc: Global,
    arcs: &[Arc],
    starts: &[usize],
    known: &[Option<u32>],
) -> Result<FirstColumn, NoMemory>
    requires few { length arcs.now ≤ 32768 }
    requires starts { AreStarts (length known.now) arcs.now starts.now }
    requires between { AreBetween (length known.now) arcs.now }
    ensures { IfOk result (AreFirstToAttain arcs.now starts.now known.now) }
{
    let mut firsts = Vec::with_capacity(alloc, known.len())?;
    for x in 0..known.len() {
        firsts.push_reserved(first_arc(arcs, starts[x], starts[x + 1], known));
    }
    Ok(FirstColumn::new(firsts))
}

/// The first of the arcs from one number up to another that attains the distance of its tail.
fn first_arc(arcs: &[Arc], from: usize, to: usize, known: &[Option<u32>]) -> FirstArc
    requires few { length arcs.now ≤ 32768 }
    requires within { to ≤ length arcs.now }
    requires between { AreBetween (length known.now) arcs.now }
    ensures { IsFirstToAttain arcs.now from to known.now result }
{
    for number in from..to {
        if attains(&arcs[number], known) {
            return FirstArc::some(ArcNo::new(number as u16));
        }
    }
    FirstArc::none()
}

/// Whether the arc's metric plus the distance of its far node is the distance of its tail.
fn attains(arc: &Arc, known: &[Option<u32>]) -> bool
    requires tail { arc.now.tail < length known.now }
    requires to { arc.now.to < length known.now }
    ensures { IsTrue result ↔ Attains known.now arc.now }
{
    let metric = arc.metric as u32;
    let Some(near) = known[arc.tail.get() as usize] else {
        return false;
    };
    let Some(rest) = known[arc.to.get() as usize] else {
        return false;
    };
    near >= metric && near - metric == rest
}
