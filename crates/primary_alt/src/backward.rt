//! The search for distances to one node, backwards along the arcs (Dijkstra's).

ghost use Rattle.std.specs.BinaryHeap.{heap_items, heap_len};
ghost use Rattle.std.specs.Prelude.{◌≡◌, ◌<◌, ◌≤◌, ◌+◌, ◌*◌, ◌∷◌, ◌↔◌, ℕ, Contains, IsTrue, OnErr, OnOk, length};
ghost use Rattle.area_graph.specs.declared.area_types.Arc.{Arc};
ghost use Rattle.primary_alt.specs.steps.ArcsInto.{AreFromBelow, AreStartsInto};
ghost use Rattle.primary_alt.specs.steps.Distances.{AreDistances};
ghost use Rattle.primary_alt.specs.Distances.{HasDistance};
ghost use Rattle.primary_alt.specs.steps.BackwardSearch.{AreSmall, IsAdded, IsOffered, IsRelaxed, IsSearching, left, reached, room_of};

use crate::arcs_into::ArcsInto;
use area_graph::{Arc, Spot};
use mrt_graph::NoMemory;
use std::cmp::Reverse;
use std::collections::BinaryHeap;

/// A distance that is offered to a node. Offers are ordered by distance alone.
#[derive(Clone, Copy)]
#[derive_where(PartialEq, Eq, PartialOrd, Ord)]
pub struct Offer {
    pub distance: u32,
    #[derive_where(skip(EqHashOrd))]
    pub node: Spot,
}

/// Finds the distances of all nodes to `t`. What the list and the heap hold before is forgotten, so that they serve one
/// search after another.
pub fn distances_to(
    into: &ArcsInto,
    t: Spot,
    known: &mut Vec<Option<u32>>,
    waiting: &mut BinaryHeap<Reverse<Offer>>,
) -> Result<(), NoMemory>
    requires starts { AreStartsInto into.now.arcs.items into.now.starts.items }
    requires tails { AreFromBelow (length known.old.items) into.now.arcs.items }
    requires rows { length into.now.starts.items ≡ length known.old.items + 1 }
    requires few { length known.old.items ≤ 4096 }
    requires node { t < length known.old.items }
    ensures one_each { length known.new.items ≡ length known.old.items }
    ensures distances { OnOk result (AreDistances into.now.arcs.items t known.new.items) }
{
    forget(known);
    waiting.clear();
    // what a walk of no arc costs
    offer_to(into, t, t, 0, known, waiting)?;
    while let Some(Reverse(nearest)) = waiting.pop() {
        settle(into, nearest, known, waiting)?;
    }
    Ok(())
}

/// Forgets all distances.
pub fn forget(known: &mut Vec<Option<u32>>)
    ensures one_each { length known.new.items ≡ length known.old.items }
    ensures none { (v distance : ℕ) → ¬ HasDistance known.new.items v distance }
{
    for v in 0..known.len() {
        known[v] = None;
    }
}

/// Takes the offer that comes first: where it still stands, the node's distance is passed on.
fn settle(
    into: &ArcsInto,
    nearest: Offer,
    known: &mut Vec<Option<u32>>,
    waiting: &mut BinaryHeap<Reverse<Offer>>,
) -> Result<(), NoMemory>
    requires starts { AreStartsInto into.now.arcs.items into.now.starts.items }
    requires tails { AreFromBelow (length known.old.items) into.now.arcs.items }
    requires rows { length into.now.starts.items ≡ length known.old.items + 1 }
    requires few { length known.old.items ≤ 4096 }
    requires small { AreSmall known.old.items }
    requires node { nearest.node < length known.old.items }
    ensures one_each { length known.new.items ≡ length known.old.items }
    ensures small { OnOk result (AreSmall known.new.items) }
    ensures searching { OnOk result ((t : ℕ)
        → IsSearching into.now.arcs.items t known.old.items (record { 0 = nearest } ∷ heap_items waiting.old)
        → IsSearching into.now.arcs.items t known.new.items (heap_items waiting.new)) }
    ensures fewer { OnOk result (left known.new.items (heap_len waiting.new)
        ≤ left known.old.items (heap_len waiting.old)) }
{
    if stands(&nearest, known) {
        relax(
            into,
            into.row(nearest.node),
            nearest.node,
            nearest.distance,
            known,
            waiting,
        )?;
    }
    Ok(())
}

/// Whether a node has the distance that was offered.
fn stands(offer: &Offer, known: &[Option<u32>]) -> bool
    requires { offer.now.node < length known.now }
    ensures { IsTrue result ↔ HasDistance known.now offer.now.node offer.now.distance }
{
    match known[offer.node.get() as usize] {
        Some(distance) => distance == offer.distance,
        None => false,
    }
}

/// Offers the tail of each arc of a row, those to `u`, the arc's metric and the distance of `u`.
fn relax(
    into: &ArcsInto,
    row: &[Arc],
    u: Spot,
    distance: u32,
    known: &mut Vec<Option<u32>>,
    waiting: &mut BinaryHeap<Reverse<Offer>>,
) -> Result<(), NoMemory>
    requires starts { AreStartsInto into.now.arcs.items into.now.starts.items }
    requires rows { length into.now.starts.items ≡ length known.old.items + 1 }
    requires tails { AreFromBelow (length known.old.items) row.now }
    requires few { length known.old.items ≤ 4096 }
    requires small { AreSmall known.old.items }
    requires near { distance + 65535 ≤ 65535 * reached known.old.items }
    ensures one_each { length known.new.items ≡ length known.old.items }
    ensures relaxed { OnOk result (IsRelaxed into.now.arcs.items row.now u (length row.now) distance
        known.old.items known.new.items (heap_items waiting.old) (heap_items waiting.new)) }
    ensures fewer { OnOk result (left known.new.items (heap_len waiting.new)
        ≤ left known.old.items (heap_len waiting.old)) }
{
    for arc in row {
        offer_to(
            into,
            u,
            arc.tail,
            distance + arc.metric as u32,
            known,
            waiting,
        )?;
    }
    Ok(())
}

/// Offers a node a distance that `u` gives: it is kept where it is smaller than the known one.
fn offer_to(
    into: &ArcsInto,
    u: Spot,
    node: Spot,
    distance: u32,
    known: &mut Vec<Option<u32>>,
    waiting: &mut BinaryHeap<Reverse<Offer>>,
) -> Result<(), NoMemory>
    requires starts { AreStartsInto into.now.arcs.items into.now.starts.items }
    requires rows { length into.now.starts.items ≡ length known.old.items + 1 }
    requires node { node < length known.old.items }
    ensures err { OnErr result (known.new.items ≡ known.old.items) }
    ensures offered { OnOk result (IsOffered into.now.arcs.items u node distance
        known.old.items known.new.items (heap_items waiting.old) (heap_items waiting.new)) }
    ensures fewer { OnOk result (left known.new.items (heap_len waiting.new)
        ≤ left known.old.items (heap_len waiting.old)) }
{
    let at = node.get() as usize;
    if is_nearer(distance, &known[at]) {
        wait(into, u, node, distance, waiting)?;
        known[at] = Some(distance);
    }
    Ok(())
}

/// Lets an offer of `u` to a node wait to be passed on. Where the one arc that leads to the node leaves `u`, the node
/// could pass its distance on to `u` alone, which is no farther: there the offer need not wait.
fn wait(
    into: &ArcsInto,
    u: Spot,
    node: Spot,
    distance: u32,
    waiting: &mut BinaryHeap<Reverse<Offer>>,
) -> Result<(), NoMemory>
    requires starts { AreStartsInto into.now.arcs.items into.now.starts.items }
    requires node { node + 1 < length into.now.starts.items }
    ensures added { OnOk result (IsAdded into.now.arcs.items u node distance
        (heap_items waiting.old) (heap_items waiting.new)) }
    ensures one_more { OnOk result (heap_len waiting.new ≤ heap_len waiting.old + 1) }
{
    if !is_one_from(into.row(node), u) {
        waiting.push(Reverse(Offer { distance, node }))?;
    }
    Ok(())
}

/// True only where each of these arcs leaves `u`: where they are one alone, and it does.
fn is_one_from(row: &[Arc], u: Spot) -> bool
    ensures { IsTrue result → (arc : Arc) → Contains row.now arc → arc.tail ≡ u }
{
    match row {
        [only] => only.tail == u,
        _ => false,
    }
}

/// Whether a distance is smaller than the known one.
fn is_nearer(distance: u32, known: &Option<u32>) -> bool
    ensures { IsTrue result ↔ (distance < room_of known.now) }
{
    match known {
        Some(known) => distance < *known,
        None => true,
    }
}
