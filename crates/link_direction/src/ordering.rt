//! The order list of a GADAG. It is a queue as well: the nodes before a place have had their turns, those from it on
//! wait for theirs.

ghost use Rattle.std.specs.Prelude.{
  ◌≡◌,
  ◌≢◌,
  ◌<◌,
  ◌≤◌,
  ◌+◌,
  ◌-◌,
  ◌++◌,
  ◌∷◌,
  [],
  ℕ,
  IfOk,
  Some,
  length,
  slice_get,
  slice_index_or,
  slice_set,
  vec_capacity,
};
ghost use Rattle.mrt_graph.specs.{GadagLists.GadagLists, GraphInvariant.IsTopology};
ghost use Rattle.link_direction.specs.steps.Counting.{IsEndOf, IsTurn, IsTurnOfEnd, IsUnderWay, StandOnce};
ghost use Rattle.link_direction.specs.{FromEars.IsFromEars, GadagOrder.IsWholeOrder};

use crate::counting::{counts_over, entering};
use mrt_graph::{End, Graph, Mark, NoMemory, NodeNo};
use std::alloc::Global;

/// The order of a GADAG: a node is put at the back when the last counted link that enters it has been passed.
pub fn order_of(
    alloc: Global,
    g: &Graph,
    root: NodeNo,
    marks: &[Mark],
) -> Result<Vec<NodeNo>, NoMemory>
    requires root { root < length g.now.ids }
    requires marks { length marks.now ≡ length g.now.links }
    requires from_ears { (gadag : GadagLists) × (gadag.marks ≡ marks.now)
        × IsFromEars g.now root gadag }
    ensures whole { IfOk result (λ order. IsWholeOrder g.now root marks.now order.items) }
    ensures once { IfOk result (λ order. StandOnce order.items) }
    ensures few { IfOk result (λ order. length order.items ≤ length g.now.ids) }
    ensures within { IfOk result (λ order. (k v : ℕ) → slice_get order.items k ≡ Some v
        → v < length g.now.ids) }
    ensures kept { IsTopology g.now }
{
    let mut counts = entering(alloc, g, marks)?;
    let mut order = Vec::with_capacity(alloc, g.node_count() as usize)?;
    order.push_reserved(root);
    let mut place = 0;
    while place < order.len() {
        let x = order[place];
        take_turn(g, marks, &mut counts, &mut order, x);
        place += 1;
    }
    Ok(order)
}

/// The turn of x.
fn take_turn(g: &Graph, marks: &[Mark], counts: &mut Vec<u16>, order: &mut Vec<NodeNo>, x: NodeNo)
    requires marks { length marks.now ≡ length g.now.links }
    requires turn { IsTurn g.now marks.now x 0 counts.old.items order.old.items }
    requires room { length g.now.ids ≤ vec_capacity order.old }
    ensures on { (root place : ℕ) → slice_get order.old.items place ≡ Some x
        → IsUnderWay g.now root marks.now place 0 counts.old.items order.old.items
        → IsUnderWay g.now root marks.now (place + 1) 0 counts.new.items order.new.items }
    ensures room { vec_capacity order.new ≡ vec_capacity order.old }
{
    let ends = g.ends(x);
    for end in ends {
        pass_end(g, marks, counts, order, x, end);
    }
}

/// In the turn of x, passes one of its ends.
fn pass_end(
    g: &Graph,
    marks: &[Mark],
    counts: &mut Vec<u16>,
    order: &mut Vec<NodeNo>,
    x: NodeNo,
    end: &End,
)
    requires marks { length marks.now ≡ length g.now.links }
    requires turn { IsTurnOfEnd g.now marks.now x end.now counts.old.items order.old.items }
    requires room { length g.now.ids ≤ vec_capacity order.old }
    ensures on { (root place passed : ℕ) → slice_get order.old.items place ≡ Some x
        → IsEndOf g.now x passed end.now
        → IsUnderWay g.now root marks.now place passed counts.old.items order.old.items
        → IsUnderWay g.now root marks.now place (passed + 1) counts.new.items order.new.items }
    ensures here { (place : ℕ) → slice_get order.old.items place ≡ Some x
        → slice_get order.new.items place ≡ Some x }
    ensures room { vec_capacity order.new ≡ vec_capacity order.old }
{
    if counts_over(g, marks, end) {
        take_off(counts, order, end.to);
    }
}

/// Takes a link off the count of those that enter v. Where none is left, v is put at the back.
fn take_off(counts: &mut Vec<u16>, order: &mut Vec<NodeNo>, v: NodeNo)
    requires node { v < length counts.old.items }
    requires some { 0 < slice_index_or counts.old.items v 0 }
    requires room { length order.old.items < vec_capacity order.old }
    ensures counts { counts.new.items
        ≡ slice_set counts.old.items v (slice_index_or counts.old.items v 0 - 1) }
    ensures put { slice_index_or counts.old.items v 0 ≡ 1
        → order.new.items ≡ order.old.items ++ v ∷ [] }
    ensures kept { slice_index_or counts.old.items v 0 ≢ 1 → order.new.items ≡ order.old.items }
    ensures room { vec_capacity order.new ≡ vec_capacity order.old }
{
    let at = v.get() as usize;
    counts[at] -= 1;
    if counts[at] == 0 {
        order.push_reserved(v);
    }
}
