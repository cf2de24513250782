//! Where the entries that lead from one node to another begin, and those that lead back.

ghost use Rattle.std.specs.Prelude.{◌≡◌, ◌<◌, ◌+◌, IfOk, IfErr, length, slice_index_or};
ghost use Rattle.std.specs.List.Sorted.{IsSorted};
ghost use Rattle.area_graph.specs.steps.NumberedArcs.{pairing_cmp};
ghost use Rattle.area_graph.specs.steps.EntryOrder.{is_before_ends, AreBefore, AreMarks, IsFirstOf};

use crate::area_error::AreaError;
use crate::entry::NumberedEntry;
use std::alloc::Global;

/// How many entries stand before those that lead from `tail` to `far`, which are at least `from`. It takes a step for each
/// beyond these.
pub fn first_from(entries: &[NumberedEntry], from: usize, tail: usize, far: usize) -> usize
    requires sorted { IsSorted pairing_cmp entries.now }
    requires before { AreBefore tail far entries.now from }
    ensures { IsFirstOf tail far entries.now result }
{
    let mut at = from;
    while at < entries.len() && is_before(entries[at], tail, far) {
        at += 1;
    }
    at
}

/// Whether an entry stands before those that lead from `tail` to `far`.
fn is_before(entry: NumberedEntry, tail: usize, far: usize) -> bool
    ensures { result ≡ is_before_ends tail far entry }
{
    let own = entry.tail as usize;
    own < tail || (own == tail && (entry.far as usize) < far)
}

/// The marks from which the entries that lead back are looked for: of each of so many nodes how many entries leave a lower
/// one.
pub fn marks_at_start(
    alloc: Global,
    nodes: usize,
    entries: &[NumberedEntry],
) -> Result<Vec<usize>, AreaError>
    requires { IsSorted pairing_cmp entries.now }
    ensures marks { IfOk result (λ marks. AreMarks entries.now 0 marks.items) }
    ensures refused { IfErr result (λ error. error ≡ AreaError.NoMemory) }
{
    let mut marks = Vec::with_capacity(alloc, nodes)?;
    let mut at = 0;
    for node in 0..nodes {
        at = first_from(entries, at, node, 0);
        marks.push_reserved(at);
    }
    Ok(marks)
}

/// How many entries stand before those that lead back for the entry at this place. The mark of its far node moves there:
/// over all places in a row it goes over the entries of that node once.
pub fn first_back(
    entries: &[NumberedEntry],
    place: usize,
    entry: NumberedEntry,
    marks: &mut Vec<usize>,
) -> usize
    requires sorted { IsSorted pairing_cmp entries.now }
    requires within { place < length entries.now }
    requires there { slice_index_or entries.now place entry ≡ entry }
    requires marks { AreMarks entries.now place marks.old.items }
    ensures first { IsFirstOf entry.far entry.tail entries.now result }
    ensures marks { AreMarks entries.now (place + 1) marks.new.items }
{
    let node = entry.far as usize;
    let tail = entry.tail as usize;
    // (an entry leads to one of the nodes, so none is without its mark)
    if node >= marks.len() {
        return first_from(entries, 0, node, tail);
    }
    let first = first_from(entries, marks[node], node, tail);
    marks[node] = first;
    first
}
