//! Which entries are arcs.

ghost use Rattle.std.specs.Prelude.{◌≡◌, ◌<◌, ◌≤◌, ◌+◌, ◌++◌, ◌∷◌, ◌⊎◌, [], IfOk, IfErr, OnOk, length, slice_index_or};
ghost use Rattle.std.specs.{List.filter, List.Sorted.IsSorted};
ghost use Rattle.area_graph.specs.steps.NumberedArcs.{arcs_among, is_arc, pairing_cmp};
ghost use Rattle.mrt_graph.specs.InOrder.{in_order};
ghost use Rattle.area_graph.specs.steps.Listed.{AreApart};
ghost use Rattle.area_graph.specs.steps.EntryOrder.{AreMarks};
ghost use Rattle.area_graph.specs.AreaSize.{IsTooLarge, TellsTooLarge};

use crate::area_error::AreaError;
use crate::back_marks::{first_back, marks_at_start};
use crate::entry::NumberedEntry;
use crate::size::{MAX_ARCS, check_size};
use std::alloc::Global;

/// The entries that are arcs, ordered by tail, far node, link data and place, where with so many nodes they are no more
/// than an area may have.
pub fn arcs_by_ends(
    alloc: Global,
    nodes: usize,
    mut entries: Vec<NumberedEntry>,
) -> Result<Vec<NumberedEntry>, AreaError>
    requires { AreApart entries.items }
    ensures arcs { IfOk result (λ arcs. arcs.items ≡ arcs_among entries.items) }
    ensures within { IfOk result (λ arcs. IsTooLarge nodes (length arcs.items) → ⊥) }
    ensures refused { IfErr result (λ error. (error ≡ AreaError.NoMemory)
        ⊎ TellsTooLarge nodes (length (arcs_among entries.items)) error) }
{
    sort_by_ends(&mut entries);
    answered(alloc, nodes, entries.as_slice())
}

/// Orders entries by tail, far node, link data and place.
fn sort_by_ends(entries: &mut Vec<NumberedEntry>)
    requires { AreApart entries.old.items }
    ensures { entries.new.items ≡ in_order pairing_cmp entries.old.items }
{
    entries.sort_unstable_by_key(|entry| (entry.tail, entry.far, entry.link_data, entry.place));
}

/// The entries, in their order, that an entry leads back for. All are counted, and no more listed than an area may have.
fn answered(
    alloc: Global,
    nodes: usize,
    entries: &[NumberedEntry],
) -> Result<Vec<NumberedEntry>, AreaError>
    requires { IsSorted pairing_cmp entries.now }
    ensures arcs { IfOk result (λ arcs. arcs.items ≡ filter (is_arc entries.now) entries.now) }
    ensures within { IfOk result (λ arcs. IsTooLarge nodes (length arcs.items) → ⊥) }
    ensures refused { IfErr result (λ error. (error ≡ AreaError.NoMemory)
        ⊎ TellsTooLarge nodes (length (filter (is_arc entries.now) entries.now)) error) }
{
    let mut marks = marks_at_start(alloc, nodes, entries)?;
    let mut arcs = Vec::with_capacity(alloc, entries.len().min(MAX_ARCS))?;
    let mut count = 0;
    for (place, entry) in entries.iter().enumerate() {
        if is_answered(entries, place, *entry, &mut marks) {
            count += 1;
            keep(&mut arcs, count, *entry)?;
        }
    }
    check_size(nodes, count)?;
    Ok(arcs)
}

/// Adds the arc of this number, from 1, unless there are more than an area may have.
fn keep(arcs: &mut Vec<NumberedEntry>, number: usize, arc: NumberedEntry) -> Result<(), AreaError>
    ensures kept { OnOk result (number ≤ 32768 → arcs.new.items ≡ arcs.old.items ++ arc ∷ []) }
    ensures refused { IfErr result (λ error. error ≡ AreaError.NoMemory) }
{
    if number <= MAX_ARCS {
        arcs.push(arc)?;
    }
    Ok(())
}

/// Whether one of the entries leads back for the one at this place. The mark of its far node moves on.
fn is_answered(
    entries: &[NumberedEntry],
    place: usize,
    entry: NumberedEntry,
    marks: &mut Vec<usize>,
) -> bool
    requires sorted { IsSorted pairing_cmp entries.now }
    requires within { place < length entries.now }
    requires there { slice_index_or entries.now place entry ≡ entry }
    requires marks { AreMarks entries.now place marks.old.items }
    ensures answered { result ≡ is_arc entries.now entry }
    ensures marks { AreMarks entries.now (place + 1) marks.new.items }
{
    let first = first_back(entries, place, entry, marks);
    match entries.get(first) {
        Some(back) => back.tail == entry.far && back.far == entry.tail,
        None => false,
    }
}
