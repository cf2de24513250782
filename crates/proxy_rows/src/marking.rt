//! Which nodes are on a side of the block.

ghost use Rattle.std.specs.Prelude.{◌≡◌, ◌<◌, ◌↔◌, IfOk, IsTrue, length};
ghost use Rattle.mrt_graph.specs.Search.{Enters};
ghost use Rattle.proxy_rows.specs.Sides.{IsMember};
ghost use Rattle.proxy_rows.specs.steps.Steps.{AreEndsWithin, LeadsTo, LeadsToMember, OneLeadsTo};
ghost use Rattle.proxy_rows.specs.steps.LabelledGraph.{AreAccepted, AreMarks, without_rows};

use crate::attachment::Attachment;
use crate::labelled_graph::{LabelledGraph, link_at, node_at};
use crate::side::{Side, goes_on, router_of};
use mrt_graph::{End, NoMemory, NodeNo, NodeSearch};
use std::alloc::Global;

/// Marks the nodes of a side.
///
/// A search from the router of the side, so it takes time in proportion to nodes and links.
pub fn side_marks(
    alloc: Global,
    words: &LabelledGraph,
    at: &Attachment,
    side: Side,
) -> Result<Vec<bool>, NoMemory>
    requires ground { AreAccepted words.now at.now }
    ensures count { IfOk result (λ marks. length marks.items ≡ length words.now.graph.now.ids) }
    ensures marked { IfOk result (λ marks. AreMarks words.now at.now side marks.items) }
{
    let g = words.graph;
    let start = router_of(at, side);
    if !is_member(words, at, start) {
        let marks = vec![in alloc; false; g.node_count() as usize]?;
        return Ok(marks);
    }
    let mut search = NodeSearch::new(alloc, g.node_count(), start.get())?;
    while let Some(v) = search.next() {
        let v = NodeNo::new(v);
        visit(words, at, side, v, g.ends(v), &mut search);
    }
    Ok(search.into_marks())
}

/// Enters all members to which the ends of `v` lead, from which one goes on to `v`.
fn visit(
    words: &LabelledGraph,
    at: &Attachment,
    side: Side,
    v: NodeNo,
    ends: &[End],
    search: &mut NodeSearch,
)
    requires from { v < length words.now.nodes.now }
    requires marks { length search.old.marks ≡ length words.now.nodes.now }
    requires within { AreEndsWithin (without_rows words.now) ends.now }
    ensures { Enters (OneLeadsTo (without_rows words.now) at.now side v ends.now) search.old search.new }
{
    for place in 0..ends.len() {
        pass(words, at, side, v, &ends[place], search);
    }
}

/// Enters the member to which an end of `v` leads, if one goes on from it to `v`.
fn pass(
    words: &LabelledGraph,
    at: &Attachment,
    side: Side,
    v: NodeNo,
    end: &End,
    search: &mut NodeSearch,
)
    requires from { v < length words.now.nodes.now }
    requires marks { length search.old.marks ≡ length words.now.nodes.now }
    requires link { end.now.link < length words.now.links.now }
    requires to { end.now.to < length words.now.nodes.now }
    ensures { Enters (LeadsTo (without_rows words.now) at.now side v end.now) search.old search.new }
{
    if leads_to_member(words, at, side, v, end) {
        search.enter(end.to.get());
    }
}

/// Whether an end of `v` is over a link of the block to a member from which one goes on to `v`.
fn leads_to_member(words: &LabelledGraph, at: &Attachment, side: Side, v: NodeNo, end: &End) -> bool
    requires from { v < length words.now.nodes.now }
    requires link { end.now.link < length words.now.links.now }
    requires to { end.now.to < length words.now.nodes.now }
    ensures { IsTrue result ↔ LeadsToMember (without_rows words.now) at.now side v end.now }
{
    let of_block = link_at(words.links, end.link).block == at.block;
    of_block && is_member(words, at, end.to) && goes_on(words, side, end.to, v)
}

/// Whether a node is a member of the block.
pub fn is_member(words: &LabelledGraph, at: &Attachment, s: NodeNo) -> bool
    requires within { s < length words.now.nodes.now }
    ensures { IsTrue result ↔ IsMember (without_rows words.now) at.now s }
{
    node_at(words.nodes, s).block == at.block
}
