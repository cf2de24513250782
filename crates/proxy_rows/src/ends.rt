//! The first end of a node that has what is asked for.

ghost use Rattle.std.specs.Prelude.{◌≡◌, ◌==◌, ◌<◌, ◌↔◌, IfNone, IfSome, IsTrue, List, find, length};
ghost use Rattle.std.specs.Option.{option_map};
ghost use Rattle.mrt_graph.specs.declared.cert.Row.{Row};
ghost use Rattle.mrt_graph.specs.CertFields.{has_role};
ghost use Rattle.mrt_graph.specs.FirstEnd.{IsFirstEnd};
ghost use Rattle.mrt_graph.specs.Roles.{is_plain};
ghost use Rattle.mrt_graph.specs.Search.{IsMarked};
ghost use Rattle.proxy_rows.specs.{declared.side.Side.TheVariants.Low, ProxyRows.IsOnward, ProxyRows.IsPlainToLow, Sides.IsOfBlock};
ghost use Rattle.proxy_rows.specs.steps.Steps.{HasNoEnd, IsNotPlain, IsWanted, side_of};
ghost use Rattle.proxy_rows.specs.steps.LabelledGraph.{AreAccepted, AreMarks, with_rows, without_rows};

use crate::attachment::Attachment;
use crate::labelled_graph::{LabelledGraph, link_at};
use crate::side::{Side, goes_on};
use mrt_graph::{End, LinkNo, NodeNo, Role};

/// What is asked of an end of a node.
#[derive(Clone, Copy)]
pub enum Wanted {
    /// It is over a plain link of the block to a node of Low.
    PlainToLow,
    /// It is over a link of the block that is not plain.
    NotPlain,
    /// It is over a link of the block to a node of the side, to which one goes on.
    Onward(Side),
}

/// The first end of `v` that has what is asked for, by the marks of the side that is asked for.
pub fn first_end(
    words: &LabelledGraph,
    at: &Attachment,
    wanted: Wanted,
    marks: &[bool],
    v: NodeNo,
) -> Option<End>
    requires ground { AreAccepted words.now at.now }
    requires count { length marks.now ≡ length words.now.graph.now.ids }
    requires marked { AreMarks words.now at.now (side_of wanted) marks.now }
    requires within { v < length words.now.graph.now.ids }
    ensures some { (rest : List Row) → IfSome result (IsFirstEnd words.now.graph.now
        (IsWanted words.now.graph.now (with_rows words.now rest) at.now wanted v) v) }
    ensures none { (rest : List Row) → IfNone result (HasNoEnd words.now.graph.now
        (IsWanted words.now.graph.now (with_rows words.now rest) at.now wanted v) v) }
{
    let ends = words.graph.ends(v);
    for place in 0..ends.len() {
        let end = ends[place];
        if is_wanted(words, at, wanted, marks, v, &end) {
            return Some(end);
        }
    }
    None
}

/// Whether an end of `v` has what is asked for.
fn is_wanted(
    words: &LabelledGraph,
    at: &Attachment,
    wanted: Wanted,
    marks: &[bool],
    v: NodeNo,
    end: &End,
) -> bool
    requires link { end.now.link < length words.now.links.now }
    requires from { v < length words.now.nodes.now }
    requires to { end.now.to < length words.now.nodes.now }
    requires count { length marks.now ≡ length words.now.nodes.now }
    requires marked { AreMarks words.now at.now (side_of wanted) marks.now }
    ensures { (rest : List Row) → IsTrue result
        ↔ IsWanted words.now.graph.now (with_rows words.now rest) at.now wanted v end.now }
{
    match wanted {
        Wanted::PlainToLow => is_plain_to_low(words, at, marks, end),
        Wanted::NotPlain => is_not_plain(words, at, end),
        Wanted::Onward(side) => is_onward(words, at, side, marks, v, end),
    }
}

/// Whether an end is over a plain link of the block to a node of Low.
fn is_plain_to_low(words: &LabelledGraph, at: &Attachment, low: &[bool], end: &End) -> bool
    requires link { end.now.link < length words.now.links.now }
    requires to { end.now.to < length low.now }
    requires marked { AreMarks words.now at.now Low low.now }
    ensures { (rest : List Row) → IsTrue result
        ↔ IsPlainToLow words.now.graph.now (with_rows words.now rest) at.now end.now }
{
    is_of_block(words, at, end.link) && is_plain(words, end.link) && is_marked(low, end.to)
}

/// Whether an end is over a link of the block that is not plain.
fn is_not_plain(words: &LabelledGraph, at: &Attachment, end: &End) -> bool
    requires link { end.now.link < length words.now.links.now }
    ensures { (rest : List Row) → IsTrue result ↔ IsNotPlain (with_rows words.now rest) at.now end.now }
{
    is_of_block(words, at, end.link) && !is_plain(words, end.link)
}

/// Whether an end of `s` is over a link of the block to a node of the side, to which one goes on.
fn is_onward(
    words: &LabelledGraph,
    at: &Attachment,
    side: Side,
    marks: &[bool],
    s: NodeNo,
    end: &End,
) -> bool
    requires link { end.now.link < length words.now.links.now }
    requires from { s < length words.now.nodes.now }
    requires to { end.now.to < length words.now.nodes.now }
    requires count { length marks.now ≡ length words.now.nodes.now }
    requires marked { AreMarks words.now at.now side marks.now }
    ensures { (rest : List Row) → IsTrue result
        ↔ IsOnward words.now.graph.now (with_rows words.now rest) at.now side s end.now }
{
    let of_block = is_of_block(words, at, end.link);
    of_block && is_marked(marks, end.to) && goes_on(words, side, s, end.to)
}

/// Whether a link is of the block.
fn is_of_block(words: &LabelledGraph, at: &Attachment, e: LinkNo) -> bool
    requires within { e < length words.now.links.now }
    ensures { IsTrue result ↔ IsOfBlock (without_rows words.now) at.now e }
{
    link_at(words.links, e).block == at.block
}

/// Whether a link is plain.
fn is_plain(words: &LabelledGraph, e: LinkNo) -> bool
    requires within { e < length words.now.links.now }
    ensures { result ≡ has_role is_plain (without_rows words.now) e }
{
    link_at(words.links, e).role == Role::Plain
}

/// Whether a node has its mark.
pub fn is_marked(marks: &[bool], s: NodeNo) -> bool
    requires within { s < length marks.now }
    ensures { IsTrue result ↔ IsMarked marks.now s }
{
    marks[s.get() as usize]
}

/// The first of these ends that is on a link.
pub fn end_on(ends: &[End], e: LinkNo) -> Option<End>
    ensures { result ≡ option_map (λ end. end) (find (λ end. end.link == e) ends.now) }
{
    let end = ends.iter().find(|end| end.link == e)?;
    Some(*end)
}
