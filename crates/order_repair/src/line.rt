//! The line on a node with which the router has a block of more than one link in common.

ghost use Rattle.std.specs.Prelude.{◌≡◌, ◌<◌, ◌↔◌, ℕ, List, IfOk, IsTrue, length};
ghost use Rattle.mrt_graph.specs.{declared.gadag.Place.Place, Separates.IsNeitherEnd};
ghost use Rattle.link_direction.specs.Directions.{Directions};
ghost use Rattle.block_spf.specs.{HasDirections.AreDirections, HasDirections.HasDirections, LeastPath.HaveCommonBlockOfMoreLinks};
ghost use Rattle.text_parts.specs.steps.Adds.{Adds};
ghost use Rattle.order_repair.specs.steps.Blocks.{AreBlockLists, AreChainsOf, IsNext};
ghost use Rattle.order_repair.specs.Failed.{IsWithin, LiesIn};
ghost use Rattle.order_repair.specs.OrderText.{IsLetter, IsLine, letter_of};
ghost use Rattle.order_repair.specs.steps.Source.{AreHopsIn, IsSourceIn};
ghost use Rattle.order_repair.specs.steps.Tagging.{IsPair};
ghost use Rattle.order_repair.specs.steps.Blocks.{Letters, blocks_of, count_of, IsHeadWithin};

use crate::block_lists::BlockLists;
use crate::chains::Chains;
use crate::choice::color_for;
use crate::kind::{Kind, Members, count_of, element, members_of};
use crate::pair::Pair;
use crate::source_view::SourceView;
use mrt_graph::{Color, Directed, Element, Graph, NoMemory, Place};
use text_parts::{push, push_node};

/// Puts the line on a pair's destination at the end of a text.
pub fn push_line(
    text: &mut Vec<u8>,
    view: &SourceView,
    lists: &BlockLists,
    pair: &Pair,
) -> Result<(), NoMemory>
    requires source { IsSourceIn view.now pair.now.source }
    requires lists { AreBlockLists view.now.directed.now lists.now }
    requires to { pair.now.to < length view.now.graph.now.ids }
    ensures { (root : ℕ) (w : Directions) → AreHopsIn view.now root w pair.now.source
        → (k h : ℕ) → IsPair view.now.graph.now root w pair.now.source pair.now.to pair.now.tag k h
        → IfOk result (λ _. Adds (IsLine view.now.graph.now root w pair.now.source pair.now.to)
        text.old.items text.new.items) }
{
    let place = block_of(view.graph, view.directed, pair);
    push_node(text, view.graph.id(pair.to))?;
    push(text, b" ")?;
    push_letters(
        text,
        view,
        &lists.nodes,
        pair,
        &members_of(Kind::Nodes, &place),
    )?;
    push(text, b" ")?;
    push_letters(
        text,
        view,
        &lists.links,
        pair,
        &members_of(Kind::Links, &place),
    )?;
    push(text, b"\n")?;
    Ok(())
}

/// The block that a pair has in common, and its head.
fn block_of(g: &Graph, d: &Directed, pair: &Pair) -> Place
    requires directed { HasDirections g.now d.now }
    requires source { pair.now.source < length g.now.ids }
    requires to { pair.now.to < length g.now.ids }
    ensures block { (root : ℕ) (w : Directions) → AreDirections g.now d.now root w → (k h : ℕ)
        → HaveCommonBlockOfMoreLinks g.now w pair.now.source pair.now.to k h → (result.block ≡ k) × (result.head ≡ h) }
    ensures within { result.block < length g.now.ids }
{
    let there = d.place(pair.to);
    if there.head == pair.source {
        return there;
    }
    d.place(pair.source)
}

/// Puts the letters of the block's nodes, or of its links, at the end of a text.
fn push_letters(
    text: &mut Vec<u8>,
    view: &SourceView,
    chains: &Chains,
    pair: &Pair,
    members: &Members,
) -> Result<(), NoMemory>
    requires source { IsSourceIn view.now pair.now.source }
    requires chains { AreChainsOf view.now.directed.now members.now.kind chains.now }
    requires to { pair.now.to < length view.now.graph.now.ids }
    requires block { members.now.place.block < length view.now.graph.now.ids }
    ensures { (root : ℕ) (w : Directions) → AreHopsIn view.now root w pair.now.source
        → IsPair view.now.graph.now root w pair.now.source pair.now.to pair.now.tag members.now.place.block members.now.place.head
        → IfOk result (λ _. Adds
        (Letters view.now.graph.now root w pair.now members.now (count_of members.now.kind view.now.graph.now))
        text.old.items text.new.items) }
{
    let count = count_of(view.graph, members.kind);
    let mut from = 0;
    let mut next = chains.first(members.place.block);
    while next < count {
        push_head_letter(text, view, pair, members, from, next)?;
        push_letter(text, view, pair, &element(members.kind, next))?;
        from = next + 1;
        next = chains.next(next);
    }
    push_head_letter(text, view, pair, members, from, next)
}

/// Puts the letter of the block's head at the end of a text, where it is a node whose number lies from the one on and
/// before the other. The block has no other one there.
fn push_head_letter(
    text: &mut Vec<u8>,
    view: &SourceView,
    pair: &Pair,
    members: &Members,
    from: u16,
    until: u16,
) -> Result<(), NoMemory>
    requires source { IsSourceIn view.now pair.now.source }
    requires to { pair.now.to < length view.now.graph.now.ids }
    requires none { IsNext (blocks_of members.now.kind view.now.directed.now) members.now.place.block from until }
    ensures { (root : ℕ) (w : Directions) (before : List ℕ) → AreHopsIn view.now root w pair.now.source
        → IsPair view.now.graph.now root w pair.now.source pair.now.to pair.now.tag members.now.place.block members.now.place.head
        → Adds (Letters view.now.graph.now root w pair.now members.now from) before text.old.items
        → IfOk result (λ _. Adds (Letters view.now.graph.now root w pair.now members.now until)
        before text.new.items) }
{
    if is_head_within(members, from, until) {
        return push_letter(text, view, pair, &Element::Node(members.place.head));
    }
    Ok(())
}

/// Whether the block's head is a node whose number lies from the one on and before the other.
fn is_head_within(members: &Members, from: u16, until: u16) -> bool
    ensures { IsTrue result ↔ IsHeadWithin members.now.kind members.now.place.head from until }
{
    match members.kind {
        Kind::Nodes => from <= members.place.head.get() && members.place.head.get() < until,
        Kind::Links => false,
    }
}

/// Puts the letter of a node or a link of the block at the end of a text.
fn push_letter(
    text: &mut Vec<u8>,
    view: &SourceView,
    pair: &Pair,
    x: &Element,
) -> Result<(), NoMemory>
    requires source { IsSourceIn view.now pair.now.source }
    requires to { pair.now.to < length view.now.graph.now.ids }
    requires within { IsWithin view.now.graph.now x.now }
    ensures { (root : ℕ) (w : Directions) (place : Place) → AreHopsIn view.now root w pair.now.source
        → IsPair view.now.graph.now root w pair.now.source pair.now.to pair.now.tag place.block place.head
        → LiesIn view.now.graph.now w place.block place.head x.now
        → IfOk result (λ _. Adds
        (IsLetter view.now.graph.now root w pair.now.source pair.now.to place.block place.head x.now)
        text.old.items text.new.items) }
{
    if is_neither_end(pair, x) {
        let color = color_for(view, pair, *x);
        return push(text, letter(color));
    }
    push(text, b"-")
}

/// Whether it is a link, or a node other than the two.
fn is_neither_end(pair: &Pair, x: &Element) -> bool
    ensures { IsTrue result ↔ IsNeitherEnd x.now pair.now.source pair.now.to }
{
    match x {
        Element::Node(f) => *f != pair.source && *f != pair.to,
        Element::Link(_) => true,
    }
}

/// The letter of a color.
fn letter(color: Color) -> &'static [u8]
    ensures { result.now ≡ letter_of color }
{
    match color {
        Color::Blue => b"b",
        Color::Red => b"r",
    }
}
