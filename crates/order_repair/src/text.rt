//! The text on a router's repairs by order.

ghost use Rattle.std.specs.Prelude.{◌<◌, ℕ, IfOk, length};
ghost use Rattle.link_direction.specs.{Directions.Directions, Directions.Says, OrderedGadag.SaysOrdered};
ghost use Rattle.mrt_rows.specs.DirectedFrom.{IsDirectedFrom};
ghost use Rattle.order_repair.specs.steps.Blocks.{AreBlockLists};
ghost use Rattle.order_repair.specs.steps.Source.{AreHopsIn, IsSourceIn};
ghost use Rattle.text_parts.specs.steps.Adds.{Adds};
ghost use Rattle.text_parts.specs.Parts.{AreParts};
ghost use Rattle.order_repair.specs.OrderText.{IsHead, IsOrderText, IsPartOn, IsTextFrom};

use crate::block_lists::BlockLists;
use crate::line::push_line;
use crate::pair::Pair;
use crate::source_view::SourceView;
use crate::tagging::tag_for;
use block_spf::{Dir, spf};
use mrt_graph::{Directed, Graph, NoMemory, NodeNo};
use std::alloc::Global;
use text_parts::{push, push_node};

/// The text on the repairs by order of a router: a line on the router and the root, and a line on each node with which the
/// router has a block of more than one link in common. That line has a letter for each node and each link of the block.
///
/// Two searches and one pass over the nodes and the links serve the whole text, and no walk is followed. It takes time in
/// proportion to the graph and to the text.
///
/// # Errors
///
/// [`NoMemory`] where there was none for the searches or the text.
pub fn order_text(
    alloc: Global,
    g: &Graph,
    root: NodeNo,
    d: &Directed,
    source: NodeNo,
) -> Result<Vec<u8>, NoMemory>
    requires directed { SaysOrdered g.now root d.now }
    requires source { source < length g.now.ids }
    ensures by_words { (w : Directions) → Says g.now d.now w
        → IfOk result (λ text. IsOrderText g.now root w source text.items) }
    ensures of_graph { IsDirectedFrom g.now root d.now
        → IfOk result (λ text. IsTextFrom g.now root source text.items) }
{
    // what each graph keeps is told by reading it
    let _count = g.node_count();
    let up = spf(alloc, g, d, source, Dir::Up)?;
    let down = spf(alloc, g, d, source, Dir::Down)?;
    let lists = BlockLists::new(alloc, g, d)?;
    let view = SourceView {
        graph: g,
        directed: d,
        up: &up,
        down: &down,
    };
    let mut text = Vec::new(alloc);
    push_head(&mut text, g, root, source)?;
    push_lines(&mut text, &view, &lists, source)?;
    Ok(text)
}

/// Puts the first line at the end of a text.
fn push_head(text: &mut Vec<u8>, g: &Graph, root: NodeNo, source: NodeNo) -> Result<(), NoMemory>
    requires root { root < length g.now.ids }
    requires source { source < length g.now.ids }
    ensures { IfOk result (λ _. Adds (IsHead g.now root source) text.old.items text.new.items) }
{
    push(text, b"order ")?;
    push_node(text, g.id(source))?;
    push(text, b" root ")?;
    push_node(text, g.id(root))?;
    push(text, b"\n")?;
    Ok(())
}

/// Puts the lines on all nodes at the end of a text.
fn push_lines(
    text: &mut Vec<u8>,
    view: &SourceView,
    lists: &BlockLists,
    source: NodeNo,
) -> Result<(), NoMemory>
    requires source { IsSourceIn view.now source }
    requires lists { AreBlockLists view.now.directed.now lists.now }
    ensures { (root : ℕ) (w : Directions) → AreHopsIn view.now root w source
        → IfOk result (λ _. Adds
        (AreParts (IsPartOn view.now.graph.now root w source) (length view.now.graph.now.ids))
        text.old.items text.new.items) }
{
    let count = view.graph.node_count();
    for t in 0..count {
        push_part(text, view, lists, source, NodeNo::new(t))?;
    }
    Ok(())
}

/// Puts the line on a node at the end of a text, where there is one.
fn push_part(
    text: &mut Vec<u8>,
    view: &SourceView,
    lists: &BlockLists,
    source: NodeNo,
    to: NodeNo,
) -> Result<(), NoMemory>
    requires source { IsSourceIn view.now source }
    requires lists { AreBlockLists view.now.directed.now lists.now }
    requires to { to < length view.now.graph.now.ids }
    ensures { (root : ℕ) (w : Directions) → AreHopsIn view.now root w source
        → IfOk result (λ _. Adds (IsPartOn view.now.graph.now root w source to)
        text.old.items text.new.items) }
{
    match tag_for(view, source, to) {
        Some(tag) => push_line(text, view, lists, &Pair { source, to, tag }),
        None => Ok(()),
    }
}
