//! The text on a router's loop-free alternates.

ghost use Rattle.std.specs.Prelude.{◌<◌, IfOk, IfSome, length};
ghost use Rattle.area_graph.specs.AreaInvariant.{IsArea};
ghost use Rattle.mrt_graph.specs.GraphInvariant.{IsNetwork};
ghost use Rattle.primary_alt.specs.Primaries.{ArePrimaries, IsPrimary};
ghost use Rattle.text_parts.specs.steps.Adds.{Adds};
ghost use Rattle.text_parts.specs.Parts.{AreParts};
ghost use Rattle.lfa_alt.specs.LfaText.{AreLfaWords, IsArcHop, IsHead, IsLfaHop, IsLfaText, IsLine, IsPartOn};
ghost use Rattle.lfa_alt.specs.LoopFree.{AreLfas, IsLfa};

use crate::alternate::Lfa;
use crate::finding::alternates;
use crate::protection::kind_word;
use area_graph::{ArcNo, Area, Spot};
use mrt_graph::NoMemory;
use primary_alt::{Primary, from_router};
use std::alloc::Global;
use text_parts::{push, push_count, push_hop, push_node};

/// The text on the loop-free alternates of a router: a line on the router, and a line on each node that it has a primary
/// for.
///
/// It takes the time of [`loop_free`](crate::loop_free) and of the text.
///
/// # Errors
///
/// [`NoMemory`] where there was none for the searches or the text.
pub fn lfa_text(alloc: Global, area: &Area, source: Spot) -> Result<Vec<u8>, NoMemory>
    requires within { source < length area.now.ids }
    requires router { ¬ IsNetwork area.now.ids source }
    ensures { IfOk result (λ text. IsLfaText area.now source text.items) }
{
    let from = from_router(alloc, area, source)?;
    let entries = alternates(alloc, area, source, &from)?;
    let mut text = Vec::new(alloc);
    push_head(&mut text, area, source)?;
    push_lines(&mut text, area, source, &from.primaries, &entries)?;
    Ok(text)
}

/// Puts the first line at the end of a text.
fn push_head(text: &mut Vec<u8>, area: &Area, source: Spot) -> Result<(), NoMemory>
    requires within { source < length area.now.ids }
    ensures { IfOk result (λ _. Adds (IsHead area.now source) text.old.items text.new.items) }
{
    push(text, b"lfa ")?;
    push_node(text, area.id(source))?;
    push(text, b" nodes ")?;
    push_count(text, area.count())?;
    push(text, b"\n")?;
    Ok(())
}

/// Puts the lines on all nodes at the end of a text.
fn push_lines(
    text: &mut Vec<u8>,
    area: &Area,
    source: Spot,
    primaries: &[Option<Primary>],
    entries: &[Option<Lfa>],
) -> Result<(), NoMemory>
    requires primaries { ArePrimaries area.now source primaries.now }
    requires entries { AreLfas area.now source entries.now }
    ensures { IfOk result (λ _.
        Adds (AreParts (IsPartOn area.now source) (length area.now.ids)) text.old.items text.new.items) }
{
    let count = area.count();
    for t in 0..count {
        let place = t as usize;
        push_part(
            text,
            area,
            source,
            Spot::new(t),
            primaries[place],
            entries[place],
        )?;
    }
    Ok(())
}

/// Puts the line on a node at the end of a text, where the node has a primary.
fn push_part(
    text: &mut Vec<u8>,
    area: &Area,
    source: Spot,
    t: Spot,
    primary: Option<Primary>,
    lfa: Option<Lfa>,
) -> Result<(), NoMemory>
    requires kept { IsArea area.now }
    requires within { t < length area.now.ids }
    requires primary { IsPrimary area.now source t primary }
    requires lfa { IsLfa area.now source t lfa }
    ensures { IfOk result (λ _. Adds (IsPartOn area.now source t) text.old.items text.new.items) }
{
    match primary {
        Some(primary) => push_line(text, area, source, t, primary, lfa),
        None => Ok(()),
    }
}

/// Puts the line on a node with a primary at the end of a text.
fn push_line(
    text: &mut Vec<u8>,
    area: &Area,
    source: Spot,
    t: Spot,
    primary: Primary,
    lfa: Option<Lfa>,
) -> Result<(), NoMemory>
    requires kept { IsArea area.now }
    requires within { t < length area.now.ids }
    requires first { primary.first < length area.now.arcs }
    requires there { IfSome lfa (λ lfa. lfa.first < length area.now.arcs) }
    requires next { IfSome lfa (λ lfa. lfa.next < length area.now.ids) }
    requires lfa { IsLfa area.now source t lfa }
    ensures { IfOk result (λ _. Adds (IsLine area.now source t primary) text.old.items text.new.items) }
{
    push_node(text, area.id(t))?;
    push(text, b" primary ")?;
    push_arc_hop(text, area, primary.first)?;
    push(text, b" lfa ")?;
    push_lfa(text, area, lfa)?;
    push(text, b"\n")?;
    Ok(())
}

/// Puts an alternate, or that there is none, at the end of a text.
fn push_lfa(text: &mut Vec<u8>, area: &Area, lfa: Option<Lfa>) -> Result<(), NoMemory>
    requires kept { IsArea area.now }
    requires there { IfSome lfa (λ lfa. lfa.first < length area.now.arcs) }
    requires next { IfSome lfa (λ lfa. lfa.next < length area.now.ids) }
    ensures { IfOk result (λ _. Adds (AreLfaWords area.now lfa) text.old.items text.new.items) }
{
    match lfa {
        Some(lfa) => push_lfa_hop(text, area, lfa),
        None => push(text, b"none"),
    }
}

/// Puts an alternate's hop, its next, and what it protects at the end of a text.
fn push_lfa_hop(text: &mut Vec<u8>, area: &Area, lfa: Lfa) -> Result<(), NoMemory>
    requires kept { IsArea area.now }
    requires there { lfa.first < length area.now.arcs }
    requires next { lfa.next < length area.now.ids }
    ensures { IfOk result (λ _. Adds (IsLfaHop area.now lfa) text.old.items text.new.items) }
{
    push_arc_hop(text, area, lfa.first)?;
    push(text, b" next ")?;
    push_node(text, area.id(lfa.next))?;
    push(text, b" ")?;
    push(text, kind_word(lfa.node))?;
    Ok(())
}

/// Puts the hop over an arc at the end of a text.
fn push_arc_hop(text: &mut Vec<u8>, area: &Area, number: ArcNo) -> Result<(), NoMemory>
    requires kept { IsArea area.now }
    requires within { number < length area.now.arcs }
    ensures { IfOk result (λ _. Adds (IsArcHop area.now number) text.old.items text.new.items) }
{
    let arc = area.arc(number);
    push_hop(text, area.id(arc.to), arc.link_data)?;
    Ok(())
}
