//! The primaries and the loop-free alternates of a router: of each node the first arc, the second one if there is one, and the
//! next node.

ghost use Rattle.std.specs.Prelude.{◌<◌, IfSome, length};
ghost use Rattle.mrt_graph.specs.GraphInvariant.{IsNetwork};

use crate::calls::Call;
use crate::told::number_16_at;
use area_graph::{ArcNo, Area, Spot};
use lfa_alt::{Lfa, loop_free};
use mrt_graph::Kind;
use parts_of_tests::Page;
use primary_alt::{Primary, primaries};
use std::alloc::Global;

/// `primaries FILE ROUTER` and `loop_free FILE ROUTER`, with the router's number in the area.
pub fn put_hops(alloc: Global, area: &Area, call: Call, words: &str, page: &mut Page) {
    if let Some(source) = source(area, number_16_at(words, 0)) {
        put_of_router(alloc, area, call, source, page);
    }
}

/// The router of an area with this number.
fn source(area: &Area, number: u16) -> Option<Spot>
    ensures within { IfSome result (λ s. s < length area.now.ids) }
    ensures router { IfSome result (λ s. ¬ IsNetwork area.now.ids s) }
{
    if area.count() <= number {
        return None;
    }
    let source = Spot::new(number);
    match area.id(source).kind {
        Kind::Router => Some(source),
        Kind::Network => None,
    }
}

fn put_of_router(alloc: Global, area: &Area, call: Call, source: Spot, page: &mut Page)
    requires within { source < length area.now.ids }
    requires router { ¬ IsNetwork area.now.ids source }
{
    match call {
        Call::Primaries => {
            if let Ok(entries) = primaries(alloc, area, source) {
                put_primaries(page, &entries);
            }
        }
        _ => {
            if let Ok(entries) = loop_free(alloc, area, source) {
                put_alternates(page, &entries);
            }
        }
    }
}

fn put_primaries(page: &mut Page, entries: &[Option<Primary>]) {
    for t in 0..entries.len() {
        page.number("", t as u64);
        put_primary(page, entries[t]);
    }
}

/// Puts the rest of a line on a primary.
pub fn put_primary(page: &mut Page, primary: Option<Primary>) {
    match primary {
        Some(primary) => put_hop(page, primary.first, primary.second, primary.next),
        None => page.put(": none"),
    }
    page.end();
}

/// A line for each node: after a hop `node` where the primary's next is protected, else `link`.
fn put_alternates(page: &mut Page, entries: &[Option<Lfa>]) {
    for t in 0..entries.len() {
        let alternate = entries[t];
        page.number("", t as u64);
        match alternate {
            Some(lfa) => {
                put_hop(page, lfa.first, lfa.second, lfa.next);
                page.put(if lfa.node { " node\n" } else { " link\n" });
            }
            None => page.put(": none\n"),
        }
    }
}

/// Puts the arcs of a hop, and the node that they lead to.
fn put_hop(page: &mut Page, first: ArcNo, second: Option<ArcNo>, next: Spot) {
    match second {
        Some(second) => page.tell(": arcs % %", &[first.get(), second.get()]),
        None => page.count(": arc ", first.get()),
    }
    page.count(" next ", next.get());
}
