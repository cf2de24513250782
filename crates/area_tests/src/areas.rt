//! Areas, and what is asked of one. `area FILE`; `find FILE NODE..`: a node by its name; `named FILE ROUTER DATA`: a bond by a
//! router and link data; `numbered FILE`: the arcs of the first node, each by its number.

use crate::told::{address_at, node, spell};
use area_graph::{Arc, ArcNo, Area, Bond, Spot};
use parts_of_tests::Page;

/// The nodes, each with its number, its name, the place where it is found by that, and its arcs; and the bonds.
pub fn put_area(page: &mut Page, area: &Area) {
    if area.count() == 0 {
        page.put("no node\n");
    }
    for number in 0..area.count() {
        let spot = Spot::new(number);
        let id = area.id(spot);
        page.tell("%: ", &[number]);
        page.name(id);
        put_place(page, area.find(id));
        for arc in area.arcs(spot) {
            put_arc(page, arc);
        }
    }
    put_bonds(page, area.bonds());
}

fn put_place(page: &mut Page, spot: Option<Spot>) {
    match spot {
        Some(spot) => page.count(" found at ", spot.get()),
        None => page.put(" not found"),
    }
    page.end();
}

fn put_arc(page: &mut Page, arc: &Arc) {
    let (tail, to, bond) = (arc.tail.get(), arc.to.get(), arc.bond.get());
    spell(
        page,
        "  % to % metric % data @ bond %\n",
        &[
            tail as u32,
            to as u32,
            arc.metric as u32,
            arc.link_data,
            bond as u32,
        ],
    );
}

fn put_bonds(page: &mut Page, bonds: &[Bond]) {
    for number in 0..bonds.len() {
        page.number("bond ", number as u64);
        put_bond(page, &bonds[number]);
    }
}

fn put_bond(page: &mut Page, bond: &Bond) {
    let (a, b) = (bond.a.get() as u32, bond.b.get() as u32);
    let (metric_a, metric_b) = (bond.metric_a as u32, bond.metric_b as u32);
    page.put(if bond.paired { ": pair" } else { ": single" });
    spell(
        page,
        " % % data @ @ metric % %\n",
        &[a, b, bond.data_a, bond.data_b, metric_a, metric_b],
    );
}

/// The place of each node that a word names.
pub fn put_found(page: &mut Page, area: &Area, words: &str) {
    for name in words.split_terminator(' ') {
        page.put(name);
        put_place(page, area.find(node(name)));
    }
}

/// The bond of a router's first arc with link data.
pub fn put_named(page: &mut Page, area: &Area, words: &str) {
    match area.named(address_at(words, 0), address_at(words, 1)) {
        Some(bond) => page.count("bond ", bond.get()),
        None => page.put("none"),
    }
    page.end();
}

/// As many arcs, by number, as the first node has.
pub fn put_numbered(page: &mut Page, area: &Area) {
    if area.count() == 0 {
        return;
    }
    let row = area.arcs(Spot::new(0));
    for number in 0..u16::MAX {
        let place = usize::from(number);
        if row.len() <= place {
            break;
        }
        let arc = ArcNo::new(number);
        put_arc(page, &area.arc(arc));
    }
}
