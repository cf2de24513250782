//! The colors that repair failures, by a certificate and by the rows for one destination.

ghost use Rattle.std.specs.Prelude.{◌<◌, length};
ghost use Rattle.mrt_graph.specs.AcceptedFor.{IsAcceptedFor};
ghost use Rattle.mrt_graph.specs.Column.{ColumnSound};

use crate::told::{number_16_at, word};
use mrt_graph::{Cert, Color, Column, Element, Graph, LinkNo, NodeNo};
use mrt_rows::{column_of, directions};
use parts_of_tests::Page;
use primary_alt::{alternate, alternate_on};
use std::alloc::Global;

/// The color on which a node, which the second word numbers, sends a packet for the third one after a failure.
pub fn put_alternate(g: &Graph, cert: &Cert, words: &str, page: &mut Page)
    requires { IsAcceptedFor g.now cert.now }
{
    let (source, to) = (number_16_at(words, 1), number_16_at(words, 2));
    if g.node_count() <= source || g.node_count() <= to {
        return;
    }
    let failed = failed(word(words, 3), number_16_at(words, 4));
    let color = alternate(g, cert, NodeNo::new(source), NodeNo::new(to), failed);
    put_color(page, color, "blue\n", "red\n", "none\n");
}

/// What has failed: `node 1`, `link 4`, or an element outside the island.
fn failed(kind: &str, number: u16) -> Option<Element> {
    match kind {
        "node" => Some(Element::Node(NodeNo::new(number))),
        "link" => Some(Element::Link(LinkNo::new(number))),
        _ => None,
    }
}

fn put_color(page: &mut Page, color: Option<Color>, blue: &str, red: &str, none: &str) {
    match color {
        Some(Color::Blue) => page.put(blue),
        Some(Color::Red) => page.put(red),
        None => page.put(none),
    }
}

/// Of each destination and each failure the colors of all sources, by the certificate and by the rows for the destination.
pub fn put_repairs(alloc: Global, g: &Graph, root: NodeNo, cert: &Cert, page: &mut Page)
    requires accepted { IsAcceptedFor g.now cert.now }
    requires root { root < length g.now.ids }
{
    for t in 0..g.node_count() {
        put_repairs_to(alloc, g, root, cert, NodeNo::new(t), page);
    }
}

fn put_repairs_to(alloc: Global, g: &Graph, root: NodeNo, cert: &Cert, t: NodeNo, page: &mut Page)
    requires accepted { IsAcceptedFor g.now cert.now }
    requires root { root < length g.now.ids }
    requires target { t < length g.now.ids }
{
    let Ok(d) = directions(alloc, g, root) else {
        return;
    };
    if let Ok(column) = column_of(alloc, g, root, &d, t) {
        put_column(g, cert, &column, t, page);
    }
}

/// A line for each node, and one for each link.
fn put_column(g: &Graph, cert: &Cert, column: &Column, t: NodeNo, page: &mut Page)
    requires accepted { IsAcceptedFor g.now cert.now }
    requires sound { ColumnSound g.now.links (length g.now.ids) column.now t }
    requires target { t < length g.now.ids }
{
    for n in 0..g.node_count() {
        page.tell("to % node %", &[t.get(), n]);
        put_both(g, cert, column, t, &Element::Node(NodeNo::new(n)), page);
    }
    for e in 0..g.link_count() {
        page.tell("to % link %", &[t.get(), e]);
        put_both(g, cert, column, t, &Element::Link(LinkNo::new(e)), page);
    }
}

/// The letters of all sources, by the certificate and by the column.
fn put_both(g: &Graph, cert: &Cert, column: &Column, t: NodeNo, x: &Element, page: &mut Page)
    requires accepted { IsAcceptedFor g.now cert.now }
    requires sound { ColumnSound g.now.links (length g.now.ids) column.now t }
    requires target { t < length g.now.ids }
{
    put_letters(g, cert, t, x, page);
    put_letters_on(g, column, t, x, page);
    page.end();
}

/// The letters of all sources by the certificate; a dot for the destination itself.
fn put_letters(g: &Graph, cert: &Cert, t: NodeNo, x: &Element, page: &mut Page)
    requires accepted { IsAcceptedFor g.now cert.now }
    requires target { t < length g.now.ids }
{
    page.put(": ");
    for s in 0..g.node_count() {
        if s == t.get() {
            page.put(".");
        } else {
            let color = alternate(g, cert, NodeNo::new(s), t, Some(*x));
            put_color(page, color, "b", "r", "-");
        }
    }
}

/// The same by the rows for the destination.
fn put_letters_on(g: &Graph, column: &Column, t: NodeNo, x: &Element, page: &mut Page)
    requires sound { ColumnSound g.now.links (length g.now.ids) column.now t }
    requires target { t < length g.now.ids }
{
    page.put(" ");
    for s in 0..g.node_count() {
        if s == t.get() {
            page.put(".");
        } else {
            let color = alternate_on(g, column, NodeNo::new(s), t, Some(*x));
            put_color(page, color, "b", "r", "-");
        }
    }
}
