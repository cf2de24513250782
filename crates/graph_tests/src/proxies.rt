//! Rows for a prefix that is attached to two routers, by an accepted certificate; whether the plain programs find
//! them sound; and where packets on a color go next.

ghost use Rattle.std.specs.Prelude.{◌≢◌, ◌<◌, IsTrue, length};
ghost use Rattle.mrt_graph.specs.AcceptedFor.{IsAcceptedFor};
ghost use Rattle.mrt_plain.specs.Within.{AreWithin};

use crate::calls::Call;
use crate::island::{Island, Two, island_of};
use crate::plain::told_of;
use crate::told::two_nodes;
use cert_checker::{Verdict, check};
use mrt_graph::{Cert, CertFile, Color, Graph, LinkNo, NodeNo};
use parts_of_tests::Page;
use proxy_rows::{Out, ProxyError, ProxyRow, proxy_rows};
use std::alloc::Global;

pub fn is_accepted(g: &Graph, root: NodeNo, file: &CertFile) -> bool
    requires { root < length g.now.ids }
    ensures { IsTrue result → IsAcceptedFor g.now file.now.cert }
{
    match check(g, root, file) {
        Verdict::Yes => true,
        Verdict::No { .. } => false,
    }
}

fn put_error(page: &mut Page, error: ProxyError) {
    match error {
        ProxyError::NoCommonBlock => page.put("no common block\n"),
        ProxyError::NoMemory => {}
    }
}

/// The rows for a prefix that is attached to two routers.
pub fn put_proxy_rows(alloc: Global, g: &Graph, c: &Cert, words: &str, page: &mut Page)
    requires { IsAcceptedFor g.now c.now }
{
    if let Some((a, b)) = two_nodes(words, "a", "b", g.node_count()) {
        if a != b {
            match proxy_rows(alloc, g, c, a, b) {
                Ok(rows) => put_rows(page, &rows),
                Err(error) => put_error(page, error),
            }
        }
    }
}

fn put_rows(page: &mut Page, rows: &[ProxyRow]) {
    for n in 0..rows.len() {
        page.number("node ", n as u64);
        put_out(page, ": blue=", rows[n].blue);
        put_out(page, " red=", rows[n].red);
        page.end();
    }
}

fn put_out(page: &mut Page, before: &str, out: Out) {
    match out {
        Out::Link(link) => page.link(before, link),
        Out::Attached => {
            page.put(before);
            page.put("attached");
        }
    }
}

/// For each two nodes, what the plain programs find of the rows for both as routers, or where packets between them go next.
pub fn put_each_two(alloc: Global, call: Call, g: &Graph, c: &Cert, page: &mut Page)
    requires { IsAcceptedFor g.now c.now }
{
    for a in 0..g.node_count() {
        for b in 0..g.node_count() {
            if a != b {
                let (a, b) = (NodeNo::new(a), NodeNo::new(b));
                match call {
                    Call::Next => put_next(g, c, a, b, page),
                    _ => put_sound_pair(alloc, g, c, a, b, page),
                }
            }
        }
    }
}

fn put_sound_pair(alloc: Global, g: &Graph, c: &Cert, a: NodeNo, b: NodeNo, page: &mut Page)
    requires accepted { IsAcceptedFor g.now c.now }
    requires first { a < length g.now.ids }
    requires second { b < length g.now.ids }
    requires different { a ≢ b }
{
    page.tell("% %: ", &[a.get(), b.get()]);
    match proxy_rows(alloc, g, c, a, b) {
        Ok(rows) => put_soundness(alloc, g, in_order(c, a, b), &rows, page),
        Err(error) => put_error(page, error),
    }
}

/// Two routers, that with the lower order first.
fn in_order(c: &Cert, a: NodeNo, b: NodeNo) -> Two {
    let orders = c.nodes();
    match (
        orders.get(usize::from(a.get())),
        orders.get(usize::from(b.get())),
    ) {
        (Some(one), Some(other)) if other.order < one.order => (b.get(), a.get()),
        _ => (a.get(), b.get()),
    }
}

fn put_soundness(
    alloc: Global,
    g: &Graph,
    (lower, upper): Two,
    entries: &[ProxyRow],
    page: &mut Page,
) {
    let count = g.node_count();
    let pairs = pairs_with(alloc, g, lower, upper);
    let rows = rows_with(alloc, count, g.link_count(), lower, entries);
    if let Some(island) = island_of(alloc, count.saturating_add(1), &pairs, &rows) {
        let is_so = is_sound_to(alloc, &island, count);
        page.put(if is_so { "sound\n" } else { "not sound\n" });
    }
}

/// The two nodes of each link of a graph, and last those of two links to one node more.
fn pairs_with(alloc: Global, g: &Graph, lower: u16, upper: u16) -> Vec<Two> {
    let mut pairs = Vec::new(alloc);
    for e in 0..g.link_count() {
        let link = g.link(LinkNo::new(e));
        let _ = pairs.push((link.a.get(), link.b.get()));
    }
    let _ = pairs.push((lower, g.node_count()));
    let _ = pairs.push((upper, g.node_count()));
    pairs
}

/// The rows of so many nodes and one more: those for that one by their entries, and any for the others.
fn rows_with(alloc: Global, count: u16, first: u16, lower: u16, entries: &[ProxyRow]) -> Vec<Two> {
    let mut rows = Vec::new(alloc);
    for s in 0..count.saturating_add(1) {
        for t in 0..count.saturating_add(1) {
            if s != t {
                let _ = rows.push(row_with(entries, s, t, first, lower));
            }
        }
    }
    rows
}

/// The row of `s` for `t`, by the number of the first link to the new node, which is that of the lower router.
fn row_with(entries: &[ProxyRow], s: u16, t: u16, first: u16, lower: u16) -> Two {
    let own = first.saturating_add(if s == lower { 0 } else { 1 });
    match entries.get(usize::from(s)) {
        Some(entry) if usize::from(t) == entries.len() => {
            (link_out(entry.blue, own), link_out(entry.red, own))
        }
        _ => (0, 0),
    }
}

fn link_out(out: Out, own: u16) -> u16 {
    match out {
        Out::Link(e) => e.get(),
        Out::Attached => own,
    }
}

/// Whether both colors reach `t` from each node below it, and share only what separates the two.
fn is_sound_to(alloc: Global, island: &Island, t: u16) -> bool
    requires { AreWithin (length island.now.cert.nodes) island.now.links.items }
{
    if island.cert.node_count() <= t {
        return false;
    }
    for s in 0..t {
        if told_of(alloc, island, NodeNo::new(s), NodeNo::new(t)) != (true, true, true) {
            return false;
        }
    }
    true
}

/// The next node on both colors, from one node to another one.
fn put_next(g: &Graph, c: &Cert, s: NodeNo, t: NodeNo, page: &mut Page)
    requires accepted { IsAcceptedFor g.now c.now }
    requires source { s < length g.now.ids }
    requires target { t < length g.now.ids }
    requires different { s ≢ t }
{
    let blue = next_of(g, c, Color::Blue, s, t);
    let red = next_of(g, c, Color::Red, s, t);
    page.tell(
        "% to %: blue=% red=%\n",
        &[s.get(), t.get(), blue.get(), red.get()],
    );
}

/// The node after `s` on a color, on the way to `t`.
fn next_of(g: &Graph, c: &Cert, color: Color, s: NodeNo, t: NodeNo) -> NodeNo
    requires accepted { IsAcceptedFor g.now c.now }
    requires source { s < length g.now.ids }
    requires target { t < length g.now.ids }
    requires different { s ≢ t }
{
    g.next(c, s, t, color)
}
