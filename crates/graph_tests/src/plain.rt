//! The plain programs on small islands: sound rows, color walks, arrival, and what separates two nodes.

ghost use Rattle.std.specs.Prelude.{◌<◌, length};
ghost use Rattle.mrt_plain.specs.Within.{AreWithin};

use crate::calls::Call;
use crate::island::{Island, island_told, links_between, pairs_told};
use crate::told::{graph, list, number, number_or, two_nodes};
use mrt_graph::{Color, Element, Link, LinkNo, NodeNo};
use mrt_plain::{Course, apart, follow, links_of, reaches, separates, sound};
use parts_of_tests::Page;
use std::alloc::Global;

/// Puts what a call asks of the rows of an island.
pub fn put_of_island(alloc: Global, call: Call, words: &str, page: &mut Page) {
    if let Some(island) = island_told(alloc, words) {
        match call {
            Call::Sound => put_sound(alloc, &island, page),
            _ => put_between(alloc, call, &island, words, page),
        }
    }
}

/// Puts a text, and whether something is so.
fn put_yes(page: &mut Page, before: &str, is_so: bool) {
    page.put(before);
    page.put(if is_so { "yes" } else { "no" });
}

/// Whether the rows of an island are sound.
fn put_sound(alloc: Global, island: &Island, page: &mut Page)
    requires { AreWithin (length island.now.cert.nodes) island.now.links.items }
{
    let is_so = sound(alloc, &island.links, &island.cert).unwrap_or(false);
    put_yes(page, "", is_so);
    page.end();
}

/// Puts what a call asks of the rows from one node of an island to another one.
fn put_between(alloc: Global, call: Call, island: &Island, words: &str, page: &mut Page)
    requires { AreWithin (length island.now.cert.nodes) island.now.links.items }
{
    if let Some((s, t)) = two_nodes(words, "from", "to", island.cert.node_count()) {
        match call {
            Call::Follow => put_followed(alloc, island, color_told(words), s, t, page),
            _ => put_reaches(alloc, island, s, t, page),
        }
    }
}

/// A color walk: the links that it takes, the nodes that it meets, and where it ends.
fn put_followed(alloc: Global, island: &Island, color: Color, s: NodeNo, t: NodeNo, page: &mut Page)
    requires within { AreWithin (length island.now.cert.nodes) island.now.links.items }
    requires source { s < length island.now.cert.nodes }
    requires target { t < length island.now.cert.nodes }
{
    if let Ok(course) = follow(alloc, &island.links, &island.cert, color, s, t) {
        put_course(page, &course);
    }
}

/// The color that words tell; red where they tell another one.
fn color_told(words: &str) -> Color {
    match list(words, "color") {
        "blue" => Color::Blue,
        _ => Color::Red,
    }
}

fn put_course(page: &mut Page, course: &Course) {
    page.put("links=");
    let mut before = "";
    for link in &course.links {
        page.link(before, *link);
        before = ",";
    }
    page.put(" nodes=");
    before = "";
    for node in &course.nodes {
        page.node(before, *node);
        before = ",";
    }
    page.tell(" end=%\n", &[course.end.get()]);
}

/// Whether blue goes from one node to another, whether red does, and whether they share only what separates the two.
fn put_reaches(alloc: Global, island: &Island, s: NodeNo, t: NodeNo, page: &mut Page)
    requires within { AreWithin (length island.now.cert.nodes) island.now.links.items }
    requires source { s < length island.now.cert.nodes }
    requires target { t < length island.now.cert.nodes }
{
    let (blue, red, apart) = told_of(alloc, island, s, t);
    put_yes(page, "blue=", blue);
    put_yes(page, " red=", red);
    put_yes(page, " apart=", apart);
    page.end();
}

/// Whether blue goes from `s` to `t`, whether red does, and whether they share only what separates the two.
pub fn told_of(alloc: Global, island: &Island, s: NodeNo, t: NodeNo) -> (bool, bool, bool)
    requires within { AreWithin (length island.now.cert.nodes) island.now.links.items }
    requires source { s < length island.now.cert.nodes }
    requires target { t < length island.now.cert.nodes }
{
    let (links, cert) = (island.links.as_slice(), &island.cert);
    let blue = reaches(alloc, links, cert, Color::Blue, s, t).unwrap_or(false);
    let red = reaches(alloc, links, cert, Color::Red, s, t).unwrap_or(false);
    let apart = apart(alloc, links, cert, s, t).unwrap_or(false);
    (blue, red, apart)
}

/// The element that words tell, as `node=2` or `link=1`.
fn element_told(words: &str) -> Element {
    match number(words, "node") {
        Some(node) => Element::Node(NodeNo::new(node)),
        None => Element::Link(LinkNo::new(number_or(words, "link", u16::MAX))),
    }
}

/// Whether an element separates two nodes.
pub fn put_separates(alloc: Global, words: &str, page: &mut Page) {
    let count = number_or(words, "nodes", 0);
    let pairs = pairs_told(alloc, list(words, "links"), '-');
    if let Some(links) = links_between(alloc, count, &pairs) {
        put_separated(alloc, count, &links, words, page);
    }
}

fn put_separated(alloc: Global, count: u16, links: &[Link], words: &str, page: &mut Page)
    requires { AreWithin count links.now }
{
    if let Some((s, t)) = two_nodes(words, "from", "to", count) {
        let is_so = separates(alloc, links, count, element_told(words), s, t).unwrap_or(false);
        put_yes(page, "", is_so);
        page.end();
    }
}

/// The links of a graph as a list.
pub fn put_links_of(alloc: Global, words: &str, page: &mut Page) {
    let Some(g) = graph(alloc, words, page) else {
        return;
    };
    if let Ok(links) = links_of(alloc, &g) {
        put_pairs(page, &links);
    }
}

fn put_pairs(page: &mut Page, links: &[Link]) {
    page.number("count=", links.len() as u64);
    page.end();
    for link in links {
        page.tell("%-%\n", &[link.a.get(), link.b.get()]);
    }
}
