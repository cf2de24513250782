//! Graphs: their identifiers, links and ends.

use crate::hand_graphs::graph as graph_with;
use crate::told::{graph, made, number_or, push_line};
use mrt_graph::{End, Graph, LinkNo, NodeId, NodeNo};
use parts_of_tests::Page;
use std::alloc::Global;

/// All of a graph: each node with its identifier, the node that is found by it and its ends; the identifier that comes next,
/// and what is found by it; and each link.
pub fn put_graph(alloc: Global, words: &str, page: &mut Page) {
    if let Some(g) = graph(alloc, words, page) {
        put_nodes(&g, page);
        put_links(&g, page);
    }
}

fn put_nodes(g: &Graph, page: &mut Page) {
    for n in 0..g.node_count() {
        page.tell("node %: ", &[n]);
        put_id(g, g.id(NodeNo::new(n)), page);
        put_ends(g.ends(NodeNo::new(n)), page);
    }
    page.put("no node: ");
    put_id(g, NodeId::router(u32::from(g.node_count()) + 1), page);
    page.end();
}

/// An identifier, and the node that is found by it.
fn put_id(g: &Graph, id: NodeId, page: &mut Page) {
    page.name(id);
    match g.find(id) {
        Some(n) => page.node(" found=", n),
        None => page.put(" found=none"),
    }
}

/// The ends of a node: link, far node, metric and link data.
fn put_ends(ends: &[End], page: &mut Page) {
    page.put(" ends=");
    let mut before = "";
    for end in ends {
        page.put(before);
        page.tell("%>%:%", &[end.link.get(), end.to.get(), end.metric]);
        page.number(":", u64::from(end.link_data));
        before = ",";
    }
    page.end();
}

fn put_links(g: &Graph, page: &mut Page) {
    for e in 0..g.link_count() {
        let link = g.link(LinkNo::new(e));
        page.tell("link %: %-%\n", &[e, link.a.get(), link.b.get()]);
    }
}

/// The counts of the graph of so many routers in a row, each two neighbours with so many links.
pub fn put_counts(alloc: Global, words: &str, page: &mut Page) {
    let routers = number_or(words, "routers", 0);
    let mut links = Vec::new(alloc);
    push_line(&mut links, routers, number_or(words, "times", 0));
    if let Some(g) = made(graph_with(alloc, routers, routers, links), page) {
        page.tell("nodes=% links=%\n", &[g.node_count(), g.link_count()]);
    }
}
