//! What words tell: numbers, nodes and graphs. Node k of a graph has the number k + 1.
//!
//!     nodes=3 routers=2 links=0-1:10/20,0-2:10/0,1-2:10/0 root=2
//!
//! Each link has its lower node first, its metric at each of the two, and after a second `:` its link data there;
//! metrics are 10 where they are left out. `routers` is left out where all nodes are routers, `links` where there are
//! none. `ring=130` and `line=2048` tell the graphs of so many routers whose links make a ring and a line.

ghost use Rattle.std.specs.Prelude.{◌<◌, IfSome, length};

use crate::hand_graphs::{graph as graph_with, link};
use mrt_graph::{Graph, GraphError, LinkIn, NodeNo};
use parts_of_tests::Page;
use std::alloc::Global;

/// What stands after a name and `=`.
pub fn told<'a>(words: &'a str, name: &str) -> Option<&'a str> {
    for word in words.split(' ') {
        if let Some((before, after)) = word.split_once('=') {
            if before == name {
                return Some(after);
            }
        }
    }
    None
}

/// What stands after a name; nothing where it is not there.
pub fn list<'a>(words: &'a str, name: &str) -> &'a str {
    told(words, name).unwrap_or("")
}

/// The number after a name.
pub fn number(words: &str, name: &str) -> Option<u16> {
    list(words, name).parse().ok()
}

/// The number after a name; this one where it is not there.
pub fn number_or(words: &str, name: &str, other: u16) -> u16 {
    number(words, name).unwrap_or(other)
}

/// The node of a graph whose number stands after a name.
pub fn node(g: &Graph, words: &str, name: &str) -> Option<NodeNo>
    ensures { IfSome result (λ n. n < length g.now.ids) }
{
    let n = number_or(words, name, u16::MAX);
    if n < g.node_count() {
        Some(NodeNo::new(n))
    } else {
        None
    }
}

/// The two nodes, among so many, whose numbers stand after two names.
pub fn two_nodes(words: &str, one: &str, other: &str, count: u16) -> Option<(NodeNo, NodeNo)>
    ensures { IfSome result (λ two. (two.0 < count) × (two.1 < count)) }
{
    let one = number_or(words, one, u16::MAX);
    let other = number_or(words, other, u16::MAX);
    if one < count && other < count {
        return Some((NodeNo::new(one), NodeNo::new(other)));
    }
    None
}

/// Both numbers of a text, as `10/20`.
pub fn two(text: &str, mark: char) -> Option<(u16, u16)> {
    let (one, other) = text.split_once(mark)?;
    match (one.parse(), other.parse()) {
        (Ok(one), Ok(other)) => Some((one, other)),
        _ => None,
    }
}

/// The link that a text tells, as `0-1:10/20:1/2`. Metrics that are not told are 10, link data that is not told is 0.
fn link_of(text: &str) -> Option<LinkIn> {
    let (nodes, values) = text.split_once(':').unwrap_or((text, "10/10"));
    let (metrics, data) = values.split_once(':').unwrap_or((values, "0/0"));
    match (two(nodes, '-'), two(metrics, '/'), two(data, '/')) {
        (Some((a, b)), Some((metric_a, metric_b)), Some((data_a, data_b))) => Some(LinkIn {
            a: NodeNo::new(a),
            b: NodeNo::new(b),
            metric_a,
            metric_b,
            data_a: u32::from(data_a),
            data_b: u32::from(data_b),
        }),
        _ => None,
    }
}

/// Puts the links that words tell. For a text that tells none it puts one from a node to itself, which no graph has.
fn push_told(links: &mut Vec<LinkIn>, words: &str) {
    for text in list(words, "links").split_terminator(',') {
        let _ = links.push(link_of(text).unwrap_or(link(0, 0, 0, 0)));
    }
}

/// Puts the links of so many routers in a row, each two neighbours with so many links.
pub fn push_line(links: &mut Vec<LinkIn>, routers: u16, times: u16) {
    for n in 1..routers {
        for _ in 0..times {
            let _ = links.push(link(n - 1, n, 1, 1));
        }
    }
}

/// Puts the links of a ring of so many routers.
fn push_ring(links: &mut Vec<LinkIn>, routers: u16) {
    for n in 1..routers {
        let _ = links.push(link(n - 1, n, 10, 20));
        if n == 1 {
            let _ = links.push(link(0, routers - 1, 5, 5));
        }
    }
}

/// The graph that words tell. Where they tell none, it says why.
pub fn graph(alloc: Global, words: &str, page: &mut Page) -> Option<Graph> {
    let line = number_or(words, "line", 0);
    let ring = number_or(words, "ring", 0);
    let mut links = Vec::new(alloc);
    push_line(&mut links, line, 1);
    push_ring(&mut links, ring);
    push_told(&mut links, words);
    let count = number_or(words, "nodes", line.max(ring));
    let routers = number_or(words, "routers", count);
    made(graph_with(alloc, count, routers, links), page)
}

/// The graph that was made. Where none was, it says why.
pub fn made(answer: Result<Option<Graph>, GraphError>, page: &mut Page) -> Option<Graph> {
    match answer {
        Ok(Some(g)) => return Some(g),
        Ok(None) => page.put("no graph\n"),
        Err(GraphError::TooLarge { nodes, links }) => {
            page.number("too large: nodes=", u64::from(nodes));
            page.number(" links=", u64::from(links));
            page.end();
        }
        Err(GraphError::NoMemory) => {}
    }
    None
}
