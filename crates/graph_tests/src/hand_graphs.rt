//! Graphs by hand: routers first, then networks. Node k has the number k + 1.

ghost use Rattle.std.specs.Prelude.{
  ◌≡◌,
  ◌<◌,
  ◌≤◌,
  ◌⊎◌,
  ◌+◌,
  ℕ,
  IsTrue,
  IfOk,
  map,
  false,
  length,
  nat_lt,
  slice_index_or,
  if◌then◌else◌,
};
ghost use Rattle.std.specs.List.{All};
ghost use Rattle.std.specs.Ordering.{is_lt};
ghost use Rattle.mrt_graph.specs.declared.link.LinkIn.{LinkIn};
ghost use Rattle.mrt_graph.specs.declared.node_id.NodeId.{NodeId};
ghost use Rattle.mrt_graph.specs.Connected.{IsConnected};
ghost use Rattle.mrt_graph.specs.steps.EndRows.{IsWithin};
ghost use Rattle.mrt_graph.specs.EndsOfLinks.{pair_of};
ghost use Rattle.mrt_graph.specs.NewGraph.{pair_cmp};
ghost use Rattle.mrt_graph.specs.Search.{IsMarked};
ghost use Rattle.graph_tests.specs.steps.Reached.{AreReached};

use mrt_graph::{Graph, GraphError, Kind, LinkIn, NoMemory, NodeId, NodeNo};
use std::alloc::Global;

/// So many nodes, the first of them routers, the others networks.
fn identifiers(alloc: Global, count: u16, routers: u16) -> Result<Vec<NodeId>, NoMemory>
    ensures count { IfOk result (λ ids. length ids.items ≡ count) }
    ensures ids { IfOk result (λ ids. (k : ℕ) (d : NodeId) → k < count
        → slice_index_or ids.items k d
        ≡ record { kind = if nat_lt k routers then Kind.Router else Kind.Network; number = k + 1 }) }
{
    let mut ids = Vec::new(alloc);
    for k in 0..count {
        ids.push(identifier(k, routers))?;
    }
    Ok(ids)
}

fn identifier(k: u16, routers: u16) -> NodeId
    ensures { result ≡ record
        { kind = if nat_lt k routers then Kind.Router else Kind.Network; number = k + 1 } }
{
    let number = k as u32 + 1;
    if k < routers {
        return NodeId::router(number);
    }
    NodeId::network(number)
}

/// Whether each link has its lower node first, a router, and joins two of so many nodes.
fn are_within(count: u16, routers: u16, links: &[LinkIn]) -> bool
    ensures within { IsTrue result → All (IsWithin count) links.now }
    ensures routers { IsTrue result → All (λ link. link.a < routers) links.now }
{
    for link in links {
        if link.b <= link.a || count <= link.b.get() || routers <= link.a.get() {
            return false;
        }
    }
    true
}

fn is_before(x: &LinkIn, y: &LinkIn) -> bool
    ensures { result ≡ is_lt (pair_cmp (pair_of x.now) (pair_of y.now)) }
{
    (x.a.get(), x.b.get()) < (y.a.get(), y.b.get())
}

fn are_ascending(links: &[LinkIn]) -> bool
    ensures { IsTrue result → (k : ℕ) (d : LinkIn) → k + 1 < length links.now → is_lt (pair_cmp
        (pair_of (slice_index_or links.now (k + 1) d)) (pair_of (slice_index_or links.now k d))) ≡ false }
{
    for i in 1..links.len() {
        if is_before(&links[i], &links[i - 1]) {
            return false;
        }
    }
    true
}

/// Marks both nodes of a link, where one of them has its mark.
fn join(marks: &mut Vec<bool>, a: usize, b: usize)
    requires a { a < length marks.old.items }
    requires b { b < length marks.old.items }
    ensures count { length marks.new.items ≡ length marks.old.items }
    ensures marks { (v : ℕ) → IsMarked marks.new.items v → IsMarked marks.old.items v
        ⊎ ((IsMarked marks.old.items a ⊎ IsMarked marks.old.items b) × ((v ≡ a) ⊎ (v ≡ b))) }
{
    if marks[a] || marks[b] {
        marks[a] = true;
        marks[b] = true;
    }
}

/// Joins the nodes of all links.
fn join_all(marks: &mut Vec<bool>, links: &[LinkIn])
    requires { All (IsWithin (length marks.old.items)) links.now }
    ensures count { length marks.new.items ≡ length marks.old.items }
    ensures reached { AreReached (map pair_of links.now) marks.old.items
        → AreReached (map pair_of links.now) marks.new.items }
{
    for link in links {
        join(marks, link.a.get() as usize, link.b.get() as usize);
    }
}

/// Whether the links connect so many nodes.
fn are_connected(alloc: Global, count: u16, links: &[LinkIn]) -> Result<bool, NoMemory>
    requires some { 1 ≤ count }
    requires within { All (IsWithin count) links.now }
    ensures { IfOk result (λ are. IsTrue are → IsConnected count (map pair_of links.now)) }
{
    let mut marks = vec![in alloc; false; count as usize]?;
    marks[0] = true;
    for _ in 0..count {
        join_all(&mut marks, links);
    }
    Ok(are_marked(&marks))
}

fn are_marked(marks: &[bool]) -> bool
    ensures { IsTrue result → (v : ℕ) → v < length marks.now → IsMarked marks.now v }
{
    for v in 0..marks.len() {
        if !marks[v] {
            return false;
        }
    }
    true
}

/// Whether so many nodes, the first of them routers, are a graph with these links.
fn make_graph(alloc: Global, count: u16, routers: u16, links: &[LinkIn]) -> Result<bool, NoMemory>
    ensures some { IfOk result (λ make. IsTrue make → 1 ≤ count) }
    ensures within { IfOk result (λ make. IsTrue make → All (IsWithin count) links.now) }
    ensures routers { IfOk result (λ make. IsTrue make → All (λ link. link.a < routers) links.now) }
    ensures ascending { IfOk result (λ make. IsTrue make → (k : ℕ) (d : LinkIn) → k + 1 < length links.now → is_lt (pair_cmp
        (pair_of (slice_index_or links.now (k + 1) d)) (pair_of (slice_index_or links.now k d))) ≡ false) }
    ensures connected { IfOk result (λ make. IsTrue make → IsConnected count (map pair_of links.now)) }
{
    if 0 < count && are_within(count, routers, links) && are_ascending(links) {
        return are_connected(alloc, count, links);
    }
    Ok(false)
}

/// The graph of so many nodes, the first of them routers, with these links, where they are one.
pub fn graph(
    alloc: Global,
    count: u16,
    routers: u16,
    links: Vec<LinkIn>,
) -> Result<Option<Graph>, GraphError> {
    if !make_graph(alloc, count, routers, &links)? {
        return Ok(None);
    }
    let ids = identifiers(alloc, count, routers)?;
    Ok(Some(Graph::new(alloc, ids, links)?))
}

/// A link between two nodes, with its metric at each of them.
pub fn link(a: u16, b: u16, metric_a: u16, metric_b: u16) -> LinkIn {
    LinkIn {
        a: NodeNo::new(a),
        b: NodeNo::new(b),
        metric_a,
        metric_b,
        data_a: 0,
        data_b: 0,
    }
}
