//! `order_walks`: the colors by order beside the walks that the plain program follows. For each two nodes of a block
//! with more than one link, each other node and each link of the block fails in turn; told is how many walks of the
//! chosen color arrive and do not use what has failed.

ghost use Rattle.std.specs.Prelude.{◌≡◌, ◌<◌, IfSome, length};
ghost use Rattle.block_spf.specs.HasDirections.{HasDirections};
ghost use Rattle.mrt_plain.specs.Within.{AreWithin};
ghost use Rattle.order_repair.specs.Failed.{IsWithin};

use crate::paths::reach_of;
use block_spf::Dir;
use mrt_graph::{Cert, Color, Directed, Element, Graph, Link, LinkNo, NoMemory, NodeNo};
use mrt_plain::{Course, follow, links_of};
use mrt_rows::compute;
use order_repair::order_choice;
use parts_of_tests::Page;
use std::alloc::Global;

/// A graph with its directions, its links and its certificate, and the memory for walks.
#[derive(Clone, Copy)]
struct Walked<'a> {
    alloc: Global,
    graph: &'a Graph,
    directed: &'a Directed,
    links: &'a [Link],
    cert: &'a Cert,
}

/// How many walks were asked for, and how many of them go round what has failed.
#[derive(Clone, Copy)]
struct Tally {
    asked: u32,
    round: u32,
}

pub fn put_walks(alloc: Global, g: &Graph, root: NodeNo, d: &Directed, page: &mut Page)
    requires root { root < length g.now.ids }
    requires directed { HasDirections g.now d.now }
{
    let Ok(links) = links_of(alloc, g) else {
        return;
    };
    let Ok(cert) = compute(alloc, g, root) else {
        return;
    };
    let walked = Walked {
        alloc,
        graph: g,
        directed: d,
        links: &links,
        cert: &cert,
    };
    put_all(&walked, page);
}

/// Tells how many go round.
fn put_all(walked: &Walked, page: &mut Page)
    requires within { AreWithin (length walked.now.graph.now.ids) walked.now.links.now }
    requires count { length walked.now.cert.now.nodes ≡ length walked.now.graph.now.ids }
    requires directed { HasDirections walked.now.graph.now walked.now.directed.now }
{
    let mut tally = Tally { asked: 0, round: 0 };
    for s in 0..walked.graph.node_count() {
        for to in 0..walked.graph.node_count() {
            fail_between(walked, NodeNo::new(s), NodeNo::new(to), &mut tally);
        }
    }
    page.number("", u64::from(tally.round));
    page.number(" of ", u64::from(tally.asked));
    page.put(" go round\n");
}

/// Fails each node other than two and each link of the block that the two have in common, if it has more than one link.
fn fail_between(walked: &Walked, s: NodeNo, to: NodeNo, tally: &mut Tally)
    requires within { AreWithin (length walked.now.graph.now.ids) walked.now.links.now }
    requires count { length walked.now.cert.now.nodes ≡ length walked.now.graph.now.ids }
    requires directed { HasDirections walked.now.graph.now walked.now.directed.now }
    requires source { s < length walked.now.graph.now.ids }
    requires to { to < length walked.now.graph.now.ids }
{
    let (g, d) = (walked.graph, walked.directed);
    let Some(block) = block_of(g, d, s, to) else {
        return;
    };
    for n in 0..g.node_count() {
        let f = NodeNo::new(n);
        if f != s && f != to && is_node_of(g, d, block, f) {
            fail(walked, s, to, Element::Node(f), tally);
        }
    }
    for n in 0..g.link_count() {
        let e = LinkNo::new(n);
        if d.mark(e).block == block {
            fail(walked, s, to, Element::Link(e), tally);
        }
    }
}

/// The block of more than one link that two nodes have in common.
fn block_of(g: &Graph, d: &Directed, s: NodeNo, t: NodeNo) -> Option<NodeNo>
    requires directed { HasDirections g.now d.now }
    requires source { s < length g.now.ids }
    requires to { t < length g.now.ids }
    ensures { IfSome result (λ block. block < length g.now.ids) }
{
    let block = common_block(g, d, s, t)?;
    let is_some = s != t && block.get() < g.node_count();
    if is_some && count_links(g, d, block) > 1 {
        return Some(block);
    }
    None
}

/// The block that two nodes have in common.
fn common_block(g: &Graph, d: &Directed, s: NodeNo, t: NodeNo) -> Option<NodeNo>
    requires directed { HasDirections g.now d.now }
    requires source { s < length g.now.ids }
    requires to { t < length g.now.ids }
{
    let here = d.place(s);
    let there = d.place(t);
    if here.block == there.block || here.head == t {
        return Some(here.block);
    }
    if there.head == s {
        return Some(there.block);
    }
    None
}

/// How many links a block has.
fn count_links(g: &Graph, d: &Directed, block: NodeNo) -> u32
    requires { HasDirections g.now d.now }
{
    let mut count: u32 = 0;
    for e in 0..g.link_count() {
        if d.mark(LinkNo::new(e)).block == block {
            count = count.saturating_add(1);
        }
    }
    count
}

/// Whether a node lies in a block, which is named by one of its nodes, or heads it.
fn is_node_of(g: &Graph, d: &Directed, block: NodeNo, f: NodeNo) -> bool
    requires directed { HasDirections g.now d.now }
    requires block { block < length g.now.ids }
    requires node { f < length g.now.ids }
{
    d.place(f).block == block || d.place(block).head == f
}

/// Fails one of them.
fn fail(walked: &Walked, s: NodeNo, to: NodeNo, failed: Element, tally: &mut Tally)
    requires within { AreWithin (length walked.now.graph.now.ids) walked.now.links.now }
    requires count { length walked.now.cert.now.nodes ≡ length walked.now.graph.now.ids }
    requires directed { HasDirections walked.now.graph.now walked.now.directed.now }
    requires source { s < length walked.now.graph.now.ids }
    requires to { to < length walked.now.graph.now.ids }
    requires failed { IsWithin walked.now.graph.now failed }
{
    tally.asked = tally.asked.saturating_add(1);
    if let Ok(true) = goes_round(walked, s, to, failed) {
        tally.round = tally.round.saturating_add(1);
    }
}

/// The color from one node to another by order, after a failure.
fn color_of(
    alloc: Global,
    g: &Graph,
    d: &Directed,
    s: NodeNo,
    to: NodeNo,
    failed: Element,
) -> Result<Color, NoMemory>
    requires directed { HasDirections g.now d.now }
    requires source { s < length g.now.ids }
    requires to { to < length g.now.ids }
    requires failed { IsWithin g.now failed }
{
    let up = reach_of(alloc, g, d, s, Dir::Up)?;
    let down = reach_of(alloc, g, d, s, Dir::Down)?;
    Ok(order_choice(g, d, &up, &down, s, to, failed))
}

/// Whether the walk on the color by order arrives and does not use what has failed.
fn goes_round(walked: &Walked, s: NodeNo, to: NodeNo, failed: Element) -> Result<bool, NoMemory>
    requires within { AreWithin (length walked.now.graph.now.ids) walked.now.links.now }
    requires count { length walked.now.cert.now.nodes ≡ length walked.now.graph.now.ids }
    requires directed { HasDirections walked.now.graph.now walked.now.directed.now }
    requires source { s < length walked.now.graph.now.ids }
    requires to { to < length walked.now.graph.now.ids }
    requires failed { IsWithin walked.now.graph.now failed }
{
    let alloc = walked.alloc;
    let color = color_of(alloc, walked.graph, walked.directed, s, to, failed)?;
    let course = follow(alloc, walked.links, walked.cert, color, s, to)?;
    Ok(course.end == to && !is_used(&course, failed))
}

fn is_used(course: &Course, failed: Element) -> bool {
    match failed {
        Element::Link(e) => course.links.contains(&e),
        Element::Node(f) => course.nodes.contains(&f),
    }
}
