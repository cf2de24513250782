//! `spf`: of each node the least paths up and down to all nodes; and `spf_to`: those to it from all nodes. Each path
//! is told by its cost and the link of its first end.

ghost use Rattle.std.specs.Prelude.{◌≡◌, ◌<◌, IfOk, length};
ghost use Rattle.block_spf.specs.HasDirections.{HasDirections};

use crate::calls::Call;
use block_spf::{Dir, Hop, Reach, spf, spf_to};
use mrt_graph::{Directed, Graph, NoMemory, NodeNo};
use parts_of_tests::Page;
use std::alloc::Global;

pub fn put_paths(alloc: Global, call: Call, g: &Graph, d: &Directed, page: &mut Page)
    requires { HasDirections g.now d.now }
{
    for n in 0..g.node_count() {
        for dir in [Dir::Up, Dir::Down] {
            match call {
                Call::Spf => put_from(alloc, g, d, NodeNo::new(n), dir, page),
                _ => put_to(alloc, g, d, NodeNo::new(n), dir, page),
            }
        }
    }
}

/// The least paths from a node.
pub fn reach_of(
    alloc: Global,
    g: &Graph,
    d: &Directed,
    s: NodeNo,
    dir: Dir,
) -> Result<Reach, NoMemory>
    requires directed { HasDirections g.now d.now }
    requires source { s < length g.now.ids }
    ensures { IfOk result (λ reach. length reach ≡ length g.now.ids) }
{
    let reach = spf(alloc, g, d, s, dir)?;
    Ok(reach)
}

fn put_from(alloc: Global, g: &Graph, d: &Directed, s: NodeNo, dir: Dir, page: &mut Page)
    requires directed { HasDirections g.now d.now }
    requires source { s < length g.now.ids }
{
    page.node("from ", s);
    if let Ok(reach) = reach_of(alloc, g, d, s, dir) {
        put_reach(page, dir, &reach, g.node_count());
    }
}

/// The least paths to a node.
fn reach_to(alloc: Global, g: &Graph, d: &Directed, t: NodeNo, dir: Dir) -> Result<Reach, NoMemory>
    requires directed { HasDirections g.now d.now }
    requires target { t < length g.now.ids }
    ensures { IfOk result (λ reach. length reach ≡ length g.now.ids) }
{
    let reach = spf_to(alloc, g, d, t, dir)?;
    Ok(reach)
}

fn put_to(alloc: Global, g: &Graph, d: &Directed, t: NodeNo, dir: Dir, page: &mut Page)
    requires directed { HasDirections g.now d.now }
    requires target { t < length g.now.ids }
{
    page.node("to ", t);
    if let Ok(reach) = reach_to(alloc, g, d, t, dir) {
        put_reach(page, dir, &reach, g.node_count());
    }
}

fn put_reach(page: &mut Page, dir: Dir, reach: &Reach, count: u16)
    requires { length reach.now ≡ count }
{
    page.put(match dir {
        Dir::Up => " up",
        Dir::Down => " down",
    });
    for n in 0..count {
        put_hop(page, reach.hop(NodeNo::new(n)));
    }
    page.end();
}

fn put_hop(page: &mut Page, hop: Option<Hop>) {
    match hop {
        Some(hop) => {
            page.number(" ", u64::from(hop.cost));
            page.link("/", hop.link);
        }
        None => page.put(" -"),
    }
}
