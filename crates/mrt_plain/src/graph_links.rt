//! The links of a graph as a list.

ghost use Rattle.std.specs.Prelude.{◌≡◌, IfOk, length};
ghost use Rattle.mrt_plain.specs.Within.{AreWithin};

use mrt_graph::{Graph, Link, LinkNo, NoMemory};
use std::alloc::Global;

/// The links of a graph, by number, as the other functions here take them.
///
/// It takes time in proportion to the links.
pub fn links_of(alloc: Global, graph: &Graph) -> Result<Vec<Link>, NoMemory>
    ensures links { IfOk result (λ links. links.items ≡ graph.now.links) }
    ensures within { AreWithin (length graph.now.ids) graph.now.links }
{
    let mut links = Vec::with_capacity(alloc, graph.link_count() as usize)?;
    for e in 0..graph.link_count() {
        links.push(graph.link(LinkNo::new(e)))?;
    }
    Ok(links)
}
