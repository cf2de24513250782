//! `order DB PROFILE ROUTER`: a router's repairs by order.

ghost use Rattle.std.specs.Prelude.{◌<◌, IfOk, Contains, length};
ghost use Rattle.mrt_graph.specs.NodeIds.{router as router_node};
ghost use Rattle.order_repair.specs.OrderText.{IsTextFrom};
ghost use Rattle.mrt_answer.specs.{Forms.ordered, Forms.ordered_in, TextBytes.IsTextAnswer};

use crate::finding::own_node;
use crate::given::Given;
use crate::router_island::island_in;
use crate::text::{Text, bytes_answer};
use mrt_exit::Exit;
use mrt_graph::{Graph, NoMemory, NodeNo};
use mrt_rows::directions;
use order_repair::order_text;
use std::alloc::Global;

/// The text on the repairs by order of a router in its island.
pub(crate) fn order(alloc: Global, given: &Given, router: u32) -> Result<Text, Exit>
    ensures { IsTextAnswer (ordered given.now router) result }
{
    let island = island_in(alloc, given, router)?;
    order_in(alloc, &island.graph, island.root, router)
}

/// The same, in an island that the router is in.
fn order_in(alloc: Global, graph: &Graph, root: NodeNo, router: u32) -> Result<Text, Exit>
    requires root { root < length graph.now.ids }
    requires inside { Contains graph.now.ids (router_node router) }
    ensures { IsTextAnswer (ordered_in graph.now root router) result }
{
    let source = own_node(graph, router)?;
    bytes_answer(order_of(alloc, graph, root, source))
}

/// The text on the repairs by order of a router of a graph.
fn order_of(alloc: Global, graph: &Graph, root: NodeNo, source: NodeNo) -> Result<Vec<u8>, NoMemory>
    requires root { root < length graph.now.ids }
    requires source { source < length graph.now.ids }
    ensures { IfOk result (λ text. IsTextFrom graph.now root source text.items) }
{
    let directed = directions(alloc, graph, root)?;
    order_text(alloc, graph, root, &directed, source)
}
