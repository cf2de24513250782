//! The routers that are asked for, found in an area or in an island.

ghost use Rattle.std.specs.Prelude.{Contains};
ghost use Rattle.mrt_answer.specs.Islands.{own_place, place_of};
ghost use Rattle.mrt_exit.specs.AnswerSteps.{IsAnswer};
ghost use Rattle.mrt_graph.specs.NodeIds.{router as router_node};

use area_graph::{Area, Spot};
use mrt_exit::Exit;
use mrt_graph::{Graph, NodeId, NodeNo};

/// The number of a router in an island.
pub fn node_of(graph: &Graph, router: u32) -> Result<NodeNo, Exit>
    ensures { IsAnswer (place_of graph.now.ids router) result }
{
    match graph.find(NodeId::router(router)) {
        Some(node) => Ok(node),
        None => Err(Exit::NotThere { number: router }),
    }
}

/// The number of a router in an area.
pub(crate) fn spot_of(area: &Area, router: u32) -> Result<Spot, Exit>
    ensures { IsAnswer (place_of area.now.ids router) result }
{
    match area.find(NodeId::router(router)) {
        Some(spot) => Ok(spot),
        None => Err(Exit::NotThere { number: router }),
    }
}

/// The number in an island of a router that is in it.
pub fn own_node(graph: &Graph, router: u32) -> Result<NodeNo, Exit>
    requires { Contains graph.now.ids (router_node router) }
    ensures { IsAnswer (own_place graph.now.ids router) result }
{
    node_of(graph, router)
}

/// The number in an area of a router that is in it.
pub fn own_spot(area: &Area, router: u32) -> Result<Spot, Exit>
    requires { Contains area.now.ids (router_node router) }
    ensures { IsAnswer (own_place area.now.ids router) result }
{
    spot_of(area, router)
}
