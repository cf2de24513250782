//! What the steps of packets read, made for the destinations of the packets alone.

ghost use Rattle.std.specs.Prelude.{◌≡◌, ◌<◌, ◌↔◌, ℕ, Some, Ok, Err, IfOk, IfErr, Contains, length, slice_get};
ghost use Rattle.area_graph.specs.Fits.{Fits};
ghost use Rattle.mrt_graph.specs.Search.{IsMarked};
ghost use Rattle.mrt_answer.specs.{Input.area as area_with, Islands.island_in};
ghost use Rattle.mrt_answer.specs.steps.Made.{AreTablesTo, IsWanted};
ghost use Rattle.mrt_exit.specs.Due.{IsDue};

use crate::columns::columns_of;
use crate::given::Given;
use crate::router_island::{area_of, island_of};
use area_graph::{Area, Spot};
use mrt_exit::Exit;
use mrt_graph::NoMemory;
use mrt_island::Island;
use mrt_rows::RowsTo;
use primary_alt::Routes;
use std::alloc::Global;

/// The area of a database, and a router's island in it.
pub struct AreaAndIsland {
    pub area: Area,
    pub island: Island,
}

impl Drop for AreaAndIsland {
    fn drop(self) {
        let Self { area: _, island: _ } = self;
    }
}

/// The routes to some destinations, and the rows for them.
pub(crate) struct Tables {
    pub(crate) routes: Routes,
    pub(crate) rows: RowsTo,
}

impl Drop for Tables {
    fn drop(self) {
        let Self { routes: _, rows: _ } = self;
    }
}

/// The area, and a router's island.
pub fn area_and_island(alloc: Global, given: &Given, router: u32) -> Result<AreaAndIsland, Exit>
    ensures area { IfOk result (λ net. net.area ≡ area_with given.now) }
    ensures island { IfOk result (λ net. island_in given.now router (Ok net.island)) }
    ensures refused { IfErr result (IsDue (λ exit. island_in given.now router (Err exit))) }
    ensures fits { IfOk result (λ net. Fits net.area net.island.graph net.island.link_of) }
    ensures root { IfOk result (λ net. net.island.root < length net.island.graph.ids) }
{
    let area = area_of(alloc, given)?;
    let island = island_of(alloc, &area, given, router)?;
    Ok(AreaAndIsland { area, island })
}

/// The routes to these nodes of the area, and the rows for those of them that are of the island.
pub(crate) fn tables_to(
    alloc: Global,
    net: &AreaAndIsland,
    destinations: &[Spot],
) -> Result<Tables, NoMemory>
    requires fits { Fits net.now.area net.now.island.graph net.now.island.link_of }
    requires root { net.now.island.root < length net.now.island.graph.ids }
    requires within { (t : ℕ) → Contains destinations.now t → t < length net.now.area.ids }
    ensures { IfOk result (AreTablesTo net.now destinations.now) }
{
    let area = &net.area;
    let graph = &net.island.graph;
    let _count = area.count();
    let routes = Routes::to(
        alloc,
        area,
        graph,
        net.island.link_of.as_slice(),
        destinations,
    )?;
    let wanted = wanted_nodes(alloc, &routes, destinations, graph.node_count())?;
    let mut columns = columns_of(alloc, graph, net.island.root, destinations.len())?;
    let rows = columns.rows_to(alloc, graph, &wanted)?;
    Ok(Tables { routes, rows })
}

/// Of each island node whether one of these nodes of the area is it.
fn wanted_nodes(
    alloc: Global,
    routes: &Routes,
    destinations: &[Spot],
    count: u16,
) -> Result<Vec<bool>, NoMemory>
    requires within { (t : ℕ) → Contains destinations.now t → t < length routes.now.nodes }
    requires nodes { (t d : ℕ) → slice_get routes.now.nodes t ≡ Some (Some d) → d < count }
    ensures one_each { IfOk result (λ marks. length marks.items ≡ count) }
    ensures marked { IfOk result (λ marks. (d : ℕ) → IsMarked marks.items d
        ↔ IsWanted routes.now destinations.now d) }
{
    let mut wanted = vec![in alloc; false; count as usize]?;
    for spot in destinations {
        if let Some(node) = routes.node(*spot) {
            wanted[node.get() as usize] = true;
        }
    }
    Ok(wanted)
}
