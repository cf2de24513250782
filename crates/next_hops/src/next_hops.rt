//! From the bytes of a database to a router's two next hops.

ghost use Rattle.std.specs.Prelude.{◌≡◌, ◌≢◌, ◌≤◌, ◌<◌, ℕ, None, Contains, IfErr, IfOk, Some, length, map, slice_get};
ghost use Rattle.mrt_graph.specs.NodeIds.{router as router_node};
ghost use Rattle.lsdb.specs.{Conflicts.least_conflict, Database.IsDatabase};
ghost use Rattle.next_hops.specs.Causes.{IsCause};
ghost use Rattle.next_hops.specs.steps.Causes.{IsMissed};
ghost use Rattle.next_hops.specs.NextHops.{AreNextHops, AreNextHopsIn};

use crate::failure::Failure;
use area_graph::build_area;
use lsdb::{Lsdb, database_of, refuses_exactly_where_not_settled, tells_the_first_conflict};
use mrt_graph::{Color, Graph, NodeId, NodeNo, accepted_implies_sound, accepted_rows_lead_on};
use mrt_island::{Profile, find_island};
use mrt_rows::{RootedColumns, certificates_are_accepted};
use ospf_lsa::read_lsas;
use primary_alt::next_hop;
use std::alloc::Global;

/// The nodes to which a router sends the packets for a destination, one for each color.
#[derive(Clone, Copy)]
pub struct NextHops {
    pub blue: NodeId,
    pub red: NodeId,
}

/// The two next hops of a router for another one of its island, from the bytes of a database (RFC 2328, section A.4),
/// under the defaults of the profile (RFC 7812, section 8).
pub fn next_hops(alloc: Global, bytes: &[u8], router: u32, to: u32) -> Result<NextHops, Failure>
    requires size { length bytes.now ≤ 8388608 }
    requires different { router ≢ to }
    ensures hops { IfOk result (AreNextHops bytes.now router to) }
    ensures none { IfErr result (IsCause bytes.now router to) }
{
    let database = read(alloc, bytes)?;
    let area = build_area(alloc, &database)?;
    let island = find_island(alloc, &area, &Profile::empty(alloc), router)?;
    next_hops_in(alloc, &island.graph, island.root, router, to)
}

/// The database of the LSAs that the bytes are. No two newest instances contradict each other.
fn read(alloc: Global, bytes: &[u8]) -> Result<Lsdb, Failure>
    requires { length bytes.now ≤ 8388608 }
    ensures newest { IfOk result (λ database. IsDatabase bytes.now (map (λ entry. entry.lsa) database.entries)) }
    ensures settled { IfOk result (λ database. least_conflict database.entries ≡ None) }
    ensures none { (router to : ℕ) → IfErr result (IsCause bytes.now router to) }
{
    refuses_exactly_where_not_settled();
    tells_the_first_conflict();
    let lsas = read_lsas(alloc, bytes)?;
    let database = database_of(alloc, lsas)?;
    database.settled()?;
    Ok(database)
}

/// The two next hops of a router for another one, in the graph of their island.
fn next_hops_in(
    alloc: Global,
    graph: &Graph,
    root: NodeNo,
    router: u32,
    to: u32,
) -> Result<NextHops, Failure>
    requires root { root < length graph.now.ids }
    requires own { Contains graph.now.ids (router_node router) }
    requires different { router ≢ to }
    ensures hops { IfOk result (AreNextHopsIn graph.now root router to) }
    ensures none { IfErr result (IsMissed graph.now.ids to) }
{
    certificates_are_accepted();
    accepted_rows_lead_on();
    accepted_implies_sound();
    let from = number_of(graph, router)?;
    let to = number_of(graph, to)?;
    let mut columns = RootedColumns::for_some(alloc, graph, root, 1)?;
    columns.aim(graph, to);
    let column = columns.column(graph);
    let blue = next_hop(graph, &column, from, to, Color::Blue);
    let red = next_hop(graph, &column, from, to, Color::Red);
    Ok(NextHops {
        blue: graph.id(blue.to),
        red: graph.id(red.to),
    })
}

/// The number of a router in a graph.
fn number_of(graph: &Graph, router: u32) -> Result<NodeNo, Failure>
    ensures named { IfOk result (λ n. slice_get graph.now.ids n ≡ Some (router_node router)) }
    ensures within { IfOk result (λ n. n < length graph.now.ids) }
    ensures none { IfErr result (λ failure. (failure ≡ Failure.NotThere) × (Contains graph.now.ids (router_node router) → ⊥)) }
{
    graph.find(NodeId::router(router)).ok_or(Failure::NotThere)
}
