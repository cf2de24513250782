//! The row of a router's table for one node.

ghost use Rattle.std.specs.Prelude.{◌≡◌, ◌≢◌, ℕ, Ok, IfSome, IsNone, Some, slice_get};
ghost use Rattle.mrt_graph.specs.{NodeIds.router as router_node, declared.node_id.NodeId.NodeId};
ghost use Rattle.mrt_answer.specs.Input.{Input};
ghost use Rattle.mrt_exit.specs.{AnswerSteps.IsAnswer, AnswerSteps.such, declared.exit.Exit.Exit};
ghost use Rattle.mrt_calls.specs.{Faults.IsTold, steps.Footings.IsFooting, Putting.Answers};
ghost use Rattle.mrt_calls.specs.TableRows.{IsNamed, IsTheRow, other_place, row_for_in, row_of, rowed};

use crate::area::{MrtArea, given_in};
use crate::fault::{MrtFault, tell};
use crate::footing::{Footing, footing_of};
use crate::row::{MrtRow, row_in};
use mrt_answer::{Given, columns_of, row_by_column};
use mrt_exit::Exit;
use mrt_graph::{Graph, NodeId, NodeNo};
use std::alloc::Global;

/// The row of a router's table for one node, a kind and a number.
pub fn row_for_area(
    alloc: Global,
    area: &MrtArea<'_>,
    router: u32,
    kind: u32,
    number: u32,
    row: &mut MrtRow,
    fault: &mut MrtFault,
) -> u32
    ensures { (exit : Exit) × Answers (row_for_in area.now router kind number) row.new exit × IsTold exit result fault.new }
{
    let exit = put_row(alloc, area, router, kind, number, row);
    tell(&exit, fault)
}

/// The same, but for the fault.
fn put_row(
    alloc: Global,
    area: &MrtArea<'_>,
    router: u32,
    kind: u32,
    number: u32,
    row: &mut MrtRow,
) -> Exit
    ensures { Answers (row_for_in area.now router kind number) row.new result }
{
    match row_of_area(alloc, area, router, kind, number) {
        Ok(found) => {
            *row = found;
            Exit::Done
        }
        Err(exit) => exit,
    }
}

/// The row.
#[tactic(auto, using(mrt_exit::proofs::Stepping::early, mrt_exit::proofs::Stepping::late))]
fn row_of_area(
    alloc: Global,
    area: &MrtArea<'_>,
    router: u32,
    kind: u32,
    number: u32,
) -> Result<MrtRow, Exit>
    ensures { IsAnswer (row_for_in area.now router kind number) result }
{
    let given = given_in(alloc, area)?;
    row_of_given(alloc, &given, router, kind, number)
}

/// The row, of an area that was read.
fn row_of_given(
    alloc: Global,
    given: &Given,
    router: u32,
    kind: u32,
    number: u32,
) -> Result<MrtRow, Exit>
    ensures { IsAnswer (rowed given.now router kind number) result }
{
    let footing = footing_of(alloc, given, router)?;
    row_of_footing(alloc, &footing, router, kind, number)
}

/// The row, of what it is made from.
#[tactic(auto, using(mrt_exit::proofs::Stepping::early, mrt_exit::proofs::Stepping::late))]
fn row_of_footing(
    alloc: Global,
    footing: &Footing,
    router: u32,
    kind: u32,
    number: u32,
) -> Result<MrtRow, Exit>
    requires { (given : Input) × IsFooting given router footing.now }
    ensures { IsAnswer (row_of footing.now.net.area footing.now.net.island router kind number) result }
{
    let to = other_node(&footing.net.island.graph, router, kind, number)?;
    row_to(alloc, footing, router, to)
}

/// The row for another node of the island.
fn row_to(alloc: Global, footing: &Footing, router: u32, to: NodeNo) -> Result<MrtRow, Exit>
    requires footing { (given : Input) × IsFooting given router footing.now }
    requires target { (id : NodeId) × (slice_get footing.now.net.island.graph.ids to ≡ Some id) × (id ≢ router_node router) }
    ensures { IsAnswer (such (IsTheRow footing.now.net.area footing.now.net.island router to)) result }
{
    let parts = footing.parts();
    let mut columns = columns_of(alloc, parts.island, footing.net.island.root, 1)?;
    let row = row_by_column(&parts, &mut columns, to);
    Ok(row_in(&row))
}

/// The number of another node than the router, by its kind and its number.
fn other_node(graph: &Graph, router: u32, kind: u32, number: u32) -> Result<NodeNo, Exit>
    ensures { IsAnswer (other_place graph.now.ids router kind number) result }
{
    match node_named(graph, router, kind, number) {
        Some(to) => Ok(to),
        None => Err(Exit::NotThere { number }),
    }
}

/// The same, if there is one.
fn node_named(graph: &Graph, router: u32, kind: u32, number: u32) -> Option<NodeNo>
    ensures found { IfSome result (λ to. other_place graph.now.ids router kind number (Ok to)) }
    ensures none { IsNone result → (to : ℕ) (id : NodeId) → slice_get graph.now.ids to ≡ Some id
        → IsNamed id kind number → id ≡ router_node router }
{
    let id = id_of(kind, number)?;
    if id == NodeId::router(router) {
        return None;
    }
    graph.find(id)
}

/// What names a node of this kind and this number, if there is such a kind.
fn id_of(kind: u32, number: u32) -> Option<NodeId>
    ensures found { IfSome result (λ id. IsNamed id kind number) }
    ensures none { IsNone result → (id : NodeId) → IsNamed id kind number → ⊥ }
{
    match kind {
        1 => Some(NodeId::router(number)),
        2 => Some(NodeId::network(number)),
        _ => None,
    }
}
