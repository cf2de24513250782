//! A router's island in numbers.

ghost use Rattle.std.specs.Prelude.{◌<◌, length};
ghost use Rattle.mrt_exit.specs.{AnswerSteps.IsAnswer, AnswerSteps.such, declared.exit.Exit.Exit};
ghost use Rattle.mrt_calls.specs.{Faults.IsTold, Putting.Answers, Shapes.IsShape, Shapes.shape_in};

use crate::area::{MrtArea, given_in};
use crate::fault::{MrtFault, tell};
use crate::putting::count_of;
use mrt_answer::{certify_island, island_in};
use mrt_exit::Exit;
use mrt_island::Island;
use std::alloc::Global;

/// An island in numbers: `struct mrt_island` in C.
#[repr(C)]
#[derive(Clone, Copy)]
pub struct MrtIsland {
    pub root: u32,
    pub nodes: u32,
    pub links: u32,
    pub reserved_1: u32,
    pub certificate: u64,
    pub reserved_2: u64,
}

/// The root of a router's island, how many nodes and links it has, and how long its certificate is.
pub fn shape_area(
    alloc: Global,
    area: &MrtArea<'_>,
    router: u32,
    island: &mut MrtIsland,
    fault: &mut MrtFault,
) -> u32
    ensures { (exit : Exit) × Answers (shape_in area.now router) island.new exit × IsTold exit result fault.new }
{
    let exit = put_shape(alloc, area, router, island);
    tell(&exit, fault)
}

/// The same, but for the fault.
fn put_shape(alloc: Global, area: &MrtArea<'_>, router: u32, island: &mut MrtIsland) -> Exit
    ensures { Answers (shape_in area.now router) island.new result }
{
    match shape_of(alloc, area, router) {
        Ok(shape) => {
            *island = shape;
            Exit::Done
        }
        Err(exit) => exit,
    }
}

/// The island in numbers.
#[tactic(auto, using(mrt_exit::proofs::Stepping::early, mrt_exit::proofs::Stepping::late))]
fn shape_of(alloc: Global, area: &MrtArea<'_>, router: u32) -> Result<MrtIsland, Exit>
    ensures { IsAnswer (shape_in area.now router) result }
{
    let given = given_in(alloc, area)?;
    let island = island_in(alloc, &given, router)?;
    shape_of_island(alloc, island)
}

/// An island in numbers.
fn shape_of_island(alloc: Global, island: Island) -> Result<MrtIsland, Exit>
    requires { island.root < length island.graph.ids }
    ensures { IsAnswer (such (IsShape island)) result }
{
    let root = island.graph.id(island.root).number;
    let nodes = u32::from(island.graph.node_count());
    let links = u32::from(island.graph.link_count());
    let text = certify_island(alloc, island)?;
    Ok(MrtIsland {
        root,
        nodes,
        links,
        reserved_1: 0,
        certificate: count_of(text) as u64,
        reserved_2: 0,
    })
}
