//! The rows of a router's table.

ghost use Rattle.std.specs.Prelude.{◌≡◌, ◌<◌, ◌+◌, ◌++◌, ◌∷◌, [], List, Ok, Err, IfOk, IfErr, length, take};
ghost use Rattle.mrt_graph.specs.declared.cert.CertFile.{CertFile};
ghost use Rattle.mrt_report.specs.ByColumn.{IsRowByColumn};
ghost use Rattle.mrt_rows.specs.{CertOf.IsCertOf, Rooted.MakeColumns};
ghost use Rattle.mrt_answer.specs.{Input.Input, Made.AreParts, Made.with_cert};
ghost use Rattle.mrt_exit.specs.{Due.IsDue, declared.exit.Exit.Exit};
ghost use Rattle.mrt_calls.specs.Faults.{IsTold};
ghost use Rattle.mrt_calls.specs.steps.Filling.{IsFilled};
ghost use Rattle.mrt_calls.specs.steps.Footings.{IsFooting};
ghost use Rattle.mrt_calls.specs.Putting.{Gives};
ghost use Rattle.mrt_calls.specs.steps.Putting.{IsHeldIn};
ghost use Rattle.mrt_calls.specs.TableRows.{table_in, tabled};

use crate::area::{MrtArea, given_in};
use crate::fault::{MrtFault, tell};
use crate::footing::{Footing, footing_of};
use crate::putting::exit_of;
use crate::row::{MrtRow, row_in};
use mrt_answer::{Given, Parts, columns_of, row_by_column};
use mrt_exit::Exit;
use mrt_graph::{NoMemory, NodeNo};
use mrt_rows::RootedColumns;
use std::alloc::Global;

/// Puts the rows of a router's table into a buffer, and says how many there are.
pub fn table_area(
    alloc: Global,
    area: &MrtArea<'_>,
    router: u32,
    rows: &mut [MrtRow],
    count: &mut usize,
    fault: &mut MrtFault,
) -> u32
    ensures { (exit : Exit) × Gives (table_in area.now router) (length rows.old) rows.new count.new exit
        × IsTold exit result fault.new }
{
    let exit = put_table(alloc, area, router, rows, count);
    tell(&exit, fault)
}

/// The same, but for the fault.
fn put_table(
    alloc: Global,
    area: &MrtArea<'_>,
    router: u32,
    rows: &mut [MrtRow],
    count: &mut usize,
) -> Exit
    ensures { Gives (table_in area.now router) (length rows.old) rows.new count.new result }
{
    match put_rows(alloc, area, router, rows) {
        Ok(wanted) => {
            *count = wanted;
            exit_of(wanted, rows.len())
        }
        Err(exit) => {
            *count = 0;
            exit
        }
    }
}

/// Puts the rows into a buffer where there is room, and answers how many there are.
fn put_rows(
    alloc: Global,
    area: &MrtArea<'_>,
    router: u32,
    rows: &mut [MrtRow],
) -> Result<usize, Exit>
    ensures room { length rows.new ≡ length rows.old }
    ensures held { IfOk result (λ count. (them : List MrtRow) × table_in area.now router (Ok them)
        × IsHeldIn rows.new count them) }
    ensures none { IfErr result (IsDue (λ exit. table_in area.now router (Err exit))) }
{
    let given = given_in(alloc, area)?;
    put_given(alloc, &given, router, rows)
}

/// The same, of an area that was read.
fn put_given(alloc: Global, given: &Given, router: u32, rows: &mut [MrtRow]) -> Result<usize, Exit>
    ensures room { length rows.new ≡ length rows.old }
    ensures held { IfOk result (λ count. (them : List MrtRow) × tabled given.now router (Ok them)
        × IsHeldIn rows.new count them) }
    ensures none { IfErr result (IsDue (λ exit. tabled given.now router (Err exit))) }
{
    let footing = footing_of(alloc, given, router)?;
    let count = put_footing(alloc, &footing, router, rows)?;
    Ok(count)
}

/// The same, of what they are made from.
fn put_footing(
    alloc: Global,
    footing: &Footing,
    router: u32,
    rows: &mut [MrtRow],
) -> Result<usize, NoMemory>
    requires { (given : Input) × IsFooting given router footing.now }
    ensures room { length rows.new ≡ length rows.old }
    ensures held { (given : Input) → IsFooting given router footing.now
        → IfOk result (λ count. (them : List MrtRow) × tabled given router (Ok them) × IsHeldIn rows.new count them) }
{
    let parts = footing.parts();
    let root = footing.net.island.root;
    let mut columns = columns_of(
        alloc,
        parts.island,
        root,
        parts.island.node_count() as usize,
    )?;
    Ok(fill(&parts, &mut columns, rows))
}

/// Puts the rows of the other nodes into a buffer, as far as there is room, and answers how many there are.
fn fill(parts: &Parts, columns: &mut RootedColumns, rows: &mut [MrtRow]) -> usize
    requires kept { AreParts parts.now }
    requires made { MakeColumns parts.now.island.now columns.old }
    ensures room { length rows.new ≡ length rows.old }
    ensures filled { (file : CertFile) → IsCertOf parts.now.island.now columns.old.root file
        → IsFilled (IsRowByColumn (with_cert parts.now file.cert)) parts.now.source (length parts.now.island.now.ids) rows.new result }
{
    let mut count = 0;
    for place in 0..parts.island.node_count() {
        let to = NodeNo::new(place);
        if to != parts.source {
            let row = row_by_column(parts, columns, to);
            put_at(rows, count, row_in(&row));
            count += 1;
        }
    }
    count
}

/// Puts a row at a place of a buffer, if that is there.
fn put_at(rows: &mut [MrtRow], place: usize, row: MrtRow)
    ensures room { length rows.new ≡ length rows.old }
    ensures put { place < length rows.old → take (place + 1) rows.new ≡ take place rows.old ++ row ∷ [] }
{
    if place < rows.len() {
        rows[place] = row;
    }
}
