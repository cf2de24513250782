//! `table DB PROFILE ROUTER`: what a router installs.

ghost use Rattle.std.specs.Prelude.{◌≡◌, ◌≢◌, ◌<◌, IfOk, Contains, length};
ghost use Rattle.area_graph.specs.Fits.{Fits};
ghost use Rattle.mrt_graph.specs.{declared.cert.CertFile.CertFile, GraphInvariant.IsNetwork, NodeIds.router as router_node};
ghost use Rattle.text_parts.specs.steps.Adds.{Adds};
ghost use Rattle.mrt_report.specs.steps.AddsLines.{AddsLines};
ghost use Rattle.mrt_report.specs.ByColumn.{IsLineByColumn, IsRowByColumn};
ghost use Rattle.mrt_report.specs.TableText.{IsTableText};
ghost use Rattle.mrt_rows.specs.{CertOf.IsCertOf, Rooted.MakeColumns};
ghost use Rattle.mrt_answer.specs.{Texts.IsComputedFile, Forms.table_in as table_step, Forms.tabled, Made.AreParts, Made.with_cert, TextBytes.IsTextAnswer};

use crate::columns::columns_of;
use crate::finding::{own_node, own_spot};
use crate::given::Given;
use crate::packets::{AreaAndIsland, area_and_island};
use crate::text::{Text, bytes_answer};
use area_graph::Area;
use mrt_exit::Exit;
use mrt_graph::{Graph, LinkNo, NoMemory, NodeNo};
use mrt_report::{TableRow, lines_make_the_table, primary_for, push_row, table_head, table_row};
use mrt_rows::RootedColumns;
use primary_alt::{Primary, primaries};
use std::alloc::Global;

/// What the lines of a router's table are made from: the area; the island, with the island link that each bond of the
/// area is, if it is one; the router, by its number in the island; and its primaries for all nodes of the area.
#[derive(Clone, Copy)]
pub struct Parts<'a> {
    pub area: &'a Area,
    pub island: &'a Graph,
    pub link_of: &'a [Option<LinkNo>],
    pub source: NodeNo,
    pub primaries: &'a [Option<Primary>],
}

/// The table of a router: of each other node of its island the two colors' next hops, the primary, and which color
/// repairs it.
#[tactic(auto, using(crate::proofs::TextSteps::ends_first))]
pub(crate) fn table(alloc: Global, given: &Given, router: u32) -> Result<Text, Exit>
    ensures { IsTextAnswer (tabled given.now router) result }
{
    let net = area_and_island(alloc, given, router)?;
    table_in(alloc, &net, router)
}

/// The same, in an area and the router's island in it.
#[tactic(auto, using(crate::proofs::TextSteps::ends_first, crate::proofs::TextSteps::ends_second))]
fn table_in(alloc: Global, net: &AreaAndIsland, router: u32) -> Result<Text, Exit>
    requires fits { Fits net.now.area net.now.island.graph net.now.island.link_of }
    requires root { net.now.island.root < length net.now.island.graph.ids }
    requires root_router { ¬ IsNetwork net.now.island.graph.ids net.now.island.root }
    requires inside { Contains net.now.island.graph.ids (router_node router) }
    ensures { IsTextAnswer (table_step net.now.area net.now.island router) result }
{
    let island = &net.island.graph;
    let source = own_node(island, router)?;
    let spot = own_spot(&net.area, router)?;
    let primaries = primaries(alloc, &net.area, spot)?;
    let parts = Parts {
        area: &net.area,
        island,
        link_of: net.island.link_of.as_slice(),
        source,
        primaries: &primaries,
    };
    bytes_answer(table_of(alloc, net.island.root, &parts))
}

/// The table that is made from these parts, by the rows of the island's certificate, of which no others are made than
/// those on the walks from the router.
fn table_of(alloc: Global, root: NodeNo, parts: &Parts) -> Result<Vec<u8>, NoMemory>
    requires root { root < length parts.now.island.now.ids }
    requires root_router { ¬ IsNetwork parts.now.island.now.ids root }
    requires kept { AreParts parts.now }
    ensures { IfOk result (λ text. (file : CertFile) × IsComputedFile parts.now.island.now root file
        × IsTableText (with_cert parts.now file.cert) root text.items) }
{
    let mut columns = columns_of(
        alloc,
        parts.island,
        root,
        parts.island.node_count() as usize,
    )?;
    table_text(alloc, root, parts, &mut columns)
}

/// The text of a table: its head, and a line on each other node.
fn table_text(
    alloc: Global,
    root: NodeNo,
    parts: &Parts,
    columns: &mut RootedColumns,
) -> Result<Vec<u8>, NoMemory>
    requires root { root < length parts.now.island.now.ids }
    requires root_router { ¬ IsNetwork parts.now.island.now.ids root }
    requires kept { AreParts parts.now }
    requires made { MakeColumns parts.now.island.now columns.old }
    ensures { (file : CertFile) → IsCertOf parts.now.island.now columns.old.root file
        → IfOk result (λ text. IsTableText (with_cert parts.now file.cert) root text.items) }
{
    lines_make_the_table();
    let mut text = table_head(alloc, parts.island, root, parts.source)?;
    push_lines(&mut text, parts, columns)?;
    Ok(text)
}

/// Puts a line on each other node at the end of a text.
fn push_lines(
    text: &mut Vec<u8>,
    parts: &Parts,
    columns: &mut RootedColumns,
) -> Result<(), NoMemory>
    requires kept { AreParts parts.now }
    requires made { MakeColumns parts.now.island.now columns.old }
    ensures { (file : CertFile) → IsCertOf parts.now.island.now columns.old.root file
        → IfOk result (λ _. AddsLines (IsLineByColumn (with_cert parts.now file.cert))
        parts.now.source (length parts.now.island.now.ids) text.old.items text.new.items) }
{
    for place in 0..parts.island.node_count() {
        let to = NodeNo::new(place);
        if to != parts.source {
            push_line(text, parts, columns, to)?;
        }
    }
    Ok(())
}

/// Puts the line on another node at the end of a text.
fn push_line(
    text: &mut Vec<u8>,
    parts: &Parts,
    columns: &mut RootedColumns,
    to: NodeNo,
) -> Result<(), NoMemory>
    requires kept { AreParts parts.now }
    requires made { MakeColumns parts.now.island.now columns.old }
    requires target { to < length parts.now.island.now.ids }
    requires different { parts.now.source ≢ to }
    ensures root { columns.new.root ≡ columns.old.root }
    ensures made { MakeColumns parts.now.island.now columns.new }
    ensures line { (file : CertFile) → IsCertOf parts.now.island.now columns.old.root file
        → IfOk result (λ _. Adds (IsLineByColumn (with_cert parts.now file.cert) to) text.old.items text.new.items) }
{
    let row = row_by_column(parts, columns, to);
    push_row(text, &row)?;
    Ok(())
}

/// The router's row for another node, by the certificate's rows for it, which are made as they are asked for.
pub fn row_by_column(parts: &Parts, columns: &mut RootedColumns, to: NodeNo) -> TableRow
    requires kept { AreParts parts.now }
    requires made { MakeColumns parts.now.island.now columns.old }
    requires target { to < length parts.now.island.now.ids }
    requires different { parts.now.source ≢ to }
    ensures root { columns.new.root ≡ columns.old.root }
    ensures made { MakeColumns parts.now.island.now columns.new }
    ensures row { (file : CertFile) → IsCertOf parts.now.island.now columns.old.root file
        → IsRowByColumn (with_cert parts.now file.cert) to result }
{
    columns.aim(parts.island, to);
    let column = columns.column(parts.island);
    let primary = primary_for(parts.area, parts.island, parts.primaries, to);
    table_row(
        parts.area,
        parts.island,
        parts.link_of,
        &column,
        parts.source,
        to,
        primary,
    )
}
