//! The rows of a router for prefixes at two routers.

ghost use Rattle.std.specs.Prelude.{◌≡◌, ◌≢◌, ◌<◌, ◌+◌, ◌++◌, ◌∷◌, [], List, Ok, Err, IfErr, IfOk, OnOk, Some, Contains, length, slice_get, take};
ghost use Rattle.std.specs.List.{AllZip};
ghost use Rattle.mrt_graph.specs.{GraphInvariant.IsTopology, NodeIds.router as router_node};
ghost use Rattle.mrt_rows.specs.Rooted.{MakeColumns};
ghost use Rattle.proxy_rows.specs.declared.proxy_row.ProxyRow.{ProxyRow};
ghost use Rattle.proxy_rows.specs.steps.Touches.{AllTouch, Touches};
ghost use Rattle.mrt_answer.specs.Made.{HasComputed};
ghost use Rattle.mrt_exit.specs.{Due.IsDue, AnswerSteps.IsAnswer, declared.exit.Exit.Exit};
ghost use Rattle.mrt_calls.specs.Faults.{IsTold};
ghost use Rattle.mrt_calls.specs.Putting.{Gives};
ghost use Rattle.mrt_calls.specs.steps.Putting.{IsHeldIn};
ghost use Rattle.mrt_calls.specs.Proxies.{ArePairRows, IsOutHop, IsPairRow, between, differing, from_first, hops_at, pair_step, proxied_pairs, proxies_in, refused_row};

use crate::area::{MrtArea, given_in};
use crate::fault::{MrtFault, fault_of, tell};
use crate::putting::exit_of;
use crate::row::{MrtHop, hop_in};
use mrt_answer::{Given, columns_of, island_in, node_of, own_node, proxy_rows_by};
use mrt_exit::Exit;
use mrt_graph::{Graph, NoMemory, NodeNo};
use mrt_island::Island;
use mrt_report::link_hop;
use mrt_rows::RootedColumns;
use proxy_rows::{Out, ProxyRow};
use std::alloc::Global;

/// A prefix that is attached to two routers: `struct mrt_pair` in C.
#[repr(C)]
#[derive(Clone, Copy)]
pub struct MrtPair {
    pub first: u32,
    pub second: u32,
}

/// What a router installs for a prefix at two routers: `struct mrt_proxy_row` in C.
#[repr(C)]
#[derive(Clone, Copy)]
pub struct MrtProxyRow {
    pub status: u32,
    pub at: u32,
    pub blue: MrtHop,
    pub red: MrtHop,
    pub reserved_1: u32,
    pub reserved_2: u32,
}

/// The island of a router, and the router by its number in it.
#[derive(Clone, Copy)]
struct At<'a> {
    graph: &'a Graph,
    root: NodeNo,
    source: NodeNo,
}

/// Puts the rows of a router for prefixes at two routers into a buffer, and says how many there are.
pub fn proxy_area(
    alloc: Global,
    area: &MrtArea<'_>,
    router: u32,
    pairs: &[MrtPair],
    rows: &mut [MrtProxyRow],
    count: &mut usize,
    fault: &mut MrtFault,
) -> u32
    ensures { (exit : Exit) × Gives (proxies_in area.now router pairs.now) (length rows.old) rows.new count.new exit
        × IsTold exit result fault.new }
{
    let exit = put_proxies(alloc, area, router, pairs, rows, count);
    tell(&exit, fault)
}

/// The same, but for the fault.
fn put_proxies(
    alloc: Global,
    area: &MrtArea<'_>,
    router: u32,
    pairs: &[MrtPair],
    rows: &mut [MrtProxyRow],
    count: &mut usize,
) -> Exit
    ensures { Gives (proxies_in area.now router pairs.now) (length rows.old) rows.new count.new result }
{
    match put_pairs(alloc, area, router, pairs, rows) {
        Ok(wanted) => {
            *count = wanted;
            exit_of(wanted, rows.len())
        }
        Err(exit) => {
            *count = 0;
            exit
        }
    }
}

/// Puts the rows into a buffer where there is room, and answers how many there are.
fn put_pairs(
    alloc: Global,
    area: &MrtArea<'_>,
    router: u32,
    pairs: &[MrtPair],
    rows: &mut [MrtProxyRow],
) -> Result<usize, Exit>
    ensures room { length rows.new ≡ length rows.old }
    ensures held { IfOk result (λ count. (them : List MrtProxyRow) × proxies_in area.now router pairs.now (Ok them)
        × IsHeldIn rows.new count them) }
    ensures none { IfErr result (IsDue (λ exit. proxies_in area.now router pairs.now (Err exit))) }
{
    let given = given_in(alloc, area)?;
    put_given(alloc, &given, router, pairs, rows)
}

/// The same, of an area that was read.
fn put_given(
    alloc: Global,
    given: &Given,
    router: u32,
    pairs: &[MrtPair],
    rows: &mut [MrtProxyRow],
) -> Result<usize, Exit>
    ensures room { length rows.new ≡ length rows.old }
    ensures held { IfOk result (λ count. (them : List MrtProxyRow) × proxied_pairs given.now router pairs.now (Ok them)
        × IsHeldIn rows.new count them) }
    ensures none { IfErr result (IsDue (λ exit. proxied_pairs given.now router pairs.now (Err exit))) }
{
    let island = island_in(alloc, given, router)?;
    put_island(alloc, &island, router, pairs, rows)
}

/// The same, of the router's island.
fn put_island(
    alloc: Global,
    island: &Island,
    router: u32,
    pairs: &[MrtPair],
    rows: &mut [MrtProxyRow],
) -> Result<usize, Exit>
    requires root { island.now.root < length island.now.graph.ids }
    requires inside { Contains island.now.graph.ids (router_node router) }
    ensures room { length rows.new ≡ length rows.old }
    ensures held { IfOk result (λ count. (them : List MrtProxyRow) × ArePairRows island.now router pairs.now them
        × IsHeldIn rows.new count them) }
    ensures none { IfErr result (λ exit. exit ≡ Exit.NoMemory) }
{
    let source = own_node(&island.graph, router)?;
    let mut columns = columns_of(alloc, &island.graph, island.root, 1)?;
    let at = At {
        graph: &island.graph,
        root: island.root,
        source,
    };
    fill(alloc, &at, &mut columns, pairs, rows)?;
    Ok(pairs.len())
}

/// Puts the rows into a buffer, as far as there is room.
fn fill(
    alloc: Global,
    at: &At<'_>,
    columns: &mut RootedColumns,
    pairs: &[MrtPair],
    rows: &mut [MrtProxyRow],
) -> Result<(), NoMemory>
    requires root { at.now.root < length at.now.graph.now.ids }
    requires source { at.now.source < length at.now.graph.now.ids }
    requires made { MakeColumns at.now.graph.now columns.old }
    requires computed { HasComputed at.now.graph.now at.now.root columns.old }
    ensures room { length rows.new ≡ length rows.old }
    ensures filled { IfOk result (λ _. (them : List MrtProxyRow)
        × AllZip (IsPairRow at.now.graph.now at.now.root at.now.source) pairs.now them × IsHeldIn rows.new (length pairs.now) them) }
{
    for place in 0..pairs.len() {
        let pair = pair_at(pairs, place);
        let row = row_of_pair(alloc, at, columns, &pair)?;
        put_at(rows, place, row);
    }
    Ok(())
}

/// The pair at a place.
fn pair_at(pairs: &[MrtPair], place: usize) -> MrtPair
    requires { place < length pairs.now }
    ensures { slice_get pairs.now place ≡ Some result }
{
    pairs[place]
}

/// Puts a row at a place of a buffer, if that is there.
fn put_at(rows: &mut [MrtProxyRow], place: usize, row: MrtProxyRow)
    ensures room { length rows.new ≡ length rows.old }
    ensures put { place < length rows.old → take (place + 1) rows.new ≡ take place rows.old ++ row ∷ [] }
{
    if place < rows.len() {
        rows[place] = row;
    }
}

/// The row for two routers, also where they have no hops.
fn row_of_pair(
    alloc: Global,
    at: &At<'_>,
    columns: &mut RootedColumns,
    pair: &MrtPair,
) -> Result<MrtProxyRow, NoMemory>
    requires root { at.now.root < length at.now.graph.now.ids }
    requires source { at.now.source < length at.now.graph.now.ids }
    requires made { MakeColumns at.now.graph.now columns.old }
    requires computed { HasComputed at.now.graph.now at.now.root columns.old }
    ensures row { IfOk result (IsPairRow at.now.graph.now at.now.root at.now.source pair.now) }
    ensures still_made { MakeColumns at.now.graph.now columns.new }
    ensures still_root { columns.new.root ≡ columns.old.root }
{
    match hops_of_pair(alloc, at, columns, pair) {
        Ok(row) => Ok(row),
        Err(exit) => refused(&exit),
    }
}

/// A row without hops, and why; want of memory is no row.
fn refused(exit: &Exit) -> Result<MrtProxyRow, NoMemory>
    ensures row { (exit.now ≡ Exit.NoMemory → ⊥) → IfOk result (λ row. row ≡ refused_row exit.now) }
    ensures none { exit.now ≡ Exit.NoMemory → OnOk result ⊥ }
{
    if let Exit::NoMemory = exit {
        return Err(NoMemory);
    }
    let none = MrtHop {
        kind: 0,
        number: 0,
        link_data: 0,
    };
    Ok(MrtProxyRow {
        status: u32::from(exit.status()),
        at: fault_of(exit).at,
        blue: none,
        red: none,
        reserved_1: 0,
        reserved_2: 0,
    })
}

/// The hops for two routers, or why there are none.
#[tactic(auto, using(mrt_exit::proofs::Stepping::early, mrt_exit::proofs::Stepping::late))]
fn hops_of_pair(
    alloc: Global,
    at: &At<'_>,
    columns: &mut RootedColumns,
    pair: &MrtPair,
) -> Result<MrtProxyRow, Exit>
    requires root { at.now.root < length at.now.graph.now.ids }
    requires source { at.now.source < length at.now.graph.now.ids }
    requires made { MakeColumns at.now.graph.now columns.old }
    requires computed { HasComputed at.now.graph.now at.now.root columns.old }
    ensures hops { IsAnswer (pair_step at.now.graph.now at.now.root at.now.source pair.now) result }
    ensures still_made { MakeColumns at.now.graph.now columns.new }
    ensures still_root { columns.new.root ≡ columns.old.root }
{
    differing(pair)?;
    hops_between(alloc, at, columns, pair)
}

/// Whether two routers differ.
fn differing(pair: &MrtPair) -> Result<(), Exit>
    ensures differing { IsAnswer (differing pair.now) result }
    ensures differ { IfOk result (λ _. pair.now.first ≢ pair.now.second) }
{
    if pair.first == pair.second {
        return Err(Exit::Usage);
    }
    Ok(())
}

/// The hops for two routers that differ.
#[tactic(auto, using(mrt_exit::proofs::Stepping::early, mrt_exit::proofs::Stepping::late))]
fn hops_between(
    alloc: Global,
    at: &At<'_>,
    columns: &mut RootedColumns,
    pair: &MrtPair,
) -> Result<MrtProxyRow, Exit>
    requires root { at.now.root < length at.now.graph.now.ids }
    requires source { at.now.source < length at.now.graph.now.ids }
    requires made { MakeColumns at.now.graph.now columns.old }
    requires computed { HasComputed at.now.graph.now at.now.root columns.old }
    requires different { pair.now.first ≢ pair.now.second }
    ensures hops { IsAnswer (between at.now.graph.now at.now.root at.now.source pair.now) result }
    ensures still_made { MakeColumns at.now.graph.now columns.new }
    ensures still_root { columns.new.root ≡ columns.old.root }
{
    let a = node_of(at.graph, pair.first)?;
    hops_from(alloc, at, columns, pair, a)
}

/// The same, of which the first is found.
#[tactic(auto, using(mrt_exit::proofs::Stepping::early, mrt_exit::proofs::Stepping::late))]
fn hops_from(
    alloc: Global,
    at: &At<'_>,
    columns: &mut RootedColumns,
    pair: &MrtPair,
    a: NodeNo,
) -> Result<MrtProxyRow, Exit>
    requires root { at.now.root < length at.now.graph.now.ids }
    requires source { at.now.source < length at.now.graph.now.ids }
    requires made { MakeColumns at.now.graph.now columns.old }
    requires computed { HasComputed at.now.graph.now at.now.root columns.old }
    requires different { pair.now.first ≢ pair.now.second }
    requires first { slice_get at.now.graph.now.ids a ≡ Some (router_node pair.now.first) }
    ensures hops { IsAnswer (from_first at.now.graph.now at.now.root at.now.source pair.now a) result }
    ensures still_made { MakeColumns at.now.graph.now columns.new }
    ensures still_root { columns.new.root ≡ columns.old.root }
{
    let b = node_of(at.graph, pair.second)?;
    hops_at(alloc, at, columns, a, b)
}

/// The hops for two nodes.
fn hops_at(
    alloc: Global,
    at: &At<'_>,
    columns: &mut RootedColumns,
    a: NodeNo,
    b: NodeNo,
) -> Result<MrtProxyRow, Exit>
    requires root { at.now.root < length at.now.graph.now.ids }
    requires source { at.now.source < length at.now.graph.now.ids }
    requires made { MakeColumns at.now.graph.now columns.old }
    requires computed { HasComputed at.now.graph.now at.now.root columns.old }
    requires first { a < length at.now.graph.now.ids }
    requires second { b < length at.now.graph.now.ids }
    requires different { a ≢ b }
    ensures hops { IsAnswer (hops_at at.now.graph.now at.now.root at.now.source a b) result }
    ensures still_made { MakeColumns at.now.graph.now columns.new }
    ensures still_root { columns.new.root ≡ columns.old.root }
{
    let entries = proxy_rows_by(alloc, at.graph, at.root, columns, a, b)?;
    // what each graph keeps is told by reading it
    let _count = at.graph.node_count();
    Ok(row_at(at, &entries))
}

/// The router's row among those of all nodes.
fn row_at(at: &At<'_>, entries: &[ProxyRow]) -> MrtProxyRow
    requires kept { IsTopology at.now.graph.now }
    requires source { at.now.source < length at.now.graph.now.ids }
    requires touch { AllTouch at.now.graph.now entries.now }
    ensures done { (result.status ≡ 0) × (result.at ≡ 0) × (result.reserved_1 ≡ 0) × (result.reserved_2 ≡ 0) }
    ensures hops { (entry : ProxyRow) × (slice_get entries.now at.now.source ≡ Some entry)
        × IsOutHop at.now.graph.now at.now.source entry.blue result.blue
        × IsOutHop at.now.graph.now at.now.source entry.red result.red }
{
    let entry = entries[at.source.get() as usize];
    MrtProxyRow {
        status: 0,
        at: 0,
        blue: out_hop(at.graph, at.source, entry.blue),
        red: out_hop(at.graph, at.source, entry.red),
        reserved_1: 0,
        reserved_2: 0,
    }
}

/// Where a node sends, in numbers.
fn out_hop(g: &Graph, s: NodeNo, out: Out) -> MrtHop
    requires kept { IsTopology g.now }
    requires within { s < length g.now.ids }
    requires touches { Touches g.now s out }
    ensures { IsOutHop g.now s out result }
{
    match out {
        Out::Link(link) => hop_in(link_hop(g, s, link)),
        Out::Attached => MrtHop {
            kind: 3,
            number: 0,
            link_data: 0,
        },
    }
}
