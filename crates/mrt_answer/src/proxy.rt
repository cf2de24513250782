//! `proxy DB PROFILE ROUTER A B`: the rows for a prefix that is attached to two routers.

ghost use Rattle.std.specs.Prelude.{◌≡◌, ◌≢◌, ◌<◌, Err, IfErr, IfOk, length};
ghost use Rattle.mrt_exit.specs.Due.{IsDue};
ghost use Rattle.mrt_graph.specs.declared.cert.CertFile.{CertFile};
ghost use Rattle.mrt_rows.specs.Rooted.{MakeColumns};
ghost use Rattle.proxy_rows.specs.ProxyRows.{AreProxyRows};
ghost use Rattle.mrt_answer.specs.steps.Made.{IsAttachedBy};
ghost use Rattle.mrt_answer.specs.Made.{HasComputed};
ghost use Rattle.mrt_answer.specs.Forms.{proxied_for, proxied_in};
ghost use Rattle.mrt_answer.specs.Texts.{IsComputedFile, proxied};
ghost use Rattle.mrt_answer.specs.TextBytes.{IsTextAnswer};

use crate::columns::columns_of;
use crate::finding::node_of;
use crate::given::Given;
use crate::router_island::island_in;
use crate::text::{Text, bytes_answer};
use mrt_exit::Exit;
use mrt_graph::{CertNode, Graph, NoMemory, NodeNo};
use mrt_rows::RootedColumns;
use proxy_rows::{Attachment, ProxyRow, attach, proxy_rows_at, proxy_text_of};
use std::alloc::Global;

/// The rows of all nodes of a router's island for a prefix that is attached to two routers of it.
pub(crate) fn proxy(
    alloc: Global,
    given: &Given,
    router: u32,
    first: u32,
    second: u32,
) -> Result<Text, Exit>
    requires { first ≢ second }
    ensures { IsTextAnswer (proxied_for given.now router first second) result }
{
    let island = island_in(alloc, given, router)?;
    proxy_in(alloc, &island.graph, island.root, first, second)
}

/// The same, in the island of whatever router.
#[tactic(auto, using(crate::proofs::TextSteps::ends_first, crate::proofs::TextSteps::ends_second))]
fn proxy_in(
    alloc: Global,
    graph: &Graph,
    root: NodeNo,
    first: u32,
    second: u32,
) -> Result<Text, Exit>
    requires root { root < length graph.now.ids }
    requires different { first ≢ second }
    ensures { IsTextAnswer (proxied_in graph.now root first second) result }
{
    let a = node_of(graph, first)?;
    let b = node_of(graph, second)?;
    proxy_between(alloc, graph, root, a, b)
}

/// The same for two nodes of a graph, by its certificate from a root, of which one column is made.
fn proxy_between(
    alloc: Global,
    graph: &Graph,
    root: NodeNo,
    a: NodeNo,
    b: NodeNo,
) -> Result<Text, Exit>
    requires root { root < length graph.now.ids }
    requires first { a < length graph.now.ids }
    requires second { b < length graph.now.ids }
    requires different { a ≢ b }
    ensures { IsTextAnswer (proxied graph.now root a b) result }
{
    let mut columns = columns_of(alloc, graph, root, 1)?;
    proxy_by(alloc, graph, root, &mut columns, a, b)
}

/// The same, by what makes the columns of that certificate.
fn proxy_by(
    alloc: Global,
    graph: &Graph,
    root: NodeNo,
    columns: &mut RootedColumns,
    a: NodeNo,
    b: NodeNo,
) -> Result<Text, Exit>
    requires root { root < length graph.now.ids }
    requires made { MakeColumns graph.now columns.old }
    requires computed { HasComputed graph.now root columns.old }
    requires first { a < length graph.now.ids }
    requires second { b < length graph.now.ids }
    requires different { a ≢ b }
    ensures { IsTextAnswer (proxied graph.now root a b) result }
{
    let rows = proxy_rows_by(alloc, graph, root, columns, a, b)?;
    bytes_answer(proxy_text_of(alloc, graph, root, a, b, &rows))
}

/// The rows of all nodes for that prefix, by what makes the columns of that certificate.
pub fn proxy_rows_by(
    alloc: Global,
    graph: &Graph,
    root: NodeNo,
    columns: &mut RootedColumns,
    a: NodeNo,
    b: NodeNo,
) -> Result<Vec<ProxyRow>, Exit>
    requires root { root < length graph.now.ids }
    requires made { MakeColumns graph.now columns.old }
    requires computed { HasComputed graph.now root columns.old }
    requires first { a < length graph.now.ids }
    requires second { b < length graph.now.ids }
    requires different { a ≢ b }
    ensures rows { IfOk result (λ rows. (file : CertFile) × IsComputedFile graph.now root file
        × AreProxyRows graph.now file.cert a b rows.items) }
    ensures none { IfErr result (IsDue (λ exit. proxied graph.now root a b (Err exit))) }
    ensures still_made { MakeColumns graph.now columns.new }
    ensures still_root { columns.new.root ≡ columns.old.root }
{
    let nodes = columns.nodes(alloc, graph)?;
    let Some(at) = attach(&nodes, a, b) else {
        return Err(Exit::NoCommonBlock);
    };
    let rows = rows_at(alloc, graph, columns, &nodes, &at)?;
    Ok(rows)
}

/// The rows at an attachment, by the words on all links and by the column for its head.
fn rows_at(
    alloc: Global,
    graph: &Graph,
    columns: &mut RootedColumns,
    nodes: &[CertNode],
    at: &Attachment,
) -> Result<Vec<ProxyRow>, NoMemory>
    requires made { MakeColumns graph.now columns.old }
    requires head { at.now.head < length graph.now.ids }
    requires attached { IsAttachedBy graph.now columns.old nodes.now at.now }
    ensures rows { (by : IsAttachedBy graph.now columns.old nodes.now at.now)
        → IfOk result (λ rows. AreProxyRows graph.now by.own.file.cert by.a by.b rows.items) }
    ensures still_made { MakeColumns graph.now columns.new }
    ensures still_root { columns.new.root ≡ columns.old.root }
{
    let links = columns.links(alloc, graph)?;
    columns.aim(graph, at.head);
    let column = columns.column(graph);
    proxy_rows_at(alloc, graph, nodes, &links, at, &column)
}
