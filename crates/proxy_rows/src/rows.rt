//! The rows of all nodes for a prefix that is attached to two routers.

ghost use Rattle.std.specs.Prelude.{◌≡◌, ◌≢◌, ◌<◌, ◌+◌, ◌↔◌, ℕ, true, Err, IfOk, List, length};
ghost use Rattle.mrt_graph.specs.{declared.cert.Row.Row, AcceptedFor.IsAcceptedFor, GraphInvariant.IsTopology, Related.are_unrelated, Rows.Rows, Sound.SoundFor};
ghost use Rattle.proxy_rows.specs.declared.attachment.Attachment.{Attachment};
ghost use Rattle.proxy_rows.specs.declared.side.Side.TheVariants.{Low, High};
ghost use Rattle.proxy_rows.specs.Attachment.{IsAttachment};
ghost use Rattle.proxy_rows.specs.LabelledGraph.{ReadFrom};
ghost use Rattle.proxy_rows.specs.GraphWith.{AreRowsWith, links_with, new_node};
ghost use Rattle.proxy_rows.specs.ProxyRows.{AreProxyRows, AreRowsOf, IsHeadBlue, IsHeadRed, IsProxyRow, IsSideOut};
ghost use Rattle.proxy_rows.specs.steps.LabelledGraph.{AreAccepted, AreMarks, AreReadWith, IsOn, with_rows};

use crate::attachment::{Attachment, attach};
use crate::ends::{Wanted, first_end};
use crate::labelled_graph::LabelledGraph;
use crate::marking::side_marks;
use crate::proxy_error::ProxyError;
use crate::proxy_row::{Out, ProxyRow};
use crate::side::{Side, router_of};
use crate::standing::{Standing, stands};
use mrt_graph::{Cert, CertLink, CertNode, Graph, NoMemory, NodeNo, RowsOf};
use std::alloc::Global;

/// Of each node its row for a prefix that two routers, `a` and `b`, are attached to: a named proxy-node (RFC 7811, section
/// 5). The certificate is accepted for the graph. The rows stand by number of node.
///
/// For callers of these crates (docs/LIBRARY.md) and tests; `proxy` has the rows for one node alone
/// ([`proxy_rows_at`]).
///
/// It takes time in proportion to nodes and links.
///
/// # Errors
///
/// [`ProxyError::NoCommonBlock`] exactly where the certificate gives the two routers no common block.
pub fn proxy_rows(
    alloc: Global,
    g: &Graph,
    c: &Cert,
    a: NodeNo,
    b: NodeNo,
) -> Result<Vec<ProxyRow>, ProxyError>
    requires accepted { IsAcceptedFor g.now c.now }
    requires first { a < length g.now.ids }
    requires second { b < length g.now.ids }
    requires different { a ≢ b }
    ensures rows { IfOk result (λ rows. AreProxyRows g.now c.now a b rows.items) }
    ensures no_common_block { (result ≡ Err ProxyError.NoCommonBlock)
        ↔ (are_unrelated c.now a b ≡ true) }
    ensures sound { IfOk result (λ entries. (at : Attachment) (rows : Rows) → IsAttachment c.now a b at
        → AreRowsWith g.now at entries.items rows → (s : ℕ) → s < length g.now.ids
        → SoundFor (links_with g.now at) (length g.now.ids + 1) rows s (new_node g.now)) }
{
    let (nodes, links) = (c.nodes(), c.links());
    let Some(at) = attach(nodes, a, b) else {
        return Err(ProxyError::NoCommonBlock);
    };
    let rows = proxy_rows_at(alloc, g, nodes, links, &at, c)?;
    Ok(rows)
}

/// Of each node its row for a prefix that two routers are attached to, by their attachment, the words on nodes and links of
/// a certificate that is accepted for the graph, and its rows for the head of the attachment, wherever they stand. The
/// rows are those that [`proxy_rows`] has by the certificate. What each graph keeps is told with them.
///
/// It takes time in proportion to nodes and links.
pub fn proxy_rows_at<R: RowsOf>(
    alloc: Global,
    g: &Graph,
    nodes: &[CertNode],
    links: &[CertLink],
    at: &Attachment,
    rows: &R,
) -> Result<Vec<ProxyRow>, NoMemory>
    requires read { ReadFrom g.now nodes.now links.now at.now (R.rows rows.now) }
    ensures kept { IsTopology g.now }
    ensures rows { (read : ReadFrom g.now nodes.now links.now at.now (R.rows rows.now))
        → IfOk result (λ rows. AreProxyRows g.now read.cert read.a read.b rows.items) }
{
    let words = LabelledGraph {
        graph: g,
        nodes,
        links,
    };
    rows_by(alloc, &words, at, rows, g.node_count())
}

/// The rows, by the words and the attachment.
fn rows_by<R: RowsOf>(
    alloc: Global,
    words: &LabelledGraph,
    at: &Attachment,
    rows: &R,
    count: u16,
) -> Result<Vec<ProxyRow>, NoMemory>
    requires read { (rest : List Row) × AreReadWith words.now at.now (R.rows rows.now) rest }
    requires count { count ≡ length words.now.graph.now.ids }
    ensures { (rest : List Row) → AreReadWith words.now at.now (R.rows rows.now) rest
        → IfOk result (λ rows.
        AreRowsOf words.now.graph.now (with_rows words.now rest) at.now rows.items) }
{
    let low = side_marks(alloc, words, at, Side::Low)?;
    let high = side_marks(alloc, words, at, Side::High)?;
    let mut proxies = Vec::with_capacity(alloc, count as usize)?;
    for s in 0..count {
        // Taken apart so that the borrow checker's part of the proof meets the type of its fields.
        let ProxyRow { blue, red } = row(words, at, rows, &low, &high, NodeNo::new(s));
        proxies.push_reserved(ProxyRow { blue, red });
    }
    Ok(proxies)
}

/// The row of a node.
fn row<R: RowsOf>(
    words: &LabelledGraph,
    at: &Attachment,
    rows: &R,
    low: &[bool],
    high: &[bool],
    s: NodeNo,
) -> ProxyRow
    requires read { (rest : List Row) × AreReadWith words.now at.now (R.rows rows.now) rest }
    requires low_count { length low.now ≡ length words.now.graph.now.ids }
    requires low { AreMarks words.now at.now Low low.now }
    requires high_count { length high.now ≡ length words.now.graph.now.ids }
    requires high { AreMarks words.now at.now High high.now }
    requires within { s < length words.now.graph.now.ids }
    ensures { (rest : List Row) → AreReadWith words.now at.now (R.rows rows.now) rest
        → IsProxyRow words.now.graph.now (with_rows words.now rest) at.now s result }
{
    let standing = stands(words, at, low, high, s);
    if s == at.head {
        return ProxyRow {
            blue: head_blue(words, at, low),
            red: head_red(words, at, low),
        };
    }
    let row = rows.row_for(s, at.head);
    let (blue, red) = (Out::Link(row.blue), Out::Link(row.red));
    match standing {
        Standing::Head => unreachable!(),
        Standing::OnLow => ProxyRow {
            blue: side_out(words, at, Side::Low, low, s),
            red,
        },
        Standing::OnHigh => ProxyRow {
            blue,
            red: side_out(words, at, Side::High, high, s),
        },
        Standing::Other => ProxyRow {
            blue: red,
            red: blue,
        },
        Standing::Outside => ProxyRow { blue, red },
    }
}

/// Blue at the head.
fn head_blue(words: &LabelledGraph, at: &Attachment, low: &[bool]) -> Out
    requires ground { AreAccepted words.now at.now }
    requires low_count { length low.now ≡ length words.now.graph.now.ids }
    requires low { AreMarks words.now at.now Low low.now }
    ensures { (rest : List Row)
        → IsHeadBlue words.now.graph.now (with_rows words.now rest) at.now result }
{
    if at.head == at.lower {
        return Out::Attached;
    }
    match first_end(words, at, Wanted::PlainToLow, low, at.head) {
        Some(end) => Out::Link(end.link),
        None => unreachable!(),
    }
}

/// Red at the head: the closing link of the block, or its one link.
fn head_red(words: &LabelledGraph, at: &Attachment, low: &[bool]) -> Out
    requires ground { AreAccepted words.now at.now }
    requires low_count { length low.now ≡ length words.now.graph.now.ids }
    requires low { AreMarks words.now at.now Low low.now }
    ensures { (rest : List Row) → IsHeadRed (with_rows words.now rest) at.now result }
{
    match first_end(words, at, Wanted::NotPlain, low, at.head) {
        Some(end) => Out::Link(end.link),
        None => unreachable!(),
    }
}

/// Out of a node of a side.
fn side_out(words: &LabelledGraph, at: &Attachment, side: Side, marks: &[bool], s: NodeNo) -> Out
    requires ground { AreAccepted words.now at.now }
    requires count { length marks.now ≡ length words.now.graph.now.ids }
    requires marked { AreMarks words.now at.now side marks.now }
    requires within { s < length words.now.graph.now.ids }
    requires on { IsOn words.now at.now side s }
    ensures { (rest : List Row)
        → IsSideOut words.now.graph.now (with_rows words.now rest) at.now side s result }
{
    if s == router_of(at, side) {
        return Out::Attached;
    }
    match first_end(words, at, Wanted::Onward(side), marks, s) {
        Some(end) => Out::Link(end.link),
        None => unreachable!(),
    }
}
