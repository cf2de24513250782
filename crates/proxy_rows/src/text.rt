//! The text on a prefix that is attached to two routers.

ghost use Rattle.std.specs.Prelude.{◌≡◌, ◌≢◌, ◌<◌, ◌↔◌, true, Err, IfOk, Some, length, slice_get};
ghost use Rattle.mrt_graph.specs.Certificate.{Certificate};
ghost use Rattle.mrt_graph.specs.CertFields.{order_of};
ghost use Rattle.mrt_graph.specs.GraphInvariant.{IsTopology};
ghost use Rattle.mrt_graph.specs.Related.{are_unrelated};
ghost use Rattle.mrt_graph.specs.AcceptedFor.{IsAcceptedFor};
ghost use Rattle.text_parts.specs.steps.Adds.{Adds};
ghost use Rattle.text_parts.specs.Parts.{AreParts};
ghost use Rattle.proxy_rows.specs.ProxyRows.{AreProxyRows};
ghost use Rattle.proxy_rows.specs.steps.Touches.{AllTouch, Touches};
ghost use Rattle.proxy_rows.specs.ProxyText.{IsHead, IsHop, IsLine, IsOutText, IsProxyText};

use crate::ends::end_on;
use crate::proxy_error::ProxyError;
use crate::proxy_row::{Out, ProxyRow};
use crate::rows::proxy_rows;
use mrt_graph::{Cert, Graph, LinkNo, NoMemory, NodeNo};
use std::alloc::Global;
use text_parts::{push, push_hop, push_node};

/// The text on a prefix that two routers, `a` and `b`, are attached to: a line on these and the root, and a line on each
/// node. The certificate is accepted for the graph, and the root is its node of order 1.
///
/// For callers of the crate; `proxy` makes the same text of the rows ([`proxy_text_of`]).
///
/// It takes time in proportion to nodes and links.
///
/// # Errors
///
/// [`ProxyError::NoCommonBlock`] exactly where the certificate gives the two routers no common block.
pub fn proxy_text(
    alloc: Global,
    g: &Graph,
    root: NodeNo,
    c: &Cert,
    a: NodeNo,
    b: NodeNo,
) -> Result<Vec<u8>, ProxyError>
    requires accepted { IsAcceptedFor g.now c.now }
    requires root { order_of c.now root ≡ Some 1 }
    requires first { a < length g.now.ids }
    requires second { b < length g.now.ids }
    requires different { a ≢ b }
    ensures text { IfOk result (λ text. IsProxyText g.now root c.now a b text.items) }
    ensures no_common_block { (result ≡ Err ProxyError.NoCommonBlock)
        ↔ (are_unrelated c.now a b ≡ true) }
{
    let rows = proxy_rows(alloc, g, c, a, b)?;
    let text = proxy_text_of(alloc, g, root, a, b, &rows)?;
    Ok(text)
}

/// The text on a prefix that two routers, `a` and `b`, are attached to, by its rows, which are those of a certificate that
/// is accepted for the graph.
///
/// It takes time in proportion to nodes and links.
pub fn proxy_text_of(
    alloc: Global,
    g: &Graph,
    root: NodeNo,
    a: NodeNo,
    b: NodeNo,
    rows: &[ProxyRow],
) -> Result<Vec<u8>, NoMemory>
    requires rows { (c : Certificate) × IsAcceptedFor g.now c × AreProxyRows g.now c a b rows.now }
    requires root { root < length g.now.ids }
    requires first { a < length g.now.ids }
    requires second { b < length g.now.ids }
    ensures { (c : Certificate) → AreProxyRows g.now c a b rows.now
        → IfOk result (λ text. IsProxyText g.now root c a b text.items) }
{
    let mut text = Vec::new(alloc);
    push_head(&mut text, g, a, b, root)?;
    push_lines(&mut text, g, rows, g.node_count())?;
    Ok(text)
}

/// Puts the first line at the end of a text.
fn push_head(
    text: &mut Vec<u8>,
    g: &Graph,
    a: NodeNo,
    b: NodeNo,
    root: NodeNo,
) -> Result<(), NoMemory>
    requires first { a < length g.now.ids }
    requires second { b < length g.now.ids }
    requires root { root < length g.now.ids }
    ensures { IfOk result (λ _. Adds (IsHead g.now a b root) text.old.items text.new.items) }
{
    push(text, b"proxy ")?;
    push_node(text, g.id(a))?;
    push(text, b" ")?;
    push_node(text, g.id(b))?;
    push(text, b" root ")?;
    push_node(text, g.id(root))?;
    push(text, b"\n")?;
    Ok(())
}

/// Puts the lines on all nodes at the end of a text.
fn push_lines(text: &mut Vec<u8>, g: &Graph, rows: &[ProxyRow], count: u16) -> Result<(), NoMemory>
    requires kept { IsTopology g.now }
    requires rows { AllTouch g.now rows.now }
    requires count { count ≡ length g.now.ids }
    ensures { IfOk result (λ _.
        Adds (AreParts (IsLine g.now rows.now) (length g.now.ids)) text.old.items text.new.items) }
{
    for s in 0..count {
        push_line(text, g, rows, NodeNo::new(s))?;
    }
    Ok(())
}

/// Puts the line on a node at the end of a text.
fn push_line(text: &mut Vec<u8>, g: &Graph, rows: &[ProxyRow], s: NodeNo) -> Result<(), NoMemory>
    requires kept { IsTopology g.now }
    requires within { s < length g.now.ids }
    requires one_each { length rows.now ≡ length g.now.ids }
    requires blue { (row : ProxyRow) → slice_get rows.now s ≡ Some row → Touches g.now s row.blue }
    requires red { (row : ProxyRow) → slice_get rows.now s ≡ Some row → Touches g.now s row.red }
    ensures { IfOk result (λ _. Adds (IsLine g.now rows.now s) text.old.items text.new.items) }
{
    let row = rows[s.get() as usize];
    push_node(text, g.id(s))?;
    push(text, b" blue ")?;
    push_out(text, g, s, row.blue)?;
    push(text, b" red ")?;
    push_out(text, g, s, row.red)?;
    push(text, b"\n")?;
    Ok(())
}

/// Puts where a node sends at the end of a text.
fn push_out(text: &mut Vec<u8>, g: &Graph, s: NodeNo, out: Out) -> Result<(), NoMemory>
    requires kept { IsTopology g.now }
    requires within { s < length g.now.ids }
    requires touches { Touches g.now s out }
    ensures { IfOk result (λ _. Adds (IsOutText g.now s out) text.old.items text.new.items) }
{
    match out {
        Out::Link(e) => push_over(text, g, s, e),
        Out::Attached => push(text, b"attached"),
    }
}

/// Puts the hop over a link of a node at the end of a text.
fn push_over(text: &mut Vec<u8>, g: &Graph, s: NodeNo, e: LinkNo) -> Result<(), NoMemory>
    requires kept { IsTopology g.now }
    requires within { s < length g.now.ids }
    requires touches { Touches g.now s (Out.Link e) }
    ensures { IfOk result (λ _. Adds (IsHop g.now s e) text.old.items text.new.items) }
{
    let Some(end) = end_on(g.ends(s), e) else {
        unreachable!()
    };
    push_hop(text, g.id(end.to), end.link_data)
}
