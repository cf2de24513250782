//! The parts of a certificate file that stand in it again and again: nodes, links and rows.

ghost use Rattle.std.specs.Prelude.{◌≡◌, ◌<◌, ◌≤◌, ◌+◌, ◌^◌, ◌-◌, ◌++◌, length, vec_len, vec_capacity};
ghost use Rattle.mrt_graph.specs.Certificate.{IsCertLink};
ghost use Rattle.cert_format.specs.{CertText.node_text, CertText.link_text, CertText.row_text, Layout.kind_named, Layout.node_form, Layout.link_form, Layout.role_named, Layout.row_form, Layout.tag_named};
ghost use Rattle.cert_format.specs.{steps.Reading.ReadsPart, steps.Reading.IsFileRow, steps.Reading.IsNode};

use crate::error::{CertFault, CertKind};
use crate::field::{any_u32, field8, field16};
use crate::header::Header;
use crate::rest::Rest;
use crate::versions::{stands_in, tag_count};
use mrt_graph::{CertLink, CertNode, Kind, LinkNo, NodeId, NodeNo, Role, Row, Tag};

/// A node, a link or a row, as it stands in a certificate file.
pub trait Part: Copy {
    ghost use Rattle.std.specs.Prelude.{ℕ, List};
    ghost use Rattle.cert_format.specs.declared.header.Header.{Header};
    ghost use Rattle.cert_format.specs.Layout.{Form};

    // Its bytes, and how many these are.
    ghost text: { Self → List ℕ };

    ghost size: { ℕ };

    // Its bytes in a file of this version; none where it does not stand there.
    ghost text_in: { ℕ → Self → List ℕ };

    // Its form in a file with this header, and what each one there keeps.
    ghost form: { Header → (Self → Form) → Form };

    ghost keeps: { Header → Self → Type 0 };

    /// The part at the front of the rest.
    fn read<'a>(rest: Rest<'a>, header: Header) -> Result<(Self, Rest<'a>), CertFault>
        requires { rest.at < 2 ^ 32 - 16 }
        ensures { ReadsPart (form header) text (keeps header) rest.entry result };

    /// Puts its bytes after those that are there, where there is room for them.
    fn put(&self, version: u16, out: &mut Vec<u8>)
        requires { vec_len out.old + length (text_in version self.now) ≤ vec_capacity out.old }
        ensures text { out.new.items ≡ out.old.items ++ text_in version self.now }
        ensures capacity { vec_capacity out.old ≤ vec_capacity out.new };
}

impl Part for CertNode {
    ghost text = { node_text };

    ghost size = { 11 };

    ghost text_in = { λ version. node_text };

    ghost form = { λ header. node_form header.nodes };

    ghost keeps = { λ header. IsNode header.nodes };

    fn read<'a>(rest: Rest<'a>, header: Header) -> Result<(CertNode, Rest<'a>), CertFault> {
        node(rest, header.nodes)
    }

    fn put(&self, _: u16, out: &mut Vec<u8>) {
        out.extend_from_slice(&node_bytes(self)).unwrap();
    }
}

impl Part for CertLink {
    ghost text = { link_text };

    ghost size = { 7 };

    ghost text_in = { λ version. link_text };

    ghost form = { λ header. link_form header.nodes };

    ghost keeps = { λ header. IsCertLink header.nodes };

    fn read<'a>(rest: Rest<'a>, header: Header) -> Result<(CertLink, Rest<'a>), CertFault> {
        link(rest, header.nodes)
    }

    fn put(&self, _: u16, out: &mut Vec<u8>) {
        out.extend_from_slice(&link_bytes(self)).unwrap();
    }
}

impl Part for Row {
    ghost use Rattle.cert_format.specs.steps.Putting.{row_text_in};
    ghost use Rattle.cert_format.specs.Versions.{tag_count};

    ghost text = { row_text };

    ghost size = { 5 };

    ghost text_in = { row_text_in };

    ghost form = { λ header. row_form (tag_count header.version) header.links };

    ghost keeps = { λ header. IsFileRow (tag_count header.version) header.links };

    fn read<'a>(rest: Rest<'a>, header: Header) -> Result<(Row, Rest<'a>), CertFault> {
        row(rest, tag_count(header.version), header.links)
    }

    fn put(&self, version: u16, out: &mut Vec<u8>) {
        if stands_in(version, self) {
            out.extend_from_slice(&row_bytes(self)).unwrap();
        }
    }
}

/// A node, of so many.
fn node(rest: Rest<'_>, nodes: u16) -> Result<(CertNode, Rest<'_>), CertFault>
    requires { rest.at < 2 ^ 32 - 16 }
    ensures { ReadsPart (node_form nodes) node_text (IsNode nodes) rest.entry result }
{
    let nodes = u32::from(nodes);
    let (kind, rest) = field8(rest, 1, 3, CertKind::Range)?;
    let (number, rest) = any_u32(rest)?;
    let (order, rest) = field16(rest, 1, nodes + 1, CertKind::Range)?;
    let (head, rest) = field16(rest, 0, nodes, CertKind::Range)?;
    let (block, rest) = field16(rest, 0, nodes, CertKind::Range)?;
    let node = CertNode {
        id: NodeId {
            kind: kind_named(kind),
            number,
        },
        order,
        head: NodeNo::new(head),
        block: NodeNo::new(block),
    };
    Ok((node, rest))
}

/// A link between two of so many nodes.
fn link(rest: Rest<'_>, nodes: u16) -> Result<(CertLink, Rest<'_>), CertFault>
    requires { rest.at < 2 ^ 32 - 16 }
    ensures { ReadsPart (link_form nodes) link_text (IsCertLink nodes) rest.entry result }
{
    let nodes = u32::from(nodes);
    let (a, rest) = field16(rest, 0, 65536, CertKind::Range)?;
    let (b, rest) = field16(rest, u32::from(a) + 1, nodes, CertKind::Range)?;
    let (block, rest) = field16(rest, 0, nodes, CertKind::Range)?;
    let (role, rest) = field8(rest, 0, 3, CertKind::Range)?;
    let link = CertLink {
        a: NodeNo::new(a),
        b: NodeNo::new(b),
        block: NodeNo::new(block),
        role: role_named(role),
    };
    Ok((link, rest))
}

/// A row of two of so many links, with one of so many tags.
fn row(rest: Rest<'_>, tags: u8, links: u16) -> Result<(Row, Rest<'_>), CertFault>
    requires place { rest.at < 2 ^ 32 - 16 }
    requires tags { tags ≤ 7 }
    ensures { ReadsPart (row_form tags links) row_text (IsFileRow tags links) rest.entry result }
{
    let links = u32::from(links);
    let (blue, rest) = field16(rest, 0, links, CertKind::Range)?;
    let (red, rest) = field16(rest, 0, links, CertKind::Range)?;
    let (tag, rest) = field8(rest, 0, u32::from(tags), CertKind::Tag)?;
    let row = Row {
        blue: LinkNo::new(blue),
        red: LinkNo::new(red),
        tag: tag_named(tag),
    };
    Ok((row, rest))
}

fn node_bytes(node: &CertNode) -> [u8; 11]
    ensures { result ≡ node_text node.now }
{
    let kind = match node.id.kind {
        Kind::Router => 1,
        Kind::Network => 2,
    };
    let [a, b, c, d] = node.id.number.to_be_bytes();
    let [order, order_low] = node.order.to_be_bytes();
    let [head, head_low] = node.head.get().to_be_bytes();
    let [block, block_low] = node.block.get().to_be_bytes();
    [
        kind, a, b, c, d, order, order_low, head, head_low, block, block_low,
    ]
}

fn link_bytes(link: &CertLink) -> [u8; 7]
    ensures { result ≡ link_text link.now }
{
    let role = match link.role {
        Role::Plain => 0,
        Role::Sole => 1,
        Role::Closing => 2,
    };
    let [a, a_low] = link.a.get().to_be_bytes();
    let [b, b_low] = link.b.get().to_be_bytes();
    let [block, block_low] = link.block.get().to_be_bytes();
    [a, a_low, b, b_low, block, block_low, role]
}

fn row_bytes(row: &Row) -> [u8; 5]
    ensures { result ≡ row_text row.now }
{
    let tag = match row.tag {
        Tag::Sole => 0,
        Tag::Head => 1,
        Tag::Top => 2,
        Tag::Below => 3,
        Tag::Above => 4,
        Tag::Unordered => 5,
        Tag::Carried => 6,
    };
    let [blue, blue_low] = row.blue.get().to_be_bytes();
    let [red, red_low] = row.red.get().to_be_bytes();
    [blue, blue_low, red, red_low, tag]
}

/// The kind that a number spells.
fn kind_named(number: u8) -> Kind
    ensures { result ≡ kind_named number }
{
    if number == 1 {
        Kind::Router
    } else {
        Kind::Network
    }
}

/// The role that a number spells.
fn role_named(number: u8) -> Role
    ensures { result ≡ role_named number }
{
    match number {
        0 => Role::Plain,
        1 => Role::Sole,
        _ => Role::Closing,
    }
}

/// The tag that a number spells.
fn tag_named(number: u8) -> Tag
    ensures { result ≡ tag_named number }
{
    match number {
        0 => Tag::Sole,
        1 => Tag::Head,
        2 => Tag::Top,
        3 => Tag::Below,
        4 => Tag::Above,
        5 => Tag::Unordered,
        _ => Tag::Carried,
    }
}
