//! Certificates: what fixes every row of an island, and what a checker reads.

ghost use Rattle.std.specs.Prelude.{◌≡◌, ◌≢◌, ◌<◌, ◌≤◌, ◌+◌, ◌-◌, ◌*◌, nat_lt, if◌then◌else◌};
ghost use Rattle.mrt_graph.specs.RowPlace.{place_of_row};

use crate::gadag::Place;
use crate::node_id::NodeId;
use crate::node_rows::NodeRows;
use crate::numbers::{LinkNo, NodeNo};
use crate::relatives::Relatives;
use crate::unfolded::unfolded_row;
use std::marker::Model;

/// One of the two Maximally Redundant Trees (RFC 7812, section 3).
#[derive(Clone, Copy, PartialEq, Eq)]
pub enum Color {
    Blue,
    Red,
}

/// What a link is to its block: the block's one link, its closing link, or neither.
#[derive(Clone, Copy, PartialEq, Eq)]
pub enum Role {
    Plain,
    Sole,
    Closing,
}

/// How a row's two links were chosen, as the fourteen rules tell.
#[derive(Clone, Copy, PartialEq, Eq)]
pub enum Tag {
    Sole,
    Head,
    Top,
    Below,
    Above,
    Unordered,
    Carried,
}

/// What a node does with a packet for one destination: the link of each color, and how they were chosen.
#[derive(Clone, Copy, PartialEq, Eq)]
pub struct Row {
    pub blue: LinkNo,
    pub red: LinkNo,
    pub tag: Tag,
}

impl Row {
    ghost use Rattle.std.specs.Prelude.{◌≡◌};
    ghost use Rattle.mrt_graph.specs.Tags.{carried, is_near};

    /// Whether it is not carried.
    pub fn is_near(&self) -> bool
        ensures { result ≡ is_near self.now }
    {
        !matches!(self.tag, Tag::Carried)
    }

    /// The row with the same links, carried.
    pub fn carried(&self) -> Row
        ensures { result ≡ carried self.now }
    {
        Row {
            blue: self.blue,
            red: self.red,
            tag: Tag::Carried,
        }
    }
}

// As many bytes as in a file.
const _: () = prove!(size_of::<Row>() == 5);

/// A certificate's words on one node.
#[derive(Clone, Copy, PartialEq, Eq)]
pub struct CertNode {
    pub id: NodeId,
    pub order: u16,
    pub head: NodeNo,
    pub block: NodeNo,
}

impl CertNode {
    ghost use Rattle.std.specs.Prelude.{◌≡◌};

    /// Its head and its block.
    pub fn place(&self) -> Place
        ensures { result ≡ record { head = self.now.head; block = self.now.block } }
    {
        Place {
            head: self.head,
            block: self.block,
        }
    }
}

/// A certificate's words on one link.
#[derive(Clone, Copy, PartialEq, Eq)]
pub struct CertLink {
    pub a: NodeNo,
    pub b: NodeNo,
    pub block: NodeNo,
    pub role: Role,
}

/// The nodes, links and rows of an island, each by number; of n nodes it has n times (n - 1) rows.
///
/// It holds all rows, or those of related nodes with an index, from which the others follow. They stand by ascending
/// source, then by ascending destination, the source left out.
pub struct Cert {
    nodes: Vec<CertNode>,
    links: Vec<CertLink>,
    rows: Vec<Row>,
    relatives: Option<Relatives>,
}

impl Drop for Cert {
    fn drop(self) {
        let Self {
            nodes: _,
            links: _,
            rows: _,
            relatives: _,
        } = self;
    }
}

impl Model for Cert {
    ghost use Rattle.mrt_graph.specs.Certificate.{Certificate};
    ghost use Rattle.mrt_graph.specs.steps.FoldedRows.{IsHeld, held};

    ghost Value = { Certificate };

    ghost view = { λ c. held c.nodes.items c.links.items c.rows.items c.relatives };

    ghost invariant = { λ c. IsHeld c.nodes.items c.links.items c.rows.items c.relatives };
}

/// A certificate with the version of its file, 1 or 2, and the router ID of its root.
#[derive(Drop)]
pub struct CertFile {
    pub version: u16,
    pub root: u32,
    pub cert: Cert,
}

impl Cert {
    ghost use Rattle.std.specs.Prelude.{◌≡◌, ◌≢◌, ◌<◌, IfSome, Some, filter, length, slice_get};
    ghost use Rattle.std.specs.List.{AllByRecursion};
    ghost use Rattle.mrt_graph.specs.Certificate.{IsCertificate, IsCertNode, IsCertLink, IsCertRow, certificate_of, row_of};
    ghost use Rattle.mrt_graph.specs.{Foldable.IsFoldable, FoldedRows.IsFolded, Kin.kin_of, Tags.is_near};

    /// A certificate of these nodes, links and rows.
    pub fn new(nodes: Vec<CertNode>, links: Vec<CertLink>, rows: Vec<Row>) -> Cert
        requires { IsCertificate (certificate_of nodes.items links.items rows.items) }
        ensures { result ≡ certificate_of nodes.items links.items rows.items }
    {
        Cert {
            nodes,
            links,
            rows,
            relatives: None,
        }
    }

    /// A certificate of these nodes and links, and of these rows of related nodes, from which the others follow. It takes no
    /// memory.
    pub fn folded(
        nodes: Vec<CertNode>,
        links: Vec<CertLink>,
        near: Vec<Row>,
        relatives: Relatives,
    ) -> Cert
        requires rows { IsFolded nodes.items links.items near.items }
        requires index { relatives ≡ kin_of nodes.items }
        ensures nodes { result.nodes ≡ nodes.items }
        ensures links { result.links ≡ links.items }
        ensures near { filter is_near result.rows ≡ near.items }
        ensures foldable { IsFoldable result }
        ensures kept { IsCertificate result }
    {
        let count = nodes.len();
        if near.len() == count * (count - 1) {
            // All nodes are related, so these are all rows, and their places need no index.
            return Cert {
                nodes,
                links,
                rows: near,
                relatives: None,
            };
        }
        Cert {
            nodes,
            links,
            rows: near,
            relatives: Some(relatives),
        }
    }

    /// How many nodes it has.
    pub fn node_count(&self) -> u16
        ensures count { result ≡ length self.now.nodes }
        ensures kept { IsCertificate self.now }
    {
        self.nodes.len() as u16
    }

    /// How many links it has.
    pub fn link_count(&self) -> u16
        ensures count { result ≡ length self.now.links }
        ensures kept { IsCertificate self.now }
    {
        self.links.len() as u16
    }

    /// The nodes, by number.
    pub fn nodes(&self) -> &[CertNode]
        ensures value { result.now ≡ self.now.nodes }
        ensures kept { AllByRecursion (IsCertNode (length self.now.nodes)) result.now }
    {
        &self.nodes
    }

    /// The links, by number.
    pub fn links(&self) -> &[CertLink]
        ensures { result.now ≡ self.now.links }
    {
        &self.links
    }

    /// The rows that it holds, all or those of related nodes, by ascending source, then by ascending destination, the source
    /// left out.
    pub fn held_rows(&self) -> &[Row]
        ensures near { filter is_near result.now ≡ filter is_near self.now.rows }
    {
        &self.rows
    }

    /// How many rows it has.
    pub fn row_count(&self) -> usize
        ensures { result ≡ length self.now.rows }
    {
        self.nodes.len() * (self.nodes.len() - 1)
    }

    /// The row at a place among all rows.
    pub fn row_at(&self, place: usize) -> Row
        requires { place < length self.now.rows }
        ensures { slice_get self.now.rows place ≡ Some result }
    {
        match &self.relatives {
            None => self.rows[place],
            Some(_) => self.row_in(place),
        }
    }

    /// The same, by its two nodes.
    fn row_in(&self, place: usize) -> Row
        requires { place < length self.now.rows }
        ensures { slice_get self.now.rows place ≡ Some result }
    {
        let others = self.nodes.len() - 1;
        let s = place / others;
        self.row(
            NodeNo::new(s as u16),
            NodeNo::new(other_node(s, place % others) as u16),
        )
    }

    /// The index of its nodes' relatives, where it holds the rows of related nodes alone.
    pub fn relatives(&self) -> Option<&Relatives>
        ensures index { IfSome result (λ relatives. relatives.now ≡ kin_of self.now.nodes) }
        ensures foldable { IfSome result (λ _. IsFoldable self.now) }
    {
        match &self.relatives {
            None => None,
            Some(relatives) => Some(relatives),
        }
    }

    /// What it says of a node.
    pub fn node(&self, n: NodeNo) -> CertNode
        requires { n < length self.now.nodes }
        ensures value { slice_get self.now.nodes n ≡ Some result }
        ensures within { IsCertNode (length self.now.nodes) result }
    {
        self.nodes[n.get() as usize]
    }

    /// What it says of a link.
    pub fn link(&self, e: LinkNo) -> CertLink
        requires { e < length self.now.links }
        ensures value { slice_get self.now.links e ≡ Some result }
        ensures within { IsCertLink (length self.now.nodes) result }
    {
        self.links[e.get() as usize]
    }

    /// The rows of `s`.
    pub fn rows_of(&self, s: NodeNo) -> NodeRows<'_>
        requires { s < length self.now.nodes }
        ensures { result ≡ record { cert = self.now; node = s } }
    {
        match &self.relatives {
            None => NodeRows::new(self, &self.rows, None, s),
            Some(relatives) => NodeRows::new(self, &self.rows, Some(relatives), s),
        }
    }

    /// The row of `s` for `t`.
    #[inline(always)]
    pub fn row(&self, s: NodeNo, t: NodeNo) -> Row
        requires source { s < length self.now.nodes }
        requires target { t < length self.now.nodes }
        requires different { s ≢ t }
        ensures value { row_of self.now s t ≡ Some result }
        ensures within { IsCertRow (length self.now.links) result }
    {
        match &self.relatives {
            None => self.rows[row_place(self.nodes.len(), s, t)],
            Some(relatives) => unfolded_row(relatives, &self.nodes, &self.rows, s, t),
        }
    }
}

/// Where the row of `s` for `t` stands among the rows of that many nodes: by ascending source, then by ascending
/// destination, the source left out.
pub fn row_place(count: usize, s: NodeNo, t: NodeNo) -> usize
    requires count { count ≤ 65535 }
    requires source { s < count }
    requires target { t < count }
    requires different { s ≢ t }
    ensures place { result ≡ place_of_row count s t }
    ensures within { result < count * (count - 1) }
{
    first_row(count, s) + column(s, t)
}

/// Where the rows of `s` begin among those of that many nodes.
pub(crate) fn first_row(count: usize, s: NodeNo) -> usize
    requires count { count ≤ 65535 }
    requires source { s < count }
    ensures { result ≡ s * (count - 1) }
{
    s.get() as usize * (count - 1)
}

/// The column of `t` among all nodes but `s`.
pub(crate) fn column(s: NodeNo, t: NodeNo) -> usize
    requires { s ≢ t }
    ensures { result ≡ (if nat_lt t s then t else t - 1) }
{
    let column = if t < s { t.get() } else { t.get() - 1 };
    column as usize
}

/// The node in a column among all nodes but `s`.
fn other_node(s: usize, column: usize) -> usize
    requires { column < 65535 }
    ensures { result ≡ (if nat_lt column s then column else column + 1) }
{
    if column < s {
        return column;
    }
    column + 1
}
