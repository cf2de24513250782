//! The certificates of two graphs compared, the rows of which are found as they are compared.

ghost use Rattle.std.specs.Prelude.{◌≡◌, ◌<◌, ◌↔◌, IsTrue, length, slice_get};
ghost use Rattle.mrt_graph.specs.declared.cert.CertFile.{CertFile};
ghost use Rattle.mrt_rows.specs.{CertOf.IsCertOf, RowMaker.MakeRows, NearOf.near_rows_of};
ghost use Rattle.cert_stream.specs.steps.Stream.{HaveSameRows};

use mrt_graph::{CertLink, CertNode, End, Graph, LinkNo, NodeNo, Row};
use mrt_rows::SourceRows;

/// Whether two graphs are the same: their identifiers, their links, and each node's interfaces. It stops at the first
/// difference.
/// It takes time in proportion to the nodes and the links.
pub fn are_graphs_same(g: &Graph, other: &Graph) -> bool
    ensures { IsTrue result → g.now ≡ other.now }
{
    if g.node_count() != other.node_count() || g.link_count() != other.link_count() {
        return false;
    }
    has_same_links(g, other) && has_same_nodes(g, other)
}

/// Whether two graphs with as many links have the same ones.
fn has_same_links(g: &Graph, other: &Graph) -> bool
    requires { length g.now.links ≡ length other.now.links }
    ensures { IsTrue result → g.now.links ≡ other.now.links }
{
    for e in 0..g.link_count() {
        let link = LinkNo::new(e);
        if g.link(link) != other.link(link) {
            return false;
        }
    }
    true
}

/// Whether two graphs with as many nodes have the same identifiers and interfaces.
fn has_same_nodes(g: &Graph, other: &Graph) -> bool
    requires { length g.now.ids ≡ length other.now.ids }
    ensures ids { IsTrue result → g.now.ids ≡ other.now.ids }
    ensures ends { IsTrue result → g.now.ends ≡ other.now.ends }
{
    // what each graph keeps is told by reading it
    let _count = other.node_count();
    for n in 0..g.node_count() {
        if !is_same_node(g, other, NodeNo::new(n)) {
            return false;
        }
    }
    true
}

/// Whether node n has the same identifier and interfaces in both graphs.
fn is_same_node(g: &Graph, other: &Graph, n: NodeNo) -> bool
    requires n { n < length g.now.ids }
    requires other_n { n < length other.now.ids }
    ensures id { IsTrue result → slice_get g.now.ids n ≡ slice_get other.now.ids n }
    ensures ends { IsTrue result → slice_get g.now.ends n ≡ slice_get other.now.ends n }
{
    if g.id(n) != other.id(n) {
        return false;
    }
    are_ends_same(g.ends(n), other.ends(n))
}

fn are_ends_same(ends: &[End], others: &[End]) -> bool
    ensures { IsTrue result ↔ (ends.now ≡ others.now) }
{
    ends == others
}

/// Whether these are the same nodes.
pub fn are_nodes_same(nodes: &[CertNode], others: &[CertNode]) -> bool
    ensures { IsTrue result ↔ (nodes.now ≡ others.now) }
{
    nodes == others
}

/// Whether these are the same links.
pub fn are_links_same(links: &[CertLink], others: &[CertLink]) -> bool
    ensures { IsTrue result ↔ (links.now ≡ others.now) }
{
    links == others
}

/// Whether each node has the same near rows in the certificate of a graph as in that of another graph, which has as
/// many nodes. It stops at the first node that has not: those of a node are found and compared before those of the next
/// one.
/// It takes time for each node in proportion to the nodes and the ends of all nodes of both graphs.
pub fn are_rows_same(
    g: &Graph,
    rows: &mut SourceRows,
    other: &Graph,
    others: &mut SourceRows,
) -> bool
    requires made { MakeRows g.now rows.old }
    requires others_made { MakeRows other.now others.old }
    requires count { length g.now.ids ≡ length other.now.ids }
    ensures root { rows.new.root ≡ rows.old.root }
    ensures others_root { others.new.root ≡ others.old.root }
    ensures made { MakeRows g.now rows.new }
    ensures others_made { MakeRows other.now others.new }
    ensures same { (file second : CertFile) → IsCertOf g.now rows.old.root file
        → IsCertOf other.now others.old.root second
        → (IsTrue result ↔ HaveSameRows (length g.now.ids) file.cert second.cert) }
{
    for s in 0..g.node_count() {
        if !has_same_rows(g, rows, other, others, NodeNo::new(s)) {
            return false;
        }
    }
    true
}

/// Whether node s has the same near rows in both certificates.
fn has_same_rows(
    g: &Graph,
    rows: &mut SourceRows,
    other: &Graph,
    others: &mut SourceRows,
    s: NodeNo,
) -> bool
    requires made { MakeRows g.now rows.old }
    requires others_made { MakeRows other.now others.old }
    requires s { s < length g.now.ids }
    requires other_s { s < length other.now.ids }
    ensures root { rows.new.root ≡ rows.old.root }
    ensures others_root { others.new.root ≡ others.old.root }
    ensures made { MakeRows g.now rows.new }
    ensures others_made { MakeRows other.now others.new }
    ensures same { (file second : CertFile) → IsCertOf g.now rows.old.root file
        → IsCertOf other.now others.old.root second
        → (IsTrue result ↔ (near_rows_of file.cert s ≡ near_rows_of second.cert s)) }
{
    rows.find(g, s);
    others.find(other, s);
    are_same(rows.rows(), others.rows())
}

fn are_same(rows: &[Row], others: &[Row]) -> bool
    ensures { IsTrue result ↔ (rows.now ≡ others.now) }
{
    rows == others
}
