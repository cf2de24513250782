//! The certificate of a graph and its root.

ghost use Rattle.std.specs.Prelude.{◌≡◌, ◌≢◌, ◌<◌, ◌-◌, ◌*◌, ℕ, IfOk, None, Some, length, slice_get};
ghost use Rattle.mrt_graph.specs.{declared.cert.Row.Row, declared.link.Link.Link, declared.node_id.NodeId.NodeId, Accepted.Accepted};
ghost use Rattle.mrt_graph.specs.GraphInvariant.{IsTopology};
ghost use Rattle.link_direction.specs.Directions.{Says};
ghost use Rattle.mrt_rows.specs.CertOf.{AreLinkWords, AreNodeWords, IsCertOf, file_of, link_words, node_words};
ghost use Rattle.mrt_rows.specs.steps.RowsOf.{AreAllRows, row_among};
ghost use Rattle.mrt_rows.specs.steps.ListedDirections.{IsRooted, directions_by};
ghost use Rattle.mrt_rows.specs.ListedDirections.{directions_of};

use crate::column::{Columns, WIDTH};
use crate::column_view::ColumnView;
use crate::directed::{Rooted, directions};
use mrt_graph::{
    Cert, CertLink, CertNode, Directed, Graph, LinkNo, NoMemory, NodeNo, Row, Tag, row_place,
};
use std::alloc::Global;

/// The certificate of a graph and its root: the directions, and the rows of all nodes.
///
/// It takes time in proportion to the links for the directions, and for each node to its rows and the ends of all nodes.
pub fn compute(alloc: Global, g: &Graph, root: NodeNo) -> Result<Cert, NoMemory>
    requires { root < length g.now.ids }
    ensures cert { IfOk result (λ cert. (id : NodeId) → slice_get g.now.ids root ≡ Some id
        → IsCertOf g.now root (file_of id cert)) }
    ensures accepted { IfOk result (λ cert. (id : NodeId) → slice_get g.now.ids root ≡ Some id
        → Accepted g.now root (file_of id cert)) }
    ensures counts { IfOk result (λ cert. (length cert.nodes ≡ length g.now.ids)
        × (length cert.links ≡ length g.now.links)) }
    ensures kept { IfOk result (λ _. IsTopology g.now) }
{
    let d = directions(alloc, g, root)?;
    let rooted = Rooted {
        graph: g,
        root,
        directed: &d,
    };
    let rows = all_rows(alloc, &rooted)?;
    let nodes = all_nodes(alloc, g, &d)?;
    let links = all_links(alloc, g, &d)?;
    Ok(Cert::new(nodes, links, rows))
}

/// The rows of all nodes, by ascending source, then by ascending destination: column after column.
fn all_rows(alloc: Global, rooted: &Rooted) -> Result<Vec<Row>, NoMemory>
    requires { IsRooted rooted.now }
    ensures { IfOk result (λ rows. AreAllRows rooted.now.graph.now rooted.now.root (directions_by rooted.now) rows.items) }
{
    let count = rooted.graph.node_count();
    let size = count as usize;
    let mut columns = Columns::new(alloc, rooted, WIDTH)?;
    let link = LinkNo::new(0);
    let none_yet = Row {
        blue: link,
        red: link,
        tag: Tag::Carried,
    };
    let mut rows = vec![in alloc; none_yet; size * (size - 1)]?;
    for n in 0..count {
        let to = NodeNo::new(n);
        let aimed = columns.aim(rooted, to, None);
        let column = ColumnView::new(rooted.graph, rooted.root, rooted.directed, &columns, aimed);
        put_column(count, to, &column, &mut rows);
    }
    Ok(rows)
}

/// Puts the rows of a column at their places.
fn put_column(count: u16, to: NodeNo, column: &ColumnView, rows: &mut [Row])
    requires to { to < count }
    requires one_each { length column.now ≡ count }
    requires none { slice_get column.now to ≡ Some None }
    requires room { length rows.old ≡ count * (count - 1) }
    ensures room { length rows.new ≡ length rows.old }
    ensures there { (s : ℕ) (row : Row) → s < count → s ≢ to → slice_get column.now s ≡ Some (Some row)
        → row_among count rows.new s to ≡ Some row }
    ensures elsewhere { (u v : ℕ) → v ≢ to → row_among count rows.new u v ≡ row_among count rows.old u v }
{
    for n in 0..count {
        let s = NodeNo::new(n);
        if let Some(row) = column.row(s) {
            rows[row_place(count as usize, s, to)] = row;
        }
    }
}

/// The words on all nodes.
pub fn all_nodes(alloc: Global, g: &Graph, d: &Directed) -> Result<Vec<CertNode>, NoMemory>
    requires { Says g.now d.now (directions_of g.now d.now) }
    ensures { IfOk result (λ nodes. AreNodeWords g.now (directions_of g.now d.now) nodes.items) }
{
    let count = g.node_count();
    let mut nodes = Vec::with_capacity(alloc, count as usize)?;
    for n in 0..count {
        nodes.push_reserved(node_words(g, d, NodeNo::new(n)));
    }
    Ok(nodes)
}

/// The words on all links.
pub fn all_links(alloc: Global, g: &Graph, d: &Directed) -> Result<Vec<CertLink>, NoMemory>
    requires { Says g.now d.now (directions_of g.now d.now) }
    ensures { IfOk result (λ links. AreLinkWords g.now (directions_of g.now d.now) links.items) }
{
    let count = g.link_count();
    let mut links = Vec::with_capacity(alloc, count as usize)?;
    for e in 0..count {
        links.push_reserved(link_words(g, d, LinkNo::new(e)));
    }
    Ok(links)
}

fn node_words(g: &Graph, d: &Directed, n: NodeNo) -> CertNode
    requires says { Says g.now d.now (directions_of g.now d.now) }
    requires within { n < length g.now.ids }
    ensures { (id : NodeId) → slice_get g.now.ids n ≡ Some id → result ≡ node_words (directions_of g.now d.now) n id }
{
    let place = d.place(n);
    CertNode {
        id: g.id(n),
        order: d.order(n),
        head: place.head,
        block: place.block,
    }
}

fn link_words(g: &Graph, d: &Directed, e: LinkNo) -> CertLink
    requires says { Says g.now d.now (directions_of g.now d.now) }
    requires within { e < length g.now.links }
    ensures { (link : Link) → slice_get g.now.links e ≡ Some link → result ≡ link_words (directions_of g.now d.now) e link }
{
    let link = g.link(e);
    let mark = d.mark(e);
    CertLink {
        a: link.a,
        b: link.b,
        block: mark.block,
        role: mark.role,
    }
}
