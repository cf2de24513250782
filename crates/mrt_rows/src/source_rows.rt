//! The rows of a graph from a root, source after source.

ghost use Rattle.std.specs.Prelude.{◌≡◌, ◌<◌, [], IfOk, length};
ghost use Rattle.mrt_graph.specs.{declared.cert.CertFile.CertFile, GraphInvariant.IsTopology};
ghost use Rattle.mrt_rows.specs.CertOf.{IsCertOf};
ghost use Rattle.mrt_rows.specs.RowMaker.{MakeRows};
ghost use Rattle.mrt_rows.specs.NearOf.{near_rows_of};

use crate::certificate::{all_links, all_nodes};
use crate::directed::{Rooted, directions};
use crate::of_source::RowMaker;
use crate::rows_law::columns_are_of_one_certificate;
use mrt_graph::{CertLink, CertNode, Directed, Graph, LinkNo, NoMemory, NodeNo, Row, Tag};
use std::alloc::Global;
use std::marker::Model;

/// So many sources are taken side by side.
const SOURCES: u16 = 64;

/// The rows of a graph from a root, source after source: the root, the directions, what makes rows, and room for one source's.
pub struct SourceRows {
    root: NodeNo,
    directed: Directed,
    maker: RowMaker,
    room: Vec<Row>,
    count: usize,
}

impl Drop for SourceRows {
    fn drop(self) {
        let Self {
            root: _,
            directed: _,
            maker: _,
            room: _,
            count: _,
        } = self;
    }
}

impl Model for SourceRows {
    ghost use Rattle.std.specs.Prelude.{◌≤◌, length, take};
    ghost use Rattle.mrt_rows.specs.RowsFound.{RowsFound};
    ghost use Rattle.mrt_rows.specs.steps.RowsFound.{rows_found};

    ghost Value = { RowsFound };

    ghost view = { λ rows. rows_found rows.root rows.directed rows.maker (length rows.room.items)
        (take rows.count rows.room.items) };

    ghost invariant = { λ rows. rows.count ≤ length rows.room.items };
}

impl SourceRows {
    /// What makes the rows of a graph from a root. There is a certificate of the two, though it is not made.
    ///
    /// It takes time and memory in proportion to the nodes and the links: for each node some 800 bytes.
    pub fn new(alloc: Global, g: &Graph, root: NodeNo) -> Result<SourceRows, NoMemory>
        requires { root < length g.now.ids }
        ensures root { IfOk result (λ rows. rows.root ≡ root) }
        ensures made { IfOk result (MakeRows g.now) }
        ensures rows { IfOk result (λ rows. rows.rows ≡ []) }
        ensures cert { IfOk result (λ _. (file : CertFile) × IsCertOf g.now root file) }
        ensures kept { IfOk result (λ _. IsTopology g.now) }
    {
        columns_are_of_one_certificate();
        let directed = directions(alloc, g, root)?;
        let rooted = Rooted {
            graph: g,
            root,
            directed: &directed,
        };
        let maker = RowMaker::new(alloc, &rooted, SOURCES)?;
        let link = LinkNo::new(0);
        let none_yet = Row {
            blue: link,
            red: link,
            tag: Tag::Carried,
        };
        let room = vec![in alloc; none_yet; g.node_count() as usize]?;
        Ok(SourceRows {
            root,
            directed,
            maker,
            room,
            count: 0,
        })
    }

    /// Finds the near rows of node s, those of the graph's certificate from the root that are not Carried, for `rows`.
    ///
    /// It takes time in proportion to the nodes. Where s is none of the 64 nodes for which it did so last, and lies in a
    /// block of more than one link, it takes time in proportion to the nodes, and to the ends of those in the blocks of
    /// the 64, times 64; these begin with a multiple of 64. It takes no memory.
    pub fn find(&mut self, g: &Graph, s: NodeNo)
        requires made { MakeRows g.now self.old }
        requires s { s < length g.now.ids }
        ensures root { self.new.root ≡ self.old.root }
        ensures made { MakeRows g.now self.new }
        ensures rows { (file : CertFile) → IsCertOf g.now self.old.root file
            → self.new.rows ≡ near_rows_of file.cert s }
    {
        let rooted = Rooted {
            graph: g,
            root: self.root,
            directed: &self.directed,
        };
        self.maker.open_for(&rooted, s);
        self.count = self.maker.put_near_rows(&rooted, s, &mut self.room);
    }

    /// The words of the graph's certificate on all nodes.
    pub fn nodes(&self, alloc: Global, g: &Graph) -> Result<Vec<CertNode>, NoMemory>
        requires { MakeRows g.now self.now }
        ensures { (file : CertFile) → IsCertOf g.now self.now.root file
            → IfOk result (λ nodes. nodes.items ≡ file.cert.nodes) }
    {
        let nodes = all_nodes(alloc, g, &self.directed)?;
        Ok(nodes)
    }

    /// Its words on all links.
    pub fn links(&self, alloc: Global, g: &Graph) -> Result<Vec<CertLink>, NoMemory>
        requires { MakeRows g.now self.now }
        ensures { (file : CertFile) → IsCertOf g.now self.now.root file
            → IfOk result (λ links. links.items ≡ file.cert.links) }
    {
        let links = all_links(alloc, g, &self.directed)?;
        Ok(links)
    }

    /// The rows that were found last.
    pub fn rows(&self) -> &[Row]
        ensures { result.now ≡ self.now.rows }
    {
        &self.room[..self.count]
    }
}
