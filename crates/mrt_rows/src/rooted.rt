//! The columns of a graph from a root.

ghost use Rattle.std.specs.Prelude.{◌≡◌, ◌<◌, ℕ, IfOk, IfSome, length};
ghost use Rattle.mrt_graph.specs.{declared.cert.CertFile.CertFile, Column.ColumnSound, GraphInvariant.IsTopology};
ghost use Rattle.mrt_rows.specs.{CertOf.IsCertOf, ColumnOf.HasRowsFor, Rooted.AreAimedAt, Rooted.MakeColumns, RowsTo.AreRowsTo};

use crate::certificate::{all_links, all_nodes};
use crate::column::{Columns, Target, WIDTH};
use crate::column_view::ColumnView;
use crate::directed::{Rooted, directions};
use crate::rows_law::{columns_are_of_one_certificate, columns_are_sound, one_certificate};
use mrt_graph::{CertLink, CertNode, Column, Directed, Graph, NoMemory, NodeNo, Row, RowsOf};
use std::alloc::Global;
use std::marker::Model;

/// What makes the columns of a graph: its root, the directions from it, what all columns have in common, and what is aimed at.
pub struct RootedColumns {
    root: NodeNo,
    directed: Directed,
    columns: Columns,
    to: Target,
}

impl Drop for RootedColumns {
    fn drop(self) {
        let Self {
            root: _,
            directed: _,
            columns: _,
            to: _,
        } = self;
    }
}

impl Model for RootedColumns {
    ghost use Rattle.mrt_rows.specs.RootedParts.{RootedParts};
    ghost use Rattle.mrt_rows.specs.steps.RootedParts.{rooted_parts};

    ghost Value = { RootedParts };

    ghost view = { λ rooted. rooted_parts rooted.root rooted.directed rooted.columns rooted.to };
}

impl RootedColumns {
    /// What makes the columns of a graph from a root, for so many destinations, wherever they lie; so many, at most 64, are taken
    /// side by side. There is a certificate of the graph and the root, though it is not made.
    ///
    /// It takes time and memory in proportion to the nodes times as many as are side by side, and time to the links.
    pub fn for_some(
        alloc: Global,
        g: &Graph,
        root: NodeNo,
        destinations: usize,
    ) -> Result<RootedColumns, NoMemory>
        requires { root < length g.now.ids }
        ensures root { IfOk result (λ rooted. rooted.root ≡ root) }
        ensures made { IfOk result (MakeColumns g.now) }
        ensures cert { IfOk result (λ _. (file : CertFile) × IsCertOf g.now root file) }
        ensures kept { IfOk result (λ _. IsTopology g.now) }
    {
        columns_are_of_one_certificate();
        let width = destinations.max(1).min(WIDTH as usize) as u16;
        let directed = directions(alloc, g, root)?;
        let rooted = Rooted {
            graph: g,
            root,
            directed: &directed,
        };
        let columns = Columns::new(alloc, &rooted, width)?;
        // nothing is aimed at yet
        let to = Target { node: root, at: 0 };
        Ok(RootedColumns {
            root,
            directed,
            columns,
            to,
        })
    }

    /// Aims at `to`, for its column.
    ///
    /// It takes time in proportion to the nodes. Where there is no place for `to`, it is aimed at and the next nodes by number, as
    /// many as are side by side, in time in proportion to the nodes times these, and to the links, times these in the blocks that
    /// do not aim at one node for all. It takes no memory.
    pub fn aim(&mut self, g: &Graph, to: NodeNo)
        requires made { MakeColumns g.now self.old }
        requires to { to < length g.now.ids }
        ensures root { self.new.root ≡ self.old.root }
        ensures aimed { AreAimedAt g.now to self.new }
    {
        self.aim_among(g, to, None);
    }

    /// The same; the next nodes are the marked ones, if there are marks.
    fn aim_among(&mut self, g: &Graph, to: NodeNo, marks: Option<&[bool]>)
        requires made { MakeColumns g.now self.old }
        requires to { to < length g.now.ids }
        requires marks { IfSome marks (λ marks. length marks.now ≡ length g.now.ids) }
        ensures root { self.new.root ≡ self.old.root }
        ensures aimed { AreAimedAt g.now to self.new }
    {
        let rooted = Rooted {
            graph: g,
            root: self.root,
            directed: &self.directed,
        };
        self.to = self.columns.aim(&rooted, to, marks);
    }

    /// The column of the node that is aimed at: the rows of all nodes for it, which are those of the graph's certificate
    /// from the root. Each is made when it is asked for.
    pub fn column<'a>(&'a self, g: &'a Graph) -> ColumnView<'a>
        requires { (to : ℕ) × AreAimedAt g.now to self.now }
        ensures rows { (to : ℕ) (file : CertFile) → AreAimedAt g.now to self.now → IsCertOf g.now self.now.root file
            → HasRowsFor file.cert to result }
        ensures sound { (to : ℕ) → AreAimedAt g.now to self.now
            → ColumnSound g.now.links (length g.now.ids) result to }
    {
        columns_are_of_one_certificate();
        one_certificate();
        columns_are_sound();
        ColumnView::new(g, self.root, &self.directed, &self.columns, self.to)
    }

    /// The rows of all nodes for the marked ones: a column for each.
    ///
    /// They are taken side by side, as many as there are places for, wherever they lie. It takes the time of `aim`, and in
    /// proportion to the nodes, for each, and memory for their columns.
    ///
    /// # Errors
    ///
    /// [`NoMemory`] where there was none for them. Then this makes the columns of the graph from its root all the same.
    pub fn rows_to(&mut self, alloc: Global, g: &Graph, wanted: &[bool]) -> Result<RowsTo, NoMemory>
        requires made { MakeColumns g.now self.old }
        requires one_each { length wanted.now ≡ length g.now.ids }
        ensures root { self.new.root ≡ self.old.root }
        ensures made { MakeColumns g.now self.new }
        ensures rows { (file : CertFile) → IsCertOf g.now self.old.root file
            → IfOk result (AreRowsTo wanted.now file) }
    {
        let count = g.node_count();
        let mut places = Vec::with_capacity(alloc, count as usize)?;
        let mut columns = Vec::new(alloc);
        for n in 0..count {
            if wanted[n as usize] {
                places.push_reserved(Some(columns.len() as u16));
                self.aim_among(g, NodeNo::new(n), Some(wanted));
                let column = self.column(g).held(alloc)?;
                columns.push(column)?;
            } else {
                places.push_reserved(None);
            }
        }
        Ok(RowsTo { places, columns })
    }

    /// The words of the graph's certificate on all nodes.
    pub fn nodes(&self, alloc: Global, g: &Graph) -> Result<Vec<CertNode>, NoMemory>
        requires { MakeColumns g.now self.now }
        ensures { (file : CertFile) → IsCertOf g.now self.now.root file
            → IfOk result (λ nodes. nodes.items ≡ file.cert.nodes) }
    {
        let nodes = all_nodes(alloc, g, &self.directed)?;
        Ok(nodes)
    }

    /// Its words on all links.
    pub fn links(&self, alloc: Global, g: &Graph) -> Result<Vec<CertLink>, NoMemory>
        requires { MakeColumns g.now self.now }
        ensures { (file : CertFile) → IsCertOf g.now self.now.root file
            → IfOk result (λ links. links.items ≡ file.cert.links) }
    {
        let links = all_links(alloc, g, &self.directed)?;
        Ok(links)
    }
}

/// The rows of all nodes for some destinations: a column for each of these.
#[derive(Drop)]
pub struct RowsTo {
    /// Of each node the place of its column, if it is one of the destinations.
    places: Vec<Option<u16>>,
    columns: Vec<Column>,
}

impl Model for RowsTo {
    ghost use Rattle.mrt_rows.specs.RowsTo.{ColumnsHeld};

    ghost Value = { ColumnsHeld };

    ghost view = { λ r. record { places = r.places.items; columns = r.columns.items } };
}

impl RowsOf for RowsTo {
    ghost use Rattle.mrt_rows.specs.RowsTo.{rows_in};

    ghost rows = { λ held. rows_in held };

    fn row_for(&self, s: NodeNo, t: NodeNo) -> Row {
        let Some(place) = self.places[t.get() as usize] else {
            unreachable!()
        };
        match self.columns[place as usize].row(s) {
            Some(row) => row,
            None => unreachable!(),
        }
    }
}
