//! The rows of all nodes for one destination, made when they are asked for.

ghost use Rattle.std.specs.Prelude.{◌≡◌, ◌<◌, IfOk, Some, length, slice_get};
ghost use Rattle.mrt_graph.specs.Column.{ColumnSound};
ghost use Rattle.link_direction.specs.{Directions.Directions, Directions.Says, OrderedGadag.SaysOrdered};
ghost use Rattle.mrt_rows.specs.ColumnOf.{IsColumnOf};
ghost use Rattle.mrt_rows.specs.AimedColumns.{AreAimed};
ghost use Rattle.mrt_rows.specs.steps.TheColumn.{TheColumn, no_choice};
ghost use Rattle.mrt_rows.specs.ListedDirections.{directions_of};
ghost use Rattle.mrt_rows.specs.steps.ListedDirections.{directions_by};

use crate::column::{Columns, Target};
use crate::directed::Rooted;
use crate::rows_law::columns_are_sound;
use mrt_graph::{Column, Directed, Graph, NoMemory, NodeNo, Row, RowsOf};
use std::alloc::Global;
use std::marker::Model;

/// The rows of all nodes for one destination, each of which is made when it is asked for: the graph with its root and its
/// directions, and what its columns have in common, which is aimed at the destination.
#[derive(Drop)]
pub struct ColumnView<'a> {
    rooted: Rooted<'a>,
    columns: &'a Columns,
    to: Target,
    ghost column: { TheColumn rooted.graph.now rooted.root (directions_by rooted) to.node } by { no_choice rooted.graph.now rooted.root (directions_by rooted) to.node },
}

impl<'a> Model for ColumnView<'a> {
    ghost use Rattle.std.specs.Prelude.{List, Option};
    ghost use Rattle.mrt_graph.specs.declared.cert.Row.{Row};
    ghost use Rattle.mrt_rows.specs.AimedColumns.{AreAimed};

    ghost Value = { List (Option Row) };

    ghost view = { λ v. v.column.0 };

    ghost invariant = { λ v. AreAimed v.rooted.graph.now v.rooted.root v.rooted.directed.now v.columns.now v.to };
}

impl<'a> ColumnView<'a> {
    /// The column of the destination that is aimed at.
    pub(crate) fn new(
        graph: &'a Graph,
        root: NodeNo,
        directed: &'a Directed,
        columns: &'a Columns,
        to: Target,
    ) -> ColumnView<'a>
        requires { AreAimed graph.now root directed.now columns.now to }
        ensures { IsColumnOf graph.now root (directions_of graph.now directed.now) to.node result }
    {
        ColumnView {
            rooted: Rooted {
                graph,
                root,
                directed,
            },
            columns,
            to,
        }
    }

    /// The row of `s`; none where `s` is the destination.
    ///
    /// It takes the same time for each node.
    pub fn row(&self, s: NodeNo) -> Option<Row>
        requires { s < length self.now }
        ensures { slice_get self.now s ≡ Some result }
    {
        if s == self.to.node {
            return None;
        }
        self.columns.row(&self.rooted, s, self.to)
    }

    /// The column with its rows made.
    ///
    /// It takes time and memory in proportion to the nodes.
    pub fn held(&self, alloc: Global) -> Result<Column, NoMemory>
        ensures { IfOk result (λ column. column ≡ self.now) }
    {
        let count = self.rooted.graph.node_count();
        let mut rows = Vec::with_capacity(alloc, count as usize)?;
        for n in 0..count {
            rows.push_reserved(self.row(NodeNo::new(n)));
        }
        Ok(Column::new(rows))
    }
}

impl<'a> RowsOf for ColumnView<'a> {
    ghost use Rattle.mrt_graph.specs.Column.{rows_of_column};

    ghost rows = { λ column. rows_of_column column };

    fn row_for(&self, s: NodeNo, _: NodeNo) -> Row {
        match self.row(s) {
            Some(row) => row,
            None => unreachable!(),
        }
    }
}

/// The rows of all nodes for `to`.
///
/// For callers of these crates (docs/LIBRARY.md) and tests; forms make [`RootedColumns`](crate::RootedColumns).
///
/// For those of several destinations make [`RootedColumns`](crate::RootedColumns) once.
pub fn column_of(
    alloc: Global,
    g: &Graph,
    root: NodeNo,
    d: &Directed,
    to: NodeNo,
) -> Result<Column, NoMemory>
    requires directed { SaysOrdered g.now root d.now }
    requires to { to < length g.now.ids }
    ensures rows { (w : Directions) → Says g.now d.now w
        → IfOk result (λ column. IsColumnOf g.now root w to column) }
    ensures sound { IfOk result (λ column. ColumnSound g.now.links (length g.now.ids) column to) }
{
    columns_are_sound();
    // what each graph keeps is told by reading it
    let _count = g.node_count();
    let rooted = Rooted {
        graph: g,
        root,
        directed: d,
    };
    let mut columns = Columns::new(alloc, &rooted, 1)?;
    let aimed = columns.aim(&rooted, to, None);
    let column = ColumnView::new(g, root, d, &columns, aimed).held(alloc)?;
    Ok(column)
}
