//! Rows, wherever they stand: in a certificate, or in a column.

ghost use Rattle.std.specs.Prelude.{◌≡◌, Some, IsSome};
ghost use Rattle.mrt_graph.specs.Rows.{Rows};

use crate::cert::{Cert, Row};
use crate::column::Column;
use crate::numbers::NodeNo;

/// What rows are read from.
pub trait RowsOf {
    // The rows that stand there.
    ghost rows: { Self → Rows };

    /// The row of `s` for `t`.
    fn row_for(&self, s: NodeNo, t: NodeNo) -> Row
        requires { IsSome (rows self.now s t) }
        ensures { rows self.now s t ≡ Some result };
}

impl RowsOf for Cert {
    ghost use Rattle.mrt_graph.specs.Certificate.{row_of};

    ghost rows = { λ cert. row_of cert };

    fn row_for(&self, s: NodeNo, t: NodeNo) -> Row {
        self.row(s, t)
    }
}

impl RowsOf for Column {
    ghost use Rattle.mrt_graph.specs.Column.{rows_of_column};

    ghost rows = { λ column. rows_of_column column };

    fn row_for(&self, s: NodeNo, _: NodeNo) -> Row {
        match self.row(s) {
            Some(row) => row,
            None => unreachable!(),
        }
    }
}
