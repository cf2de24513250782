//! The rows of all nodes for one destination.

use crate::cert::Row;
use crate::numbers::NodeNo;
use std::marker::Model;

/// The rows of all nodes for one destination, by source; at the destination itself there is none.
#[derive(Drop)]
pub struct Column {
    rows: Vec<Option<Row>>,
}

impl Model for Column {
    ghost use Rattle.std.specs.Prelude.{List, Option};
    ghost use Rattle.mrt_graph.specs.{declared.cert.Row.Row, Column.IsColumn};

    ghost Value = { List (Option Row) };

    ghost view = { λ column. column.rows.items };

    ghost invariant = { λ column. IsColumn column.rows.items };
}

impl Column {
    ghost use Rattle.std.specs.Prelude.{◌≡◌, ◌<◌, Some, length, slice_get};
    ghost use Rattle.mrt_graph.specs.Column.{IsColumn};

    /// A column of these rows: one for each node but the destination.
    pub fn new(rows: Vec<Option<Row>>) -> Column
        requires { IsColumn rows.items }
        ensures { result ≡ rows.items }
    {
        Column { rows }
    }

    /// The row of `s`; none where `s` is the destination.
    pub fn row(&self, s: NodeNo) -> Option<Row>
        requires { s < length self.now }
        ensures value { slice_get self.now s ≡ Some result }
        ensures kept { IsColumn self.now }
    {
        self.rows[s.get() as usize]
    }
}
