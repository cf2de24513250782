//! What a router installs: the rows of its table, and the text that the program writes of them.
#![tactic(auto)]

mod cells;
mod destination_row;
mod elements;
mod line;
mod line_law;
mod parts;
mod primaries;
mod repairs;
mod row;
mod table;
mod table_law;
mod uses;

pub use destination_row::link_hop;
pub use line::push_row;
pub use line_law::{lines_by_the_rows_for_one_destination, one_line_each};
pub use primaries::primary_for;
pub use row::{ArcRepairs, HopTo, TableRow};
pub use table::{table_head, table_line, table_row};
pub use table_law::{lines_make_the_table, one_row_each, one_table_each};
