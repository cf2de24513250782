//! The rows of every node for every other node (RFC 7811, section 5.7), and certificates made of them.
#![tactic(auto)]

mod certificate;
mod column;
mod column_view;
mod common;
mod directed;
mod of_source;
mod rooted;
mod row_over;
mod rows_law;
mod source_rows;
mod tiles;

pub use certificate::compute;
pub use column_view::{ColumnView, column_of};
pub use directed::directions;
pub use of_source::rows_of;
pub use rooted::{RootedColumns, RowsTo};
pub use rows_law::{
    certificates_are_accepted, columns_are_of_one_certificate, columns_are_sound,
    near_rows_are_those_of_each_node, one_certificate, one_column_for_each, one_row_for_each,
    tabled_certificates_are_accepted,
};
pub use source_rows::SourceRows;
