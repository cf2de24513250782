//! What the programs of rows have in common: a row, and the page on which its answer is put.
#![tactic(auto)]

mod page;
mod row;

pub use page::Page;
pub use row::{cut, is_row, put_answer};
