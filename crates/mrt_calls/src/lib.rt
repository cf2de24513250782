//! The calls of the C library, over slices and structs with the layout of C.
#![tactic(auto)]

mod area;
mod calls_law;
mod certify;
mod check;
mod fault;
mod footing;
mod line;
mod proxy;
mod putting;
mod row;
mod row_for;
mod run;
mod shape;
mod table;

pub use area::MrtArea;
pub use calls_law::one_answer_each;
pub use certify::certify_area;
pub use check::{MrtVerdict, check_area};
pub use fault::MrtFault;
pub use line::line_of_fault;
pub use proxy::{MrtPair, MrtProxyRow, proxy_area};
pub use row::{MrtHop, MrtRow};
pub use row_for::row_for_area;
pub use run::run_over;
pub use shape::{MrtIsland, shape_area};
pub use table::table_area;
