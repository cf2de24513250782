//! Devices over memory that the caller lends: a shelf of files, a sink that fills a buffer, and one that counts.
#![tactic(auto)]

mod count_sink;
mod lent_shelf;
mod lent_sink;
mod mrt_file;

pub use count_sink::CountSink;
pub use lent_shelf::LentShelf;
pub use lent_sink::LentSink;
pub use mrt_file::{MrtBytes, MrtFile};
