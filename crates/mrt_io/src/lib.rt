//! What the program has to do with the outside: words, a shelf that it reads files from, and sinks that it writes to.
#![tactic(auto)]

mod call;
mod device;
mod file_shelf;
mod mem_shelf;
mod mem_sink;
mod piece;
mod put;
mod std_sink;
mod word;

pub use device::{OpenError, PutError, PutFailed, Shelf, ShelfError, ShelfFailed, Sink};
pub use file_shelf::FileShelf;
pub use mem_shelf::{MemShelf, copy_front};
pub use mem_sink::MemSink;
pub use piece::zeros;
pub use put::put_all;
pub use std_sink::StdSink;
pub use word::Word;
