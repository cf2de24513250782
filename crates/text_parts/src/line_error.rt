//! Why a text was not read.

/// Why a text was not read line by line.
#[derive(Drop)]
pub enum LineError<F> {
    /// The first line with a fault is that with this number, from 1, and this is its fault. Where the text ends too early, it
    /// is that after the last one.
    Fault { line: u32, fault: F },
    NoMemory,
}
