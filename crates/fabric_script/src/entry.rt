//! How a packet enters.

/// How a packet enters: on a color, or in primary mode, to be repaired where a failure cuts its hop.
#[derive(Clone, Copy)]
pub enum Entry {
    Blue,
    Red,
    Repair,
}
