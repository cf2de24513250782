//! A destination, as the source sees it.

use area_graph::BondNo;
use primary_alt::Primary;

/// What is asked of a destination that has a primary.
#[derive(Clone, Copy)]
pub struct Destination {
    pub primary: Primary,
    /// The bond of the primary's first arc.
    pub bond: BondNo,
    /// The distance from the source.
    pub distance: u32,
    /// The distance from the primary's next.
    pub beyond: u32,
}
