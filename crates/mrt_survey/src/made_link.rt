//! Links between the routers of a network that is made.

/// A link between two routers, with its metric at each.
#[derive(Clone, Copy)]
pub struct MadeLink {
    pub first: u32,
    pub second: u32,
    pub first_metric: u16,
    pub second_metric: u16,
}
