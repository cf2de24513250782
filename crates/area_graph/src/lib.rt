//! The graph of an OSPFv2 area: its routers and transit networks, and what joins them (RFC 2328, section 16.1).
#![tactic(auto)]

mod arcs;
mod area;
mod area_error;
mod area_law;
mod area_types;
mod back_marks;
mod build;
mod entries;
mod entry;
mod laws;
mod listing;
mod numbers;
mod pairing;
mod size;
mod speaker;
mod speakers;
mod starts;

pub use area::Area;
pub use area_error::AreaError;
pub use area_law::{
    bonds_of_the_newest_records_fit, ids_of_the_newest_records_fit, the_newest_records_give_an_area,
};
pub use area_types::{Arc, Bond};
pub use build::build_area;
pub use laws::{the_same_live_lsas_give_the_same_area, the_same_records_give_the_same_area};
pub use numbers::{ArcNo, BondNo, Spot};
