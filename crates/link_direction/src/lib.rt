//! The order of a GADAG and the direction of every link (RFC 7811, section 5.6).
#![tactic(auto)]

mod counting;
mod directed;
mod links_of_no_ear;
mod numbering;
mod order_law;
mod ordering;

pub use directed::direct;
pub use order_law::{directions_are_ordered, each_node_is_in_the_order_once, one_order};
