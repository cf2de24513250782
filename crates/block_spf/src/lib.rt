//! The increasing and decreasing shortest paths in the blocks of a GADAG (RFC 7811, section 5.7).
#![tactic(auto)]

mod aiming;
mod fan;
mod least_paths;
mod offers;
mod path_law;
mod paths_over_ends;
mod reach;
mod side;
mod tile;

pub use aiming::{Aiming, put_heads};
pub use fan::Fan;
pub use least_paths::{spf, spf_to};
pub use offers::is_sole;
pub use path_law::{
    no_node_is_both_above_and_below, one_hop_for_each_node, one_reach_to_each_node,
    paths_lead_to_the_head_and_back,
};
pub use reach::{Dir, Hop, Reach, nodes_by_turn};
pub use side::NO_LINK;
pub use tile::Tile;
