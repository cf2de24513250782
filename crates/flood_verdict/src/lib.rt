//! What `same R Q ROUTER` of a script of deliveries comes to: two databases compared by the certificate of a router's island.
#![tactic(auto)]

mod by_island;
mod verdict_law;

pub use by_island::ByIsland;
pub use verdict_law::{
    a_script_has_its_text, alike_is_never_different, no_difference_is_told, one_verdict_each,
};
