//! The island of a router (RFC 7811, section 5; RFC 7812, section 7), and the profile file that shapes it.
#![tactic(auto)]

mod eligible;
mod extent;
mod island;
mod island_error;
mod island_law;
mod numbering;
mod profile;
mod profile_error;
mod profile_law;
mod profile_line;
mod profile_reading;
mod rooting;
mod setting;
mod settling;

pub use island::{Island, find_island};
pub use island_error::IslandError;
pub use island_law::{
    a_router_has_one_island, an_island_is_that_of_each_router_in_it, what_an_island_keeps,
};
pub use profile::Profile;
pub use profile_error::{ProfileError, ProfileKind};
pub use profile_law::lines_are_settings_or_have_a_fault;
pub use profile_reading::read_profile;
pub use setting::Setting;
