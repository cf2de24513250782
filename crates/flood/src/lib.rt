//! Link State Update packets (RFC 2328, section A.3.5), the flooding of what they bring, and scripts of deliveries with their texts.
//!
//! Of flooding two things are here: which of two instances is newer (section 13.1, without its last rule on ages), and
//! that a router sends on what was new to it (section 13.3). There are no acknowledgements and no retransmissions; ages
//! do not grow, and nothing is refused because it came too soon (MinLSArrival); there are no interfaces and no flooding
//! scopes, so any packet may be delivered to any router.
#![tactic(auto)]

mod answer;
mod comparing;
mod database_copy;
mod error;
mod flood;
mod line;
mod lines;
mod noted;
mod numbered_update;
mod packet;
mod reading;
mod receiver;
mod run_law;
mod same;
mod script;
mod script_error;
mod script_law;
mod script_reading;
mod shared_lsdb;
mod store;
mod taking;
mod telling;
mod text_law;
mod update;
mod update_law;
mod verdict;

pub use answer::Answer;
pub use comparing::Compare;
pub use error::{UpdateError, UpdateKind};
pub use flood::Flood;
pub use reading::read_updates;
pub use run_law::{
    a_database_is_that_of_what_was_delivered, an_instance_is_sent_on_once, flooding_converges,
    newest_of_the_same_are_the_same, nothing_is_made_up,
    the_same_deliveries_give_the_same_database,
};
pub use script::{FloodLine, FloodScript};
pub use script_error::FloodScriptError;
pub use script_law::lines_are_a_flood_script_or_have_a_fault;
pub use script_reading::read_flood_script;
pub use shared_lsdb::SharedLsdb;
pub use telling::flood_text;
pub use text_law::{
    a_comparison_tells_of_the_deliveries_before_it, newest_of_the_same_give_one_area, one_text_each,
};
pub use update::Update;
pub use update_law::{bytes_are_updates_or_have_a_fault, what_is_read_may_be_flooded};
pub use verdict::Verdict;
