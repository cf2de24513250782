//! Networks made from a number, and the text that sums one up.
#![tactic(auto)]

mod counts;
mod database;
mod draws;
mod made_law;
mod made_link;
mod made_links;
mod made_lsas;
mod marks;
mod separating_law;
mod survey;
mod survey_law;
mod tally;

pub use database::generate;
pub use made_law::{
    made_areas_are_within_the_limits, made_islands_hold_all_routers, made_lsas_may_be_installed,
    made_routers_are_in_the_area,
};
pub use separating_law::separating_nodes_head_blocks;
pub use survey::survey_text;
pub use survey_law::one_survey_each;
