//! What each form gives of the bytes of the files that were read, or why it gives nothing.
#![tactic(auto)]

mod answer;
mod answer_law;
mod certificate;
mod columns;
mod coming_law;
mod events;
mod finding;
mod flood_answer;
mod given;
mod input;
mod loop_free;
mod network_law;
mod order;
mod packets;
mod proxy;
mod router_island;
mod survey;
mod survey_law;
mod table;
mod text;
mod trace;
mod upgrade;
mod verdict;

pub use answer::answer_of_files;
pub use answer_law::{
    alike_deliveries_are_told_alike, one_answer_comes, what_is_certified_passes,
    what_steps_read_fits_together,
};
pub use certificate::{certify, certify_island};
pub use columns::columns_of;
pub use coming_law::an_answer_comes;
pub use finding::{node_of, own_node, own_spot};
pub use flood_answer::answer_of_flood;
pub use given::Given;
pub use input::given_of;
pub use network_law::routers_of_a_network_compute_one_certificate;
pub use packets::{AreaAndIsland, area_and_island};
pub use proxy::proxy_rows_by;
pub use router_island::island_in;
pub use survey::answer_of_survey;
pub use survey_law::made_networks_are_taken;
pub use table::{Parts, row_by_column};
pub use text::Text;
pub use verdict::judge;
