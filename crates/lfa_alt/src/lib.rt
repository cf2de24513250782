//! Loop-free alternates: what a router without colors does at once when the next hop of a shortest path fails (RFC
//! 5286).
#![tactic(auto)]

mod alternate;
mod choosing;
mod destination;
mod destinations;
mod finding;
mod lfa_law;
mod neighbour_path;
mod neighbour_paths;
mod offering;
mod protection;
mod text;
mod text_law;
mod walk_law;

pub use alternate::Lfa;
pub use finding::loop_free;
pub use lfa_law::{each_router_has_its_alternates, one_loop_free_alternate_each};
pub use text::lfa_text;
pub use text_law::one_text_each;
pub use walk_law::{a_protecting_alternate_goes_round_the_next, no_alternate_leads_back};
