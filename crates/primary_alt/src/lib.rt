//! What a router does with a packet: the next hop of a shortest path (RFC 2328, section 16.1), and the color that
//! repairs a failure.
#![tactic(auto)]

mod arc_starts;
mod arcs_into;
mod backward;
mod beginnings;
mod color_hops;
mod color_uses;
mod first_arc;
mod first_arcs;
mod first_column;
mod in_island;
mod least_walks;
mod of_area;
mod onward;
mod primary_law;
mod repair;
mod repair_law;
mod routes;
mod routes_law;
mod searches;
mod shortest;
mod turned;

pub use color_hops::{ColorHop, next_hop};
pub use color_uses::is_over;
pub use least_walks::{FromRouter, from_router, primaries};
pub use of_area::{all_arcs, is_network};
pub use primary_law::{
    a_primary_where_a_walk_leads, each_router_has_its_primaries, one_primary_each,
    primaries_lead_nearer, primaries_reach_their_destinations,
};
pub use repair::{alternate, alternate_by, alternate_on, is_between};
pub use repair_law::{
    a_color_given_goes_round, a_sound_column_goes_round, no_alternate_for_ends_and_what_separates,
    one_alternate_each,
};
pub use routes::Routes;
pub use routes_law::{routes_lead_nearer, routes_reach_their_destinations};
pub use searches::Searches;
pub use shortest::Primary;
