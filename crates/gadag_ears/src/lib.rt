//! The GADAG of an island (RFC 7811, section 5.5): its ears in order, the head and the block of each node, and the
//! direction, the role and the block of each link.
#![tactic(auto)]

mod blocks;
mod ears_law;
mod gadag;
mod gadag_law;
mod growing;
mod kind;
mod marking;
mod turn;
mod turns;
mod walk;

pub use ears_law::{
    each_node_is_in_the_ear_order_once, ears_stop_ahead, every_ear_stops, heads_by_lowpoints,
    links_lie_in_common_blocks, neighbours_are_in_after_a_turn, one_ear_order,
    the_root_is_alone_in_its_block,
};
pub use gadag::ears;
pub use gadag_law::{
    counted_links_lead_forward, each_member_is_left_or_closes_its_block,
    each_node_but_the_root_is_entered, links_without_a_direction_are_plain, one_gadag,
    one_sole_or_closing_link_a_block,
};
