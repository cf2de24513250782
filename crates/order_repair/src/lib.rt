//! Repairs by order: which color goes round a failure, told without following a walk.
#![tactic(auto)]

mod arrow;
mod block_lists;
mod chains;
mod choice;
mod color_table;
mod kind;
mod line;
mod order_law;
mod order_tests;
mod pair;
mod reached;
mod source_view;
mod tagging;
mod text;
mod text_law;

pub use choice::order_choice;
pub use order_law::{
    a_chosen_color_goes_round, a_chosen_color_goes_round_in_the_certificate, blocks_hold_together,
    one_color_for_each_failure,
};
pub use text::order_text;
pub use text_law::one_text_each;
