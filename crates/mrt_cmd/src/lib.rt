//! The top call: words, a shelf and two sinks in, an exit out.
#![tactic(auto)]

mod program;
mod run_law;

pub use mrt_answer::{
    made_networks_are_taken, routers_of_a_network_compute_one_certificate,
    what_steps_read_fits_together,
};
pub use mrt_args::words_spell_one_form;
pub use mrt_exit::{DbKind, Exit, Line, What};
pub use program::{run, text_for};
pub use run_law::{
    alike_routers_are_told_alike, an_exit_comes, one_exit_comes, only_a_verdict_says_no,
    what_was_written_passes,
};
