//! Packets, step by step through a failure: a machine whose every event is one packet that enters, one router that
//! handles one packet once, or one failure (after RFC 7812, section 5). Runs of scripts of events, traces of one packet, and the texts of both.
#![tactic(auto)]

mod entering;
mod event;
mod fabric;
mod gathering;
mod handling;
mod hops;
mod in_island;
mod lines;
mod loss_law;
mod next_hop;
mod numbers;
mod of_area;
mod order_law;
mod packet;
mod packet_law;
mod parts;
mod refusal_law;
mod rows_law;
mod run_law;
mod runs;
mod served_law;
mod step_law;
mod stepping;
mod telling;
mod text_rows_law;

pub use event::{Event, Failure, Outcome, Refused};
pub use fabric::Fabric;
pub use gathering::destinations;
pub use lines::{outcome_line, push_answer_line};
pub use loss_law::losses_have_their_causes;
pub use numbers::PacketNo;
pub use order_law::own_events_decide_the_answers;
pub use packet::{Loss, Mode, Packet, State};
pub use packet_law::{
    a_switched_packet_is_never_lost, no_place_twice, one_change_of_mode, packets_end,
};
pub use refusal_law::what_is_not_there_is_refused;
pub use rows_law::rows_for_destinations_decide;
pub use run_law::one_text_each;
pub use runs::{script_text, trace_text};
pub use served_law::a_certificate_serves_each_event;
pub use step_law::{one_answer_each, other_things_stay};
pub use text_rows_law::texts_by_rows_for_destinations;
