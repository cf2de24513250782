//! Walks, what separates, and sound rows, computed as they are defined: slow and small, to be compared with.
#![tactic(auto)]

mod arrival;
mod graph_links;
mod hop;
mod pair;
mod parting;
mod settling;
mod sharing;
mod soundness;
mod walking;

pub use arrival::reaches;
pub use graph_links::links_of;
pub use parting::separates;
pub use sharing::apart;
pub use soundness::sound;
pub use walking::{Course, follow};
