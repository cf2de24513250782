//! Scripts of events, and what is asked of a trace: the names of nodes and links that words give, how a packet enters,
//! and the lines of a script file.
#![tactic(auto)]

mod entry;
mod event;
mod line;
mod name_law;
mod names;
mod reading;
mod script;
mod script_error;
mod script_law;
mod taking;
mod trace;

pub use entry::Entry;
pub use event::{FailureName, ScriptEvent};
pub use line::read_entry;
pub use name_law::a_name_is_its_spelling;
pub use names::{read_failure, read_node};
pub use reading::read_script;
pub use script::Script;
pub use script_error::ScriptError;
pub use script_law::lines_are_a_script_or_have_a_fault;
pub use trace::Trace;
