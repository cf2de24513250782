//! The exits of the top call: what came of the words, the program's status, and the line on standard error.
#![tactic(auto)]

mod exit;
mod fault;
mod kind_texts;
mod telling;

pub use exit::{DbKind, Exit, What};
pub use telling::tell;
pub use text_parts::Line;
