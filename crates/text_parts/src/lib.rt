//! Texts, both ways: what the texts of the program are made of, put at the end of a text, and texts that are read line by
//! line.
#![tactic(auto)]

mod line;
mod line_error;
mod node_text;
mod parts;
mod reading;
mod short_text;
mod text_law;
mod text_lines;
mod text_numbers;

pub use line::{Line, line_of, put, put_address, put_hop, put_number};
pub use line_error::LineError;
pub use node_text::{NodeText, push_node_text};
pub use parts::{push, push_count, push_hop, push_node, push_number};
pub use reading::{TakesLines, text_of};
pub use short_text::ShortText;
pub use text_law::lines_are_a_text_or_have_a_fault;
pub use text_lines::{first_line, first_word, is_passed_over};
pub use text_numbers::{read_address, read_number};
