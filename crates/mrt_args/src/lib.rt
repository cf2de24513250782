//! The words and the files that they name: what is asked for, and what is read and kept of these files.
#![tactic(auto)]

mod arguments;
mod certificate_file;
mod file_name;
mod files_read;
mod form;
mod form_reading;
mod named_file;
mod reading;
mod task;
mod words_law;

pub use arguments::argument_words;
pub use file_name::FileName;
pub use files_read::{FilesRead, FloodRead, read_files, read_flood_files};
pub use form::{FileForm, FloodForm, Form};
pub use form_reading::read_form;
pub use named_file::{CERTIFICATE_LIMIT, DATABASE_LIMIT, PROFILE_LIMIT};
pub use task::{RouterTask, Task, Work};
pub use words_law::words_spell_one_form;
