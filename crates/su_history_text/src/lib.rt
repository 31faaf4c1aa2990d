//! The lines of a history as text for people.
#![tactic(auto)]

mod deeds;
mod file_names;
mod laws;
mod lines;
mod parts;

pub use file_names::FileNames;
pub use laws::the_first_path_stays;
pub use lines::{history_text, line_text};
pub use parts::{author_text, file_text};
