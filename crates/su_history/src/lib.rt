//! What a history is for people, line by line.
#![tactic(auto)]

mod choosing;
mod deeds;
mod history;
mod laws;
mod line;
mod runs;
mod undoers;

pub use choosing::{newest, of_file};
pub use history::lines;
pub use laws::{each_entry_is_in_one_line, live_lines_are_live};
pub use line::{Deed, Fate, Line, Several};
