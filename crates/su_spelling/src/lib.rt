//! How names and paths are shown to people, and read back: each has one spelling, which is text,
//! and stays on its line.
#![tactic(auto)]

mod laws;
mod reading;
mod showing;

pub use laws::{names_are_shown_apart, shown_names_stay_on_their_line, shown_paths_are_read_back};
pub use reading::{read, read_path};
pub use showing::shown;
