//! Up to which commits a user has seen files: the lines of the state folder that tell it, each with
//! one spelling.
#![tactic(auto)]

mod files;
mod laws;
mod lines;

pub use files::SeenFiles;
pub use laws::lines_tell_what_they_spell;
pub use lines::{SeenFile, read_line, spelled_line};
