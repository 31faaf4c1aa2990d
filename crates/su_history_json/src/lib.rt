//! The lines of a history as JSON.
#![tactic(auto)]

mod lines;
mod parts;

pub use lines::history_json;
