//! What a draft is: a command on paths becomes the operations that carry it out; and laws of that.
#![tactic(auto)]

mod commands;
mod laws;

pub use commands::Command;
pub use laws::{
    files_are_taken_once, numbers_are_counted_through, numbers_are_least, paths_have_one_spelling,
};
