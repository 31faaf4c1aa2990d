//! Drafts of commands on paths, on a tree that is asked where it lies.
#![tactic(auto)]

mod commands;
mod drafts;
mod link;
mod make;
mod numbers;
mod paths;
mod remove;
mod rename;
mod stale;
mod tidy;
mod truncate;
mod walks;
mod write;

pub use commands::{draft, draft_of_member};
pub use walks::find;
