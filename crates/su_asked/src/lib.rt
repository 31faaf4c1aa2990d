//! Which cells the check of an operation may ask for, whatever it answers: refusals are as local as
//! acceptance is. And how what is done to the loaded part of a tree is done to the tree.
#![tactic(auto)]

mod asking;
mod laws;

pub use asking::{asked_first, asked_then};
pub use laws::{asked_in_two_rounds, changes_follow, refusals_are_local};
