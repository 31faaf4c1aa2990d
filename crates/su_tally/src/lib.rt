//! How many records a store has kept, noted beside it, so that one that lost some is told.
#![tactic(auto)]

mod notebooks;
mod tallied;

pub use notebooks::Notebook;
pub use tallied::{Loss, Tallied};
