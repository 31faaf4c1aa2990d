//! What keeps the records of a book, so that they outlast the process.
#![tactic(auto)]

mod forgetful;
mod keepers;

pub use forgetful::Forgetful;
pub use keepers::{Keeper, NotKept};
