//! What is asked of a file of a tree that is asked where it lies: what it is, its names, its bytes.
#![tactic(auto)]

mod reads;
mod stats;

pub use reads::{list, read, read_at, stat};
pub use stats::Stat;
