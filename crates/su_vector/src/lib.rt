//! Version vectors: what they are, what a commit makes of them, and the order of what has one.
#![tactic(auto)]

mod orders;
mod vectors;

pub use orders::{HasVector, first_unordered, order_of};
pub use vectors::{Vector, are_numbers_after};
