//! All i-tables of a store in memory: inodes by user and i-number, and the bodies of group files.
//! Their model is the plain tree.
#![tactic(auto)]

mod forests;
mod laws;
mod table;
mod tables;

pub use forests::Forest;
pub use laws::{a_byte_makes_few_hashes, edits_can_be_taken_back, edits_change_one_table};
