//! What is kept of the blocks of a file that are left on a store: of each its digest.
#![tactic(auto)]

mod left;
mod puts;

pub use left::LeftBlocks;
pub use puts::put_blocks;
