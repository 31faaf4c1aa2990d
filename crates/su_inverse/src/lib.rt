//! What cells held, kept so that it can be put back.
#![tactic(auto)]

mod contents;
mod inverses;
mod laws;
mod resets;
mod returns;

pub use contents::{KeptBlocks, KeptSize};
pub use inverses::Inverse;
pub use laws::{kept_of_trees_alike, undo_after_apply, undo_after_batch, writes_can_be_kept};
pub use resets::Reset;
