//! Undo of any action of a lawful system: definitions and lemmas, and no code.
#![tactic(auto)]

mod laws;

pub use laws::{
    batches_are_lawful, batches_block_by_actions, batches_can_be_undone, batches_replay_flat,
    copies_can_be_undone, nothing_read_inside, registers_are_lawful,
};
