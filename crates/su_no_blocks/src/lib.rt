//! A source of items that never has one: for who works on what is all at hand.
#![tactic(auto)]

mod sources;

pub use sources::NoBlocks;
