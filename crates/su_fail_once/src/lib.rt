//! A source of items of which one call fails, to try what becomes of who works on it.
#![tactic(auto)]

mod sources;

pub use sources::FailOnce;
