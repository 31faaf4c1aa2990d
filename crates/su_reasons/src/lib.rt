//! Why an operation can't be undone yet: what others built on it.
#![tactic(auto)]

mod finding;

pub use finding::reasons;
