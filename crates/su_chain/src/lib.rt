//! The end of a chain of commits: what a client and a server keep of it to check the next commit.
#![tactic(auto)]

mod ends;

pub use ends::ChainEnd;
