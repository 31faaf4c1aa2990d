//! SHA-256 of eight messages of one block side by side, in the lanes of vectors, and by it the
//! chains of the one-time signatures of RFC 8554.
#![tactic(auto)]

mod blocks;
mod groups;
mod orders;
mod runs;
mod schedules;
mod steps;
mod words;

pub use orders::run_chains;
pub use runs::ChainRun;
