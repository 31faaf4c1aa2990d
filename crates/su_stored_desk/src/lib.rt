//! A desk whose tree may lie on a store that isn't trusted.
#![tactic(auto)]

mod desks;
mod kept;
mod prepared;
mod trials;
mod versions;

pub use trials::TrialDesk;
