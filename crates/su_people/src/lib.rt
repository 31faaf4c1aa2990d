//! What `sundr` does for people: a folder of a store with its files, its history, and what was
//! taken back. It keeps a state folder, works over a client that checks all that the server shows,
//! and tells refusals in sentences.
#![tactic(auto)]

mod blockers;
mod outcomes;
mod running;

pub use outcomes::Outcome;
pub use running::run;
