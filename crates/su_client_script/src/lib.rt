//! Runs a script of a client: carries out its commands line by line, and prints what comes of them.
#![tactic(auto)]

mod answers;
mod endings;
mod keys;
mod parts;
mod places;
mod programs;
mod scripts;
mod steps;
mod texts;

pub use endings::{Ending, Fault};
pub use programs::{Cause, Program};
pub use scripts::{Manner, run_client};
