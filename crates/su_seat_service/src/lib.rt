//! The service of a worker, over a book and items that threads share, and a gate before it.
#![tactic(auto)]

mod gates;
mod names;
mod workers;

pub use gates::{Gate, Gated, OpenGate};
pub use workers::Worker;
