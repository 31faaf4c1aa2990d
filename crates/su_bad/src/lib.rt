//! A server that misbehaves, for tests of those who have to notice: what it replies goes by its
//! script.
#![tactic(auto)]

mod laws;
mod servers;
mod service;
mod steps;

pub use laws::steps_lie_where_they_say;
pub use servers::BadServer;
pub use steps::Step;
