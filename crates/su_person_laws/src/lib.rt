//! What the calls of people's clients come to, for one another.
#![tactic(auto)]

mod laws;

pub use laws::puts_are_got;
