//! Heads of two users, side by side: what they say of what both were shown.
#![tactic(auto)]

mod comparing;

pub use comparing::{Standing, compare};
