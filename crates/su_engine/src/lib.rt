//! What holds values under keys for several machines, each for good.
#![tactic(auto)]

mod engines;

pub use engines::{Engine, Pair, Unanswered};
