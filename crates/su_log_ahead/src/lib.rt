//! Records of a log that are read ahead of their turn, so that the signatures of their commits are
//! checked on all cores.
#![tactic(auto)]

mod ahead;
mod presumed;

pub use ahead::{Ahead, examine};
pub use presumed::PresumedKeys;
