//! The keys that users of a store have, or had.
#![tactic(auto)]

mod used;

pub use used::UsedKeys;
