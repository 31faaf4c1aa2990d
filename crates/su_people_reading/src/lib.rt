//! The commands for people that only look: what is in a store and in its history, what a commit
//! did and what stands in the way of its undo, and whether all that was taken is right.
#![tactic(auto)]

mod differences;
mod getting;
mod histories;
mod listings;
mod reasons;
mod showing;
mod targets;
mod verifying;

pub use differences::diff;
pub use getting::{Got, get_all, got_into};
pub use histories::{compare_heads, history, status};
pub use listings::{cat, list};
pub use reasons::why;
pub use showing::show;
pub use targets::Target;
pub use verifying::verify;
