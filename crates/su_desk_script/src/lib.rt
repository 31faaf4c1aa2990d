//! A desk script: what a desk answers to each line.
#![tactic(auto)]

mod desk;
mod loaded;
mod session;

pub use desk::{Ending, Fault, Status, run_desk};
pub use session::{answered, bad, in_hex};
pub use su_desk_lines::{DESK_WORDS, Mistake};
