//! What the command lines of `sundr` are made of: commands as they are built, their options, and why
//! words make no command line.
#![tactic(auto)]

mod drafts;
mod faults;
mod options;

pub use drafts::Draft;
pub use faults::LineFault;
pub use options::{copies, copy, flag, needed, option, usage};
