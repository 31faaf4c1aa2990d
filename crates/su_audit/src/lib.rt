//! An audit: reads a log of commits, with the items of their changes, and takes them in a client's
//! view, up to the first one that this refuses.
#![tactic(auto)]

mod audits;
mod keys;
mod steps;

pub use audits::{Ending, Fault, Watcher, run_audit, tell_refused};
pub use keys::{KeyFault, read_keys};
