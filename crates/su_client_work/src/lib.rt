//! A client at work: it takes the turn at a server, checks and takes the commits that this shows,
//! and then looks at the tree of its list, or commits a change of its user's own.
#![tactic(auto)]

mod changes;
mod early;
mod logs;
mod members;
mod own_keys;
mod questions;
mod ready;
mod shown;
mod sources;
mod surroundings;

pub use logs::{LogFault, log_behind, saved_logs_are_logs, take_log};
pub use members::Member;
pub use sources::{LinkSource, leave_in_scratch, source_over, source_with};
pub use surroundings::Surroundings;
