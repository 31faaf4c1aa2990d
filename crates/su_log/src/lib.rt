//! Logs of commits, with the items of their changes: how a log is read, record by record.
#![tactic(auto)]

mod parts;
mod records;

pub use records::{Digests, Log, Record, Stop};
