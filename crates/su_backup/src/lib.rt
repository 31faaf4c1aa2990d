//! A copy of a server's records, which are read through the server, checked, and kept anew.
#![tactic(auto)]

mod copiers;
mod copies;
mod faults;

pub use copiers::Copier;
pub use copies::{Copy, copy_book};
pub use faults::BackupFault;
