//! Records and blocks in a file, each kept before it is acknowledged.
#![tactic(auto)]

mod faults;
mod lookups;
mod opening;
mod record_files;
mod records;
mod schemas;
mod shut_files;
mod tables;

pub use faults::{FileFault, StoreFault};
pub use opening::{make, open};
pub use record_files::{MOST_RECORDS, RecordFile};
pub use shut_files::ShutFile;
