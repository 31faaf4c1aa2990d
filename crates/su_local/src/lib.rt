//! Files and folders of the machine at which a person works: what there is to put, and how a file is
//! written that was got. Of what a disk does no contract can speak.
#![tactic(auto)]

mod listing;
mod names;
mod reading;
mod writing;

pub use listing::{LocalEntry, LocalKind, LocalListing, entries_of, kind_of};
pub use names::{joined, last_name};
pub use reading::read_whole;
pub use writing::{make_folder, write_whole};
