//! The commands for people that sign or make: local files are put to a store, many of them in one
//! commit, names are made, given and taken away, operations are taken back, a client goes on to a
//! next key, and a state folder is made.
#![tactic(auto)]

mod changing;
mod groups;
mod initializing;
mod items;
mod planning;
mod putting;
mod rekeying;
mod tallies;
mod together;
mod undoing;

pub use changing::{done_line, link, make_folders, remove, rename};
pub use initializing::{first_look, new_folder};
pub use putting::put_all;
pub use rekeying::rekey;
pub use undoing::undo_range;
