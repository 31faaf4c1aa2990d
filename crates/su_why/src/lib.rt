//! Why an operation of a client's list can't be undone yet.
#![tactic(auto)]

mod entries;
mod own;
mod searching;

pub use entries::entries_of;
pub use own::{OwnReasons, first_of_others, own_reasons_in};
pub use searching::reasons_in;
