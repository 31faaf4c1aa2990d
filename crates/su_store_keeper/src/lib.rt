//! The keeper of a server's records: in the files of a vault, each record with the item of its
//! change. It notes which items are lacking, and keeps them once they are found.
#![tactic(auto)]

mod ahead;
mod archives;
mod fills;
mod items;
mod lacking;
mod numbers;

pub use archives::Archive;
