//! A tree that is read by whoever plans or lists, wherever it lies.
#![tactic(auto)]

mod heads;
mod readers;

pub use heads::InodeHead;
pub use readers::TreeReader;
