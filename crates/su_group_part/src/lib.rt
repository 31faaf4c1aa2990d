//! A group's i-table of which parts may be left on a store: the table of its pointers.
#![tactic(auto)]

mod groups;
mod opens;

pub use groups::GroupPart;
