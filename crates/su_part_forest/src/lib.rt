//! All i-tables of a store, of which parts may be left on the store: a part for each user and each
//! group.
#![tactic(auto)]

mod copies;
mod edits;
mod forests;
mod fresh;
mod has;
mod loads;
mod reads;
mod sheds;

pub use forests::PartForest;
