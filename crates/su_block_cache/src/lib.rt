//! A source that keeps the items that were used last, so that the source within isn't asked for
//! them again.
#![tactic(auto)]

mod cache;
mod items;
mod kept;

pub use cache::BlockCache;
