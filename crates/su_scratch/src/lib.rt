//! A source of items that leaves what is put there in a file of one's own, and asks another source for
//! what isn't there.
#![tactic(auto)]

mod blocks;
mod buckets;
mod chains;
mod files;
mod notes;
mod pages;
mod places;
mod scratches;

pub use blocks::ScratchBlocks;
pub use files::FileScratch;
pub use scratches::Scratch;
