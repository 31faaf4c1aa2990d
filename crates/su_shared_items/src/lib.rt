//! Items that threads share: byte strings in memory, each under its digest.
#![tactic(auto)]

mod items;
mod pins;
mod purposes;
mod sections;
mod sessions;
mod shard;
mod shared;
mod spare;
mod staying;

pub use purposes::Purpose;
pub use sessions::SessionItems;
pub use shared::SharedBlocks;
