//! Where items come from: byte strings that are stored under their SHA-256, by someone who need not
//! be trusted.
#![tactic(auto)]

mod checked;
mod failures;
mod items;
mod memory;
mod sources;

pub use checked::Checked;
pub use failures::Failures;
pub use items::{LONGEST_ITEM, digest_of, is_item};
pub use memory::MemoryBlocks;
pub use sources::BlockSource;
