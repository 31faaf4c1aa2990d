//! A key in its file, which one process alone uses: its next leaf is on the disk before it signs.
#![tactic(auto)]

mod faults;
mod files;
mod keys;
mod locks;

pub use faults::KeptKeyFault;
pub use keys::{KeptKey, signer_of};
pub use locks::{LockFault, lock_key};
