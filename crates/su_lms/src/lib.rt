//! LMS, the hash-based signatures of RFC 8554: keys are made, messages are signed with each leaf at
//! most once, and signatures are verified.
#![tactic(auto)]

mod chains;
mod checks;
mod digits;
mod key_files;
mod one_time;
mod parameters;
mod public_keys;
mod signers;
mod stores;
mod strings;
mod trees;

pub use checks::{Check, verify_all};
pub use key_files::KeyFile;
pub use parameters::Params;
pub use public_keys::PublicKey;
pub use signers::Signer;
pub use stores::{KeyStore, NoStore};
