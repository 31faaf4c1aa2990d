//! Making a key: the entropy that it is made of, and the two files that it is kept in; and the next
//! key of a user, in a file of its own.
#![tactic(auto)]

mod faults;
mod keygen;
mod next_keys;
mod pairs;

pub use faults::KeygenFault;
pub use keygen::make_key;
pub use next_keys::{make_next_key, next_key_path};
