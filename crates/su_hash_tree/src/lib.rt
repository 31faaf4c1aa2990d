//! Finite maps that keep their digests: a change hashes the path of one key, and the digest is at
//! hand. Their nodes are public, as a map of which parts are left on a store is made of them too.
#![tactic(auto)]

mod counts;
mod nodes;
mod trees;

pub use counts::Hashes;
pub use nodes::Node;
pub use trees::HashTree;
