//! What stands at one place of an i-table: a file with its bytes, or a directory with its names.
#![tactic(auto)]

mod blocks;
mod inodes;

pub use blocks::BLOCK_SIZE;
pub use inodes::Inode;
