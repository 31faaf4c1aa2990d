//! A user's i-table of which parts may be left on a store: the table, inodes, and their names or
//! the digests of their blocks.
#![tactic(auto)]

mod blocks;
mod cuts;
mod exchanges;
mod fetches;
mod fresh;
mod inodes;
mod items;
mod left;
mod opens;
mod overwrites;
mod reads;
mod seen;
mod sheds;
mod users;

pub use fetches::Wanted;
pub use inodes::PartInode;
pub use users::UserPart;
