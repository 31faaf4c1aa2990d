//! The operations on a store: when one is accepted, what it does, and nothing else.
#![tactic(auto)]

mod access;
mod areas;
mod batches;
mod create;
mod drop_body;
mod footprints;
mod laws;
mod limits;
mod link;
mod operations;
mod rename;
mod take;
mod truncate;
mod unlink;
mod write;

pub use access::closed_group;
pub use areas::{Area, BlockRun, Part};
pub use batches::Batch;
pub use create::Create;
pub use drop_body::DropBody;
pub use footprints::{Footprint, blocks_between, push_file, push_pointer};
pub use laws::{
    batches_are_local, batches_are_their_operations, batches_change_whole, kinds_change_whole,
    operations_are_local, table_of_cells,
};
pub use limits::{LARGEST_WRITE, MOST_LINKS, largest_file};
pub use link::Link;
pub use operations::{Change, Op};
pub use rename::Rename;
pub use take::Take;
pub use truncate::Truncate;
pub use unlink::Unlink;
pub use write::Write;
