//! The bytes of a change: its item, by which it is stored, and whose digest names it.
#![tactic(auto)]

mod batch;
mod create;
mod decoder;
mod drop_body;
mod encoder;
mod filling;
mod laws;
mod name_at;
mod operation;
mod outlines;
mod rekey;
mod rename;
mod take;
mod truncate;
mod write;

pub use decoder::decode;
pub use encoder::{digest, encode};
pub use filling::longest_head;
pub use laws::no_item_begins_another;
pub use name_at::NameAt;
pub use outlines::{outline, read_outline};
