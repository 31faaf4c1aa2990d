//! Messages on a stream of bytes, each behind its length: they are put on it, and however it arrives,
//! it is cut into the same messages.
#![tactic(auto)]

mod frames;
mod laws;
mod sending;

pub use frames::{Frames, LONGEST_MESSAGE};
pub use laws::{one_cut, refused_for_good};
pub use sending::{Sent, send};
