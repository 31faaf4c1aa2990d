//! Formats of the store: the parts of which the bytes of a value are made, written one after
//! another, and read again.
#![tactic(auto)]

mod laws;
mod readers;
mod writers;

pub use laws::parts_are_lawful;
pub use readers::Reader;
pub use writers::Writer;
