//! What a person does with a folder of a store, over a client at work: commands that are committed
//! together as far as an item has room, and planned anew for each commit, contents that are put at a path, and operations that are taken
//! back.
#![tactic(auto)]

mod carrying;
mod changes;
mod faults;
mod found_changes;
mod keys;
mod persons;
mod putting;
mod steps;
mod undoing;

pub use carrying::carry_out;
pub use changes::{last_change, last_changes};
pub use faults::Fault;
pub use keys::move_on;
pub use persons::Person;
pub use putting::{NewContents, put, put_together};
pub use undoing::undo;
