//! A book that threads share: steps under one lock, and records in cells that are set once, when they
//! are kept, and read without the lock.
#![tactic(auto)]

mod cells;
mod faults;
mod held;
mod laws;
mod locked;
mod notes;
mod seats;
mod shared;

pub use cells::{BookName, Cells, Record};
pub use faults::{BookFault, Unmade};
pub use held::Held;
pub use laws::{runs_are_orderly, steps_are_counted};
pub use notes::{Receipt, Taken};
pub use seats::{Kept, Seat};
pub use shared::{Closed, SharedBook, Unshared};
