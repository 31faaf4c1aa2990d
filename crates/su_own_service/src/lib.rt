//! A service that owns all that it serves, a book and items: its replies are those of one machine.
#![tactic(auto)]

mod laws;
mod own;

pub use laws::{replies_are_the_machines, what_is_given_is_kept};
pub use own::{OwnService, SEAT, reply_or_refusal, told};
