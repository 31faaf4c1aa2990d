//! A server's book: seats take the turn and store signed commits, one at a time. The steps that
//! were made are a run of one machine.
#![tactic(auto)]

mod books;
mod commits;
mod events;
mod journals;
mod keeping;
mod laws;
mod offers;
mod steps;

pub use books::{Book, MOST_RECORDS};
pub use commits::HashedCommit;
pub use events::{BookReply, Event};
pub use laws::{one_answer, one_seat_has_the_turn, records_are_a_chain, records_only_grow};
pub use offers::Offer;
pub use steps::{Act, Step};
