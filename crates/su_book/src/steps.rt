// The steps of a book.
use crate::commits::HashedCommit;

/// What a seat did: it was granted the turn, after so many records; its commit was stored, with
/// this number; it gave the turn back.
#[derive(Drop)]
pub enum Act {
    Granted(u64),
    Stored(u64, HashedCommit),
    Given,
}

/// A step: an act of a seat.
#[derive(Drop)]
pub struct Step {
    pub seat: u16,
    pub act: Act,
}
