// What a seat asks of a book, and what it is told.
use crate::offers::Offer;
use su_bytes::User;

/// What a seat asks for: the turn; that the commit of these bytes is stored; to give the turn back.
#[derive(Drop)]
pub enum Event {
    Grant,
    Commit(Offer),
    Give,
}

/// What a seat is told: of the turn how many records there are, and the users who have one,
/// ascending, each with the number of the last one; of a commit its number, from 1.
#[derive(Drop)]
pub enum BookReply {
    Granted { count: u64, last: Vec<(User, u64)> },
    Stored { number: u64 },
    Given,
}
