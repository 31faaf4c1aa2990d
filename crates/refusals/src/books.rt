// A book's steps, one after another, where memory is refused.
use crate::commits::five_commits;
use crate::faults::{Fault, Mistake, check};
use crate::seen::{Seen, again};
use std::alloc::Global;
use su_book::{Book, BookReply, Event, Offer};
use su_bytes::{Refusal, User};

/// What a book answers to a step that is asked for.
type Answer = Result<BookReply, Refusal>;

/// Two seats ask for the turn and hand commits in, of which the book takes one.
pub(crate) fn of_two_seats(alloc: Global, seen: &mut Seen) -> Result<(), Fault> {
    let of = five_commits(alloc, seen)?;
    let (first, _item) = of.entry(1)?;
    let (second, _item) = of.entry(2)?;
    let mut book = Book::new(alloc, 1, of.view.roster().copy()?)?;
    first_turn(alloc, &mut book, first, second, seen)?;
    second_turn(alloc, &mut book, second, seen)?;
    check(book.count() == 1 && book.len() == 4, Mistake::Book)
}

// Makes a step, and once more where memory was refused.
fn step(book: &mut Book, seat: u16, mut event: Event, seen: &mut Seen) -> Result<Answer, Fault> {
    let (count, steps, key) = (book.count(), book.len(), book.key(User::FIRST));
    let answer = again!(
        seen,
        book.count() == count && book.len() == steps && book.key(User::FIRST) == key,
        book.step(seat, &mut event)
    );
    Ok(answer)
}

// A seat is refused so, and no step is made.
fn refuses(
    book: &mut Book,
    seat: u16,
    event: Event,
    refusal: Refusal,
    seen: &mut Seen,
) -> Result<(), Fault> {
    let steps = book.len();
    let answer = step(book, seat, event, seen)?;
    check(answer.err() == Some(refusal), Mistake::Record)?;
    check(book.len() == steps, Mistake::Changed)
}

fn commit(alloc: Global, bytes: &[u8]) -> Result<Event, Refusal> {
    Ok(Event::Commit(Offer::new(Vec::from_slice(alloc, bytes)?)))
}

// The first seat has the turn, and stores the first commit.
fn first_turn(
    alloc: Global,
    book: &mut Book,
    first: &[u8],
    second: &[u8],
    seen: &mut Seen,
) -> Result<(), Fault> {
    let Ok(BookReply::Granted { count: 0, last }) = step(book, 0, Event::Grant, seen)? else {
        return Err(Fault::Wrong(Mistake::Record));
    };
    check(last.is_empty(), Mistake::Record)?;
    refuses(book, 1, Event::Grant, Refusal::Busy(0), seen)?;
    refuses(book, 1, Event::Give, Refusal::NotYourTurn, seen)?;
    refuses(book, 0, commit(alloc, second)?, Refusal::WrongPrev(0), seen)?;
    let Ok(BookReply::Stored { number }) = step(book, 0, commit(alloc, first)?, seen)? else {
        return Err(Fault::Wrong(Mistake::Record));
    };
    check(number == 1, Mistake::Record)
}

// The second seat is told of it, and finds no room.
fn second_turn(
    alloc: Global,
    book: &mut Book,
    second: &[u8],
    seen: &mut Seen,
) -> Result<(), Fault> {
    let Ok(BookReply::Granted { count: 1, last }) = step(book, 1, Event::Grant, seen)? else {
        return Err(Fault::Wrong(Mistake::Record));
    };
    check(
        last.as_slice() == [(User::FIRST, 1)].as_slice(),
        Mistake::Record,
    )?;
    refuses(book, 1, commit(alloc, second)?, Refusal::BookFull, seen)?;
    let answer = step(book, 1, Event::Give, seen)?;
    check(matches!(answer, Ok(BookReply::Given)), Mistake::Record)
}
