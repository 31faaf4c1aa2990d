// What a book answers its seats.
use crate::clients::{new_client, push_counted, roster, signer};
use std::alloc::Global;
use std::process::Abort;
use std::test::Fail;
use su_book::{Book, BookReply, Event, Offer};
use su_bytes::{KEY_LENGTH, Refusal, Roster, User};
use su_keeper::Forgetful;
use su_shared::Cells;

/// Two commits of user 1, and the second signed by the leaf of the first.
#[derive(Drop)]
pub(crate) struct Commits {
    pub(crate) first: Vec<u8>,
    pub(crate) second: Vec<u8>,
    pub(crate) again: Vec<u8>,
}

/// Makes these commits.
pub(crate) fn new_commits(alloc: Global) -> Result<Commits, Fail> {
    let mut one = new_client(alloc, 1)?;
    one.take(alloc, 1)?;
    one.create(alloc, b"a", 2)?;
    let again = again(alloc, &one.commit_at(alloc, 2)?.version().encode(alloc)?)?;
    let (first, _item) = one.entry(1)?;
    let (second, _item) = one.entry(2)?;
    Ok(Commits {
        first: Vec::from_slice(alloc, first)?,
        second: Vec::from_slice(alloc, second)?,
        again,
    })
}

// The commit of that version structure, signed by user 1's first leaf.
fn again(alloc: Global, version: &[u8]) -> Result<Vec<u8>, Refusal> {
    let mut bytes = Vec::from_slice(alloc, version)?;
    let signature = signer(alloc, 1)?.sign(version)?;
    push_counted(&mut bytes, &signature)?;
    Ok(bytes)
}

/// The roster of two users whose keys are none.
pub(crate) fn no_keys(alloc: Global) -> Result<Roster, Refusal> {
    Roster::of_keys(alloc, &[[0; KEY_LENGTH]; 2])
}

// What a grant tells: the number of records, and the users' last ones.
fn granted(book: &mut Book, seat: u16) -> Result<Option<(u64, Vec<(User, u64)>)>, Refusal> {
    match book.step(seat, &mut Event::Grant)? {
        BookReply::Granted { count, last } => Ok(Some((count, last))),
        BookReply::Stored { number: _ } | BookReply::Given => Ok(None),
    }
}

// The number under which a commit is stored.
fn stored(alloc: Global, book: &mut Book, seat: u16, bytes: &[u8]) -> Result<Option<u64>, Refusal> {
    let mut event = Event::Commit(Offer::new(Vec::from_slice(alloc, bytes)?));
    match book.step(seat, &mut event)? {
        BookReply::Stored { number } => Ok(Some(number)),
        BookReply::Granted { count: _, last: _ } | BookReply::Given => Ok(None),
    }
}

fn give(book: &mut Book, seat: u16) -> Option<Refusal> {
    book.step(seat, &mut Event::Give).err()
}

#[test]
fn a_book_has_room_and_keys(rt: HostRuntime) -> Result<(), Fail> {
    let alloc = rt.alloc();
    assert_eq!(rt;
        Book::new(alloc, 0, roster(alloc)?).err(),
        Some(Refusal::BadNumber)
    );
    assert_eq!(rt;
        Book::new(alloc, 1, no_keys(alloc)?).err(),
        Some(Refusal::BadKey)
    );
    assert_eq!(rt;
        Cells::<Forgetful>::new(alloc, 0).err(),
        Some(Refusal::BadNumber)
    );
    Ok(())
}

#[test]
fn a_book_of_one_commit(rt: HostRuntime) -> Result<(), Fail> {
    let alloc = rt.alloc();
    let commits = new_commits(alloc)?;
    let mut book = Book::new(alloc, 1, roster(alloc)?)?;
    turns(&rt, alloc, &mut book, &commits.first)?;
    room(&rt, alloc, &mut book, &commits)?;
    full(&rt, alloc, &mut book, &commits)
}

// One seat at a time has the turn.
fn turns(rt: &impl Abort, alloc: Global, book: &mut Book, first: &[u8]) -> Result<(), Fail> {
    let Some((count, last)) = granted(book, 0)? else {
        return Err(Fail::new("not granted"));
    };
    assert_eq!(rt; (count, last.len()), (0, 0));
    assert_eq!(rt; granted(book, 1).err(), Some(Refusal::Busy(0)));
    assert_eq!(rt; stored(alloc, book, 1, first), Err(Refusal::NotYourTurn));
    assert_eq!(rt; give(book, 0), None);
    Ok(())
}

// The second commit is none of the first place.
fn room(rt: &impl Abort, alloc: Global, book: &mut Book, commits: &Commits) -> Result<(), Fail> {
    assert!(rt; granted(book, 1)?.is_some());
    assert_eq!(rt;
        stored(alloc, book, 1, &commits.second),
        Err(Refusal::WrongPrev(0))
    );
    assert_eq!(rt; stored(alloc, book, 1, &commits.first), Ok(Some(1)));
    assert_eq!(rt; give(book, 1), Some(Refusal::NotYourTurn));
    Ok(())
}

// The second commit finds no room, and before that its leaf is looked at.
fn full(rt: &impl Abort, alloc: Global, book: &mut Book, commits: &Commits) -> Result<(), Fail> {
    let Some((count, last)) = granted(book, 0)? else {
        return Err(Fail::new("not granted"));
    };
    assert_eq!(rt; count, 1);
    assert!(rt; last.as_slice() == [(User::new(1)?, 1)].as_slice());
    assert_eq!(rt;
        stored(alloc, book, 0, &commits.again),
        Err(Refusal::KeyReuse)
    );
    assert_eq!(rt;
        stored(alloc, book, 0, &commits.second),
        Err(Refusal::BookFull)
    );
    assert_eq!(rt; book.count(), 1);
    Ok(())
}
