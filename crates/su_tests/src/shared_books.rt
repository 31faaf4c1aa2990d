// What a shared book answers its seats.
ghost use Rattle.std.specs.Prelude.{◌≡◌, ◌≤◌};

use crate::books::{Commits, new_commits, no_keys};
use crate::clients::roster;
use std::alloc::Global;
use std::marker::Brand;
use std::process::Abort;
use std::sync::Wait;
use std::sync::ledger::Blank;
use std::test::Fail;
use su_book::BookReply;
use su_bytes::{Refusal, Roster};
use su_keeper::Forgetful;
use su_shared::{BookName, Cells, Seat, SharedBook};

/// The number of records that a grant tells, and that of the record of its receipt.
fn granted<N: BookName>(
    rt: &impl Wait,
    alloc: Global,
    book: &SharedBook<N, Forgetful>,
    seat: &mut Seat<N, Forgetful>,
) -> Result<Option<(u64, Option<u64>)>, Refusal> {
    let (reply, receipt) = book.grant(rt, alloc, seat)?;
    let number = match &receipt {
        Some(receipt) => Some(receipt.number()),
        None => None,
    };
    match reply {
        BookReply::Granted { count, last: _ } => Ok(Some((count, number))),
        BookReply::Stored { number: _ } | BookReply::Given => Ok(None),
    }
}

/// The number under which a commit is stored, which is that of its receipt.
fn stored<N: BookName>(
    rt: &impl Wait,
    alloc: Global,
    book: &SharedBook<N, Forgetful>,
    seat: &mut Seat<N, Forgetful>,
    bytes: &[u8],
) -> Result<(u64, u64), Refusal> {
    let (number, receipt) = book.commit(rt, alloc, seat, bytes, &Vec::new(alloc))?;
    Ok((number, receipt.number()))
}

#[test]
fn a_shared_book_of_one_commit(rt: HostRuntime) -> Result<(), Fail> {
    let alloc = rt.alloc();
    let commits = new_commits(alloc)?;
    let roster = roster(alloc)?;
    let cells = Cells::new(alloc, 1)?;
    one_commit::<Brand, _>(&rt, alloc, cells, roster, &commits, Blank::new(512))
}

fn one_commit<N: BookName, R: Wait + Abort>(
    rt: &R,
    alloc: Global,
    cells: Cells<Forgetful>,
    roster: Roster,
    commits: &Commits,
    blank: Blank,
) -> Result<(), Fail>
    requires cells { cells ≡ N.cells }
    requires ledger { (blank.name ≡ N.name) × (blank.parts ≡ N.parts) × (257 ≤ N.parts) }
{
    let book: SharedBook<N, Forgetful> = SharedBook::new(alloc, cells, roster, blank, Forgetful)?;
    let mut zero = book.seat(rt, alloc)?;
    let mut one = book.seat(rt, alloc)?;
    turns(rt, alloc, &book, &mut zero, &mut one, &commits.first)?;
    room(rt, alloc, &book, &mut one, commits)?;
    full(rt, alloc, &book, &mut zero, commits)
}

// One seat at a time has the turn.
fn turns<N: BookName, R: Wait + Abort>(
    rt: &R,
    alloc: Global,
    book: &SharedBook<N, Forgetful>,
    zero: &mut Seat<N, Forgetful>,
    one: &mut Seat<N, Forgetful>,
    first: &[u8],
) -> Result<(), Fail> {
    assert_eq!(rt; granted(rt, alloc, book, zero), Ok(Some((0, None))));
    assert_eq!(rt; granted(rt, alloc, book, one), Err(Refusal::Busy(0)));
    assert_eq!(rt;
        stored(rt, alloc, book, one, first),
        Err(Refusal::NotYourTurn)
    );
    assert_eq!(rt; book.give(rt, alloc, zero), Ok(()));
    Ok(())
}

// The second commit is none of the first place.
fn room<N: BookName, R: Wait + Abort>(
    rt: &R,
    alloc: Global,
    book: &SharedBook<N, Forgetful>,
    one: &mut Seat<N, Forgetful>,
    commits: &Commits,
) -> Result<(), Fail> {
    assert_eq!(rt; granted(rt, alloc, book, one), Ok(Some((0, None))));
    assert_eq!(rt;
        stored(rt, alloc, book, one, &commits.second),
        Err(Refusal::WrongPrev(0))
    );
    assert_eq!(rt; stored(rt, alloc, book, one, &commits.first), Ok((1, 1)));
    assert_eq!(rt; book.give(rt, alloc, one), Err(Refusal::NotYourTurn));
    Ok(())
}

// The second commit finds no room, and before that its leaf is looked at.
fn full<N: BookName, R: Wait + Abort>(
    rt: &R,
    alloc: Global,
    book: &SharedBook<N, Forgetful>,
    zero: &mut Seat<N, Forgetful>,
    commits: &Commits,
) -> Result<(), Fail> {
    assert_eq!(rt; granted(rt, alloc, book, zero), Ok(Some((1, Some(1)))));
    assert_eq!(rt;
        stored(rt, alloc, book, zero, &commits.again),
        Err(Refusal::KeyReuse)
    );
    assert_eq!(rt;
        stored(rt, alloc, book, zero, &commits.second),
        Err(Refusal::BookFull)
    );
    Ok(())
}

#[test]
fn a_seat_is_told_what_it_stored(rt: HostRuntime) -> Result<(), Fail> {
    let alloc = rt.alloc();
    let commits = new_commits(alloc)?;
    let roster = roster(alloc)?;
    let cells = Cells::new(alloc, 2)?;
    two_commits::<Brand, _>(&rt, alloc, cells, roster, &commits, Blank::new(512))
}

fn two_commits<N: BookName, R: Wait + Abort>(
    rt: &R,
    alloc: Global,
    cells: Cells<Forgetful>,
    roster: Roster,
    commits: &Commits,
    blank: Blank,
) -> Result<(), Fail>
    requires cells { cells ≡ N.cells }
    requires ledger { (blank.name ≡ N.name) × (blank.parts ≡ N.parts) × (257 ≤ N.parts) }
{
    let book: SharedBook<N, Forgetful> = SharedBook::new(alloc, cells, roster, blank, Forgetful)?;
    let mut seat = book.seat(rt, alloc)?;
    two_stored(rt, alloc, &book, &mut seat, commits)?;
    all_seats(rt, alloc, &book)
}

fn two_stored<N: BookName, R: Wait + Abort>(
    rt: &R,
    alloc: Global,
    book: &SharedBook<N, Forgetful>,
    seat: &mut Seat<N, Forgetful>,
    commits: &Commits,
) -> Result<(), Fail> {
    assert_eq!(rt; granted(rt, alloc, book, seat), Ok(Some((0, None))));
    assert_eq!(rt; stored(rt, alloc, book, seat, &commits.first), Ok((1, 1)));
    assert_eq!(rt; granted(rt, alloc, book, seat), Ok(Some((1, Some(1)))));
    assert_eq!(rt; stored(rt, alloc, book, seat, &commits.second), Ok((2, 2)));
    assert_eq!(rt; granted(rt, alloc, book, seat), Ok(Some((2, Some(2)))));
    for (number, found) in [(0, false), (1, true), (2, true), (3, false)] {
        assert_eq!(rt; book.published(seat, number).is_some(), found);
    }
    Ok(())
}

// One seat was made before.
fn all_seats<N: BookName, R: Wait + Abort>(
    rt: &R,
    alloc: Global,
    book: &SharedBook<N, Forgetful>,
) -> Result<(), Fail> {
    for number in 1..256u16 {
        assert_eq!(rt; book.seat(rt, alloc)?.number(), number);
    }
    assert_eq!(rt; book.seat(rt, alloc).err(), Some(Refusal::BadNumber));
    Ok(())
}

#[test]
fn a_shared_book_has_keys(rt: HostRuntime) -> Result<(), Fail> {
    let alloc = rt.alloc();
    let roster = no_keys(alloc)?;
    let cells = Cells::new(alloc, 1)?;
    let refusal = refused::<Brand>(alloc, cells, roster, Blank::new(512));
    assert_eq!(rt; refusal, Some(Refusal::BadKey));
    Ok(())
}

fn refused<N: BookName>(
    alloc: Global,
    cells: Cells<Forgetful>,
    roster: Roster,
    blank: Blank,
) -> Option<Refusal>
    requires cells { cells ≡ N.cells }
    requires ledger { (blank.name ≡ N.name) × (blank.parts ≡ N.parts) × (257 ≤ N.parts) }
{
    SharedBook::<N, _>::new(alloc, cells, roster, blank, Forgetful).err()
}
