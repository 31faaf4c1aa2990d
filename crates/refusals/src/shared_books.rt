// A book that is shared, where memory is refused, or its keeper fails.
ghost use Rattle.std.specs.Prelude.{◌≡◌, ◌≤◌};

use crate::clients::{Client, Items};
use crate::commits::five_commits;
use crate::faults::{Fault, Mistake, check};
use crate::keepers::FailingKeeper;
use crate::seen::{Seen, asked_again};
use std::alloc::Global;
use std::marker::Brand;
use std::sync::Wait;
use std::sync::ledger::Blank;
use su_block::digest_of;
use su_book::BookReply;
use su_bytes::{Refusal, Roster};
use su_keeper::{Forgetful, Keeper};
use su_shared::{BookName, Cells, Seat, SharedBook};

/// More calls than the keeper of a book is asked for in a row.
const MOST_CALLS: u64 = 1_000;

/// Two seats take turns and store a commit each, which are read, with their items.
pub(crate) fn where_memory_is_refused<R: Wait>(
    rt: &R,
    alloc: Global,
    seen: &mut Seen,
) -> Result<(), Fault> {
    let of = five_commits(alloc, seen)?;
    let roster = of.view.roster().copy()?;
    let cells = Cells::new(alloc, 2)?;
    of_memory::<Brand, _>(rt, alloc, cells, roster, &of, Blank::new(512), seen)
}

fn of_memory<N: BookName, R: Wait>(
    rt: &R,
    alloc: Global,
    cells: Cells<Forgetful>,
    roster: Roster,
    of: &Client<Items>,
    blank: Blank,
    seen: &mut Seen,
) -> Result<(), Fault>
    requires cells { cells ≡ N.cells }
    requires ledger { (blank.name ≡ N.name) × (blank.parts ≡ N.parts) × (257 ≤ N.parts) }
{
    let book: SharedBook<N, Forgetful> = SharedBook::new(alloc, cells, roster, blank, Forgetful)?;
    let (seats, records) = turns(rt, alloc, &book, of, seen)?;
    check(records == 2, Mistake::Record)?;
    let Ok(closed) = book.close(seats) else {
        return Err(Fault::Wrong(Mistake::Book));
    };
    check(closed.records == 2 && closed.calls == 6, Mistake::Book)
}

/// Lets each call of the keeper of a book fail once, while two seats take turns.
pub(crate) fn where_a_keeper_fails<R: Wait>(rt: &R, alloc: Global) -> Result<(), Fault> {
    let of = five_commits(alloc, &mut Seen::none())?;
    for at in 1..MOST_CALLS {
        if !has_failed_at(rt, alloc, &of, at)? {
            return check(4 < at, Mistake::Calls);
        }
    }
    Err(Fault::Wrong(Mistake::Calls))
}

// Lets the call of that number fail, if there is one.
fn has_failed_at<R: Wait>(
    rt: &R,
    alloc: Global,
    of: &Client<Items>,
    at: u64,
) -> Result<bool, Fault> {
    let roster = of.view.roster().copy()?;
    let cells = Cells::new(alloc, 2)?;
    over_keeper::<Brand, _>(rt, alloc, cells, roster, of, Blank::new(512), at)
}

fn over_keeper<N: BookName, R: Wait>(
    rt: &R,
    alloc: Global,
    cells: Cells<FailingKeeper>,
    roster: Roster,
    of: &Client<Items>,
    blank: Blank,
    at: u64,
) -> Result<bool, Fault>
    requires cells { cells ≡ N.cells }
    requires ledger { (blank.name ≡ N.name) × (blank.parts ≡ N.parts) × (257 ≤ N.parts) }
{
    let mut seen = Seen::none();
    let keeper = FailingKeeper::new(alloc, at);
    let book: SharedBook<N, FailingKeeper> = SharedBook::new(alloc, cells, roster, blank, keeper)?;
    let (seats, records) = turns(rt, alloc, &book, of, &mut seen)?;
    let Ok(closed) = book.close(seats) else {
        return Err(Fault::Wrong(Mistake::Book));
    };
    let has_failed = closed.keeper.has_failed();
    check(closed.records == records, Mistake::Book)?;
    check(closed.keeper.count() as u64 == records, Mistake::Record)?;
    check(has_failed == (seen == Seen::Call), Mistake::Calls)?;
    check(has_failed || records == 2, Mistake::Record)?;
    Ok(has_failed)
}

// Two seats take turns. Returns them, and how many commits were stored.
fn turns<N: BookName, K: Keeper, R: Wait>(
    rt: &R,
    alloc: Global,
    book: &SharedBook<N, K>,
    of: &Client<Items>,
    seen: &mut Seen,
) -> Result<(Vec<Seat<N, K>>, u64), Fault> {
    let mut zero = new_seat(rt, alloc, book, seen)?;
    let mut one = new_seat(rt, alloc, book, seen)?;
    grant(rt, alloc, book, &mut zero, 0, seen)?;
    is_busy(rt, alloc, book, &mut one, seen)?;
    give(rt, alloc, book, &mut zero, seen)?;
    let mut records = stores(rt, alloc, book, &mut zero, of, 1, seen)?;
    if records == 1 {
        records = stores(rt, alloc, book, &mut one, of, 2, seen)?;
    }
    let mut seats = Vec::new(alloc);
    seats.push(one)?;
    seats.push(zero)?;
    Ok((seats, records))
}

fn new_seat<N: BookName, K: Keeper, R: Wait>(
    rt: &R,
    alloc: Global,
    book: &SharedBook<N, K>,
    seen: &mut Seen,
) -> Result<Seat<N, K>, Refusal> {
    match book.seat(rt, alloc) {
        Err(Refusal::NoMemory) => {
            *seen = Seen::Call;
            book.seat(rt, alloc)
        }
        told => told,
    }
}

// Takes the turn, after so many records.
fn grant<N: BookName, K: Keeper, R: Wait>(
    rt: &R,
    alloc: Global,
    book: &SharedBook<N, K>,
    seat: &mut Seat<N, K>,
    records: u64,
    seen: &mut Seen,
) -> Result<(), Fault> {
    let kept = seat.kept();
    let (reply, receipt) = asked_again!(
        seen,
        Refusal::SourceFailed,
        seat.kept() == kept,
        book.grant(rt, alloc, seat)
    )?;
    let BookReply::Granted { count, last: _last } = reply else {
        return Err(Fault::Wrong(Mistake::Record));
    };
    check(count == records, Mistake::Record)?;
    check(receipt.is_some() == (0 < records), Mistake::Record)
}

// A seat isn't granted the turn that the first one has.
fn is_busy<N: BookName, K: Keeper, R: Wait>(
    rt: &R,
    alloc: Global,
    book: &SharedBook<N, K>,
    seat: &mut Seat<N, K>,
    seen: &mut Seen,
) -> Result<(), Fault> {
    let kept = seat.kept();
    let told = asked_again!(
        seen,
        Refusal::SourceFailed,
        seat.kept() == kept,
        book.grant(rt, alloc, seat)
    );
    check(told.err() == Some(Refusal::Busy(0)), Mistake::Record)?;
    check(seat.kept() == kept, Mistake::Changed)
}

// Gives the turn back, which can't be done twice.
fn give<N: BookName, K: Keeper, R: Wait>(
    rt: &R,
    alloc: Global,
    book: &SharedBook<N, K>,
    seat: &mut Seat<N, K>,
    seen: &mut Seen,
) -> Result<(), Fault> {
    let kept = seat.kept();
    asked_again!(
        seen,
        Refusal::SourceFailed,
        seat.kept() == kept,
        book.give(rt, alloc, seat)
    )?;
    let told = book.give(rt, alloc, seat);
    check(told == Err(Refusal::NotYourTurn), Mistake::Record)
}

// Takes the turn, stores the commit of that number, and reads it. Returns how many are stored then.
fn stores<N: BookName, K: Keeper, R: Wait>(
    rt: &R,
    alloc: Global,
    book: &SharedBook<N, K>,
    seat: &mut Seat<N, K>,
    of: &Client<Items>,
    number: u64,
    seen: &mut Seen,
) -> Result<u64, Fault> {
    let (commit, item) = of.entry(number)?;
    let mut items = Vec::new(alloc);
    items.push(Vec::from_slice(alloc, item)?)?;
    grant(rt, alloc, book, seat, number.saturating_sub(1), seen)?;
    let stored = store(rt, alloc, book, seat, commit, &items, seen)?;
    if stored != number {
        check(stored == 0, Mistake::Record)?;
        return Ok(number.saturating_sub(1));
    }
    record(rt, alloc, book, seat, number, commit, seen)?;
    item_of(rt, alloc, book, item, seen)?;
    Ok(number)
}

// Stores a commit, and returns its number; 0 where it can't be kept: then it isn't there, nor can be
// kept once more, and the turn is given back.
fn store<N: BookName, K: Keeper, R: Wait>(
    rt: &R,
    alloc: Global,
    book: &SharedBook<N, K>,
    seat: &mut Seat<N, K>,
    commit: &[u8],
    items: &Vec<Vec<u8>>,
    seen: &mut Seen,
) -> Result<u64, Fault> {
    let kept = seat.kept();
    let next = kept.top.saturating_add(1);
    let told = asked_again!(
        seen,
        Refusal::SourceFailed,
        seat.kept() == kept && book.published(seat, next).is_none(),
        book.commit(rt, alloc, seat, commit, items)
    );
    match told {
        Err(Refusal::SourceFailed) => {
            check(seat.kept() == kept, Mistake::Changed)?;
            check(book.published(seat, next).is_none(), Mistake::Record)?;
            give(rt, alloc, book, seat, seen)?;
            Ok(0)
        }
        told => {
            let (number, receipt) = told?;
            check(receipt.number() == number, Mistake::Record)?;
            Ok(number)
        }
    }
}

// Reads the record of a number.
fn record<N: BookName, K: Keeper, R: Wait>(
    rt: &R,
    alloc: Global,
    book: &SharedBook<N, K>,
    seat: &mut Seat<N, K>,
    number: u64,
    commit: &[u8],
    seen: &mut Seen,
) -> Result<(), Fault> {
    let kept = seat.kept();
    let Some(found) = book.published(seat, number) else {
        return Err(Fault::Wrong(Mistake::Record));
    };
    let bytes = asked_again!(
        seen,
        Refusal::SourceFailed,
        seat.kept() == kept && found.number() == number,
        book.record(rt, alloc, found)
    )?;
    check(bytes.as_slice() == commit, Mistake::Record)
}

// Reads an item, where the keeper gives back what it keeps.
fn item_of<N: BookName, K: Keeper, R: Wait>(
    rt: &R,
    alloc: Global,
    book: &SharedBook<N, K>,
    item: &[u8],
    seen: &mut Seen,
) -> Result<(), Fault> {
    let found = asked_again!(
        seen,
        Refusal::SourceFailed,
        true,
        book.item(rt, alloc, digest_of(item))
    )?;
    match found {
        Some(found) => check(found.as_slice() == item, Mistake::Record),
        None => check(!K::gives_back(), Mistake::Record),
    }
}
