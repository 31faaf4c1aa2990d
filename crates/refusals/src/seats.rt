// Two seats of a book, each in a thread of its own.
ghost use Rattle.std.specs.Prelude.{◌≡◌, ◌≤◌};

use crate::clients::{create, new_client, roster};
use crate::faults::{Fault, Mistake, check};
use crate::seen::{Seen, again};
use std::alloc::Global;
use std::marker::Brand;
use std::sync::ledger::Blank;
use std::sync::{Mutex, Wait};
use std::thread::{Threads, join, sleep};
use std::time::{Clock, Duration};
use su_bytes::{Refusal, Roster};
use su_keeper::Forgetful;
use su_shared::{BookName, Cells, Receipt, Seat, SharedBook};

/// How many milliseconds are waited at most until the other thread has stored a commit.
const MOST_WAITED: u32 = 10_000;

/// One seat takes the turn and stores a commit, and hands its receipt to the other's thread, which
/// finds the record. A book is closed with all of its seats alone.
pub(crate) fn in_two_threads<R: Threads + Wait + Clock + Sync>(
    rt: &R,
    alloc: Global,
    seen: &mut Seen,
) -> Result<(), Fault> {
    let commit = first_commit(alloc, seen)?;
    let roster = roster(alloc)?;
    let cells = Cells::new(alloc, 4)?;
    hand_over::<Brand, _>(rt, alloc, cells, roster, &commit, Blank::new(512), seen)
}

// The first commit of user 0.
fn first_commit(alloc: Global, seen: &mut Seen) -> Result<Vec<u8>, Fault> {
    let mut zero = new_client(alloc, 0)?;
    zero.commit(create(alloc, b"a", 2)?, seen)?;
    let (bytes, _item) = zero.entry(1)?;
    Ok(Vec::from_slice(alloc, bytes)?)
}

fn hand_over<N: BookName + Send + Sync, R: Threads + Wait + Clock + Sync>(
    rt: &R,
    alloc: Global,
    cells: Cells<Forgetful>,
    roster: Roster,
    commit: &[u8],
    blank: Blank,
    seen: &mut Seen,
) -> Result<(), Fault>
    requires cells { cells ≡ N.cells }
    requires ledger { (blank.name ≡ N.name) × (blank.parts ≡ N.parts) × (257 ≤ N.parts) }
{
    let book: SharedBook<N, Forgetful> = SharedBook::new(alloc, cells, roster, blank, Forgetful)?;
    let shared = &book;
    let zero = again!(seen, true, shared.seat(rt, alloc))?;
    let one = again!(seen, true, shared.seat(rt, alloc))?;
    let slot = &Mutex::new(None);
    // (where no thread can be started, what comes second is done first)
    let (read, stored) = join(
        rt,
        move || read(rt, shared, one, commit, slot).ok(),
        move || store(rt, alloc, shared, zero, commit, slot).ok(),
    );
    let (Some((zero, was_refused)), Some(one)) = (stored, read) else {
        return Err(Fault::Wrong(Mistake::Record));
    };
    if was_refused {
        *seen = Seen::Call;
    }
    close(alloc, book, zero, one)
}

// A book isn't closed with one of its two seats, and then with both.
fn close<N: BookName>(
    alloc: Global,
    book: SharedBook<N, Forgetful>,
    zero: Seat<N, Forgetful>,
    one: Seat<N, Forgetful>,
) -> Result<(), Fault> {
    let mut seats = Vec::new(alloc);
    seats.push(zero)?;
    let Err((unshared, mut seats)) = book.close(seats) else {
        return Err(Fault::Wrong(Mistake::Book));
    };
    check(seats.len() == 1, Mistake::Book)?;
    let book = unshared.share();
    seats.push(one)?;
    let Ok(closed) = book.close(seats) else {
        return Err(Fault::Wrong(Mistake::Book));
    };
    check(closed.records == 1 && closed.calls == 2, Mistake::Book)
}

// Takes the turn and stores the commit, and hands over its receipt. Tells whether a call was refused,
// and made once more.
fn store<N: BookName, R: Wait>(
    rt: &R,
    alloc: Global,
    book: &SharedBook<N, Forgetful>,
    mut seat: Seat<N, Forgetful>,
    commit: &[u8],
    slot: &Mutex<Option<Receipt<N, Forgetful>>>,
) -> Result<(Seat<N, Forgetful>, bool), Fault> {
    let mut seen = Seen::none();
    let items = Vec::new(alloc);
    let (_reply, receipt) = again!(seen, true, book.grant(rt, alloc, &mut seat))?;
    check(receipt.is_none(), Mistake::Record)?;
    let (number, receipt) = again!(
        seen,
        true,
        book.commit(rt, alloc, &mut seat, commit, &items)
    )?;
    check(number == 1, Mistake::Commit)?;
    *slot.lock(rt) = Some(receipt);
    Ok((seat, seen == Seen::Call))
}

// Waits for the receipt, and finds its record and no other.
fn read<N: BookName, R: Wait + Clock>(
    rt: &R,
    book: &SharedBook<N, Forgetful>,
    mut seat: Seat<N, Forgetful>,
    commit: &[u8],
    slot: &Mutex<Option<Receipt<N, Forgetful>>>,
) -> Result<Seat<N, Forgetful>, Fault> {
    let Some(mut receipt) = taken(rt, slot) else {
        return Err(Fault::Wrong(Mistake::Record));
    };
    seat.learn(&mut receipt);
    let Some(record) = book.published(&mut seat, 1) else {
        return Err(Fault::Wrong(Mistake::Record));
    };
    check(record.bytes() == Some(commit), Mistake::Record)?;
    check(book.published(&mut seat, 2).is_none(), Mistake::Record)?;
    Ok(seat)
}

// Takes the receipt out of the slot, once it is there.
fn taken<N: BookName, R: Wait + Clock>(
    rt: &R,
    slot: &Mutex<Option<Receipt<N, Forgetful>>>,
) -> Option<Receipt<N, Forgetful>> {
    for _ in 0..MOST_WAITED {
        if let Some(receipt) = slot.lock(rt).take() {
            return Some(receipt);
        }
        sleep(rt, Duration::from_millis(1));
    }
    None
}
