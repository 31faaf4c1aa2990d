// Two threads at one book.
ghost use Rattle.std.specs.Prelude.{◌≡◌, ◌≤◌};

use crate::books::new_commits;
use crate::clients::roster;
use std::alloc::Global;
use std::marker::Brand;
use std::process::Abort;
use std::sync::ledger::Blank;
use std::sync::{Mutex, Wait};
use std::test::Fail;
use std::thread::{Threads, join, sleep};
use std::time::{Clock, Duration};
use su_bytes::Roster;
use su_keeper::Forgetful;
use su_shared::{BookName, Cells, Receipt, Seat, SharedBook};

#[test]
fn two_threads_at_one_book(rt: HostRuntime) -> Result<(), Fail> {
    let alloc = rt.alloc();
    let commits = new_commits(alloc)?;
    let roster = roster(alloc)?;
    let cells = Cells::new(alloc, 4)?;
    hand_over::<Brand, _>(&rt, alloc, cells, roster, &commits.first, Blank::new(512))
}

// One seat stores a commit, and hands its receipt to the other's thread.
fn hand_over<N: BookName + Send + Sync, R: Threads + Wait + Abort + Clock + Sync>(
    rt: &R,
    alloc: Global,
    cells: Cells<Forgetful>,
    roster: Roster,
    commit: &[u8],
    blank: Blank,
) -> Result<(), Fail>
    requires cells { cells ≡ N.cells }
    requires ledger { (blank.name ≡ N.name) × (blank.parts ≡ N.parts) × (257 ≤ N.parts) }
{
    let book: SharedBook<N, Forgetful> = SharedBook::new(alloc, cells, roster, blank, Forgetful)?;
    let shared = &book;
    let zero = shared.seat(rt, alloc)?;
    let one = shared.seat(rt, alloc)?;
    let slot = &Mutex::new(None);
    let (a, b) = join(
        rt,
        move || store(rt, alloc, shared, zero, commit, slot),
        move || read(rt, shared, one, commit, slot),
    );
    let zero = a.ok_or("not stored")?;
    let one = b.ok_or("not read")?;
    let mut seats = Vec::new(alloc);
    seats.push(zero)?;
    let Err((unshared, mut seats)) = book.close(seats) else {
        return Err(Fail::new("closed with one seat"));
    };
    assert_eq!(rt; seats.len(), 1);
    let book = unshared.share();
    seats.push(one)?;
    let Ok(closed) = book.close(seats) else {
        return Err(Fail::new("not closed"));
    };
    assert_eq!(rt; closed.records, 1);
    assert_eq!(rt; closed.calls, 2);
    Ok(())
}

fn store<N: BookName, R: Wait + Abort>(
    rt: &R,
    alloc: Global,
    book: &SharedBook<N, Forgetful>,
    mut seat: Seat<N, Forgetful>,
    commit: &[u8],
    slot: &Mutex<Option<Receipt<N, Forgetful>>>,
) -> Option<Seat<N, Forgetful>> {
    let (_reply, receipt) = book.grant(rt, alloc, &mut seat).ok()?;
    assert!(rt; receipt.is_none());
    let (number, receipt) = book
        .commit(rt, alloc, &mut seat, commit, &Vec::new(alloc))
        .ok()?;
    assert_eq!(rt; number, 1);
    *slot.lock(rt) = Some(receipt);
    Some(seat)
}

fn read<N: BookName, R: Wait + Abort + Clock>(
    rt: &R,
    book: &SharedBook<N, Forgetful>,
    mut seat: Seat<N, Forgetful>,
    commit: &[u8],
    slot: &Mutex<Option<Receipt<N, Forgetful>>>,
) -> Option<Seat<N, Forgetful>> {
    let mut receipt = taken(rt, slot)?;
    seat.learn(&mut receipt);
    let record = book.published(&mut seat, 1)?;
    assert!(rt; record.bytes() == Some(commit));
    assert!(rt; book.published(&mut seat, 2).is_none());
    Some(seat)
}

// Takes the receipt out of the slot, once it is there.
fn taken<N: BookName, R: Wait + Clock>(
    rt: &R,
    slot: &Mutex<Option<Receipt<N, Forgetful>>>,
) -> Option<Receipt<N, Forgetful>> {
    for _ in 0..10_000 {
        if let Some(receipt) = slot.lock(rt).take() {
            return Some(receipt);
        }
        sleep(rt, Duration::from_millis(1));
    }
    None
}
