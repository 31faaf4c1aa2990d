// A desk that is shed after each change answers as one that isn't; and what it answers where its
// source has a fault, or fails once, at each of its calls.
use crate::desks::{StoredDesk, handle_of, mend, set_fault, stored_desk, two_users};
use crate::sources::Fault;
use std::alloc::Global;
use std::process::Abort;
use std::test::Fail;
use su_block::{BlockSource, MemoryBlocks};
use su_block_cache::BlockCache;
use su_bytes::{Digest, FileId, Inum, Kind, Name, Refusal, User};
use su_fail_once::FailOnce;
use su_files::{list, read_at};
use su_op::{Change, Create, Op, Write};
use su_stored_desk::TrialDesk;

// More calls than a row makes.
const MOST_CALLS: u64 = 10_000;

// User 0's file of this number.
fn file(number: u64) -> Result<FileId, Refusal> {
    Ok(FileId::User(User::FIRST, Inum::new(number)?))
}

// User 0 makes a file or a directory of that number.
fn make(
    alloc: Global,
    dir: FileId,
    name: &[u8],
    number: u64,
    kind: Kind,
) -> Result<Change, Refusal> {
    let create = Create {
        dir,
        name: Name::new(alloc, name)?,
        file: file(number)?,
        body: Inum::new(number)?,
        kind,
    };
    Ok(Change::of(alloc, Op::Create(create)))
}

// User 0 writes to the file 3.
fn write(alloc: Global, off: u32, bytes: &[u8]) -> Result<Change, Refusal> {
    let write = Write {
        file: file(3)?,
        off,
        bytes: Vec::from_slice(alloc, bytes)?,
    };
    Ok(Change::of(alloc, Op::Write(write)))
}

// What follows asks a second time where the source has failed.

// User 0 makes a change, and all is left on the store, with what is kept of live operations. Tells
// the number of it, and the i-handle of user 0 then.
fn carry_out<S: BlockSource>(
    desk: &mut TrialDesk<S>,
    change: Change,
) -> Result<(u64, Digest), Refusal> {
    let prepared = match desk.prepare(User::FIRST, change.clone()?) {
        Err(Refusal::SourceFailed) => desk.prepare(User::FIRST, change)?,
        told => told?,
    };
    let handle = prepared.author_handle;
    let number = desk.settle(prepared);
    leave(desk)?;
    Ok((number, handle))
}

fn leave<S: BlockSource>(desk: &mut TrialDesk<S>) -> Result<(), Refusal> {
    match desk.shed() {
        Err(Refusal::SourceFailed) => desk.shed()?,
        told => told?,
    }
    match desk.leave_kept() {
        Err(Refusal::SourceFailed) => desk.leave_kept(),
        told => told,
    }
}

fn undo_last<S: BlockSource>(desk: &mut TrialDesk<S>) -> Result<u64, Refusal> {
    match desk.undo_last(User::FIRST) {
        Err(Refusal::SourceFailed) => desk.undo_last(User::FIRST),
        told => told,
    }
}

fn read<S: BlockSource>(desk: &mut TrialDesk<S>) -> Result<Vec<u8>, Refusal> {
    match read_at(desk, file(3)?, 0, 9) {
        Err(Refusal::SourceFailed) => read_at(desk, file(3)?, 0, 9),
        told => told,
    }
}

fn handle<S: BlockSource>(desk: &mut TrialDesk<S>) -> Result<Digest, Refusal> {
    match handle_of(desk, User::FIRST) {
        Err(Refusal::SourceFailed) => handle_of(desk, User::FIRST),
        told => told,
    }
}

// The directory 2 with the file 3 in it is made, which says `hello`. Tells the i-handle of user 0
// then.
fn say_hello<S: BlockSource>(
    rt: &impl Abort,
    alloc: Global,
    desk: &mut TrialDesk<S>,
) -> Result<Digest, Fail> {
    let directory = make(alloc, FileId::ROOT, b"d", 2, Kind::Dir)?;
    assert_eq!(rt; carry_out(desk, directory)?.0, 1);
    let empty = make(alloc, file(2)?, b"f", 3, Kind::File)?;
    assert_eq!(rt; carry_out(desk, empty)?.0, 2);
    let (number, handle) = carry_out(desk, write(alloc, 0, b"hello")?)?;
    assert_eq!(rt; number, 3);
    Ok(handle)
}

// What is written behind it is undone.
fn take_you_back<S: BlockSource>(
    rt: &impl Abort,
    alloc: Global,
    desk: &mut TrialDesk<S>,
) -> Result<Digest, Fail> {
    let (number, _handle) = carry_out(desk, write(alloc, 5, b" you")?)?;
    assert_eq!(rt; number, 4);
    assert!(rt; read(desk)?.as_slice() == b"hello you".as_slice());
    assert_eq!(rt; undo_last(desk)?, 5);
    leave(desk)?;
    assert!(rt; read(desk)?.as_slice() == b"hello".as_slice());
    Ok(handle(desk)?)
}

// The version numbers are these of users 0 and 1, and groups 0 and 1.
fn has_versions<S: BlockSource>(rt: &impl Abort, desk: &TrialDesk<S>, numbers: [u64; 4]) {
    assert_eq!(rt; desk.versions().len(), 4);
    for (version, number) in desk.versions().iter().zip(numbers) {
        assert_eq!(rt; version.1, number);
    }
}

#[test]
fn a_desk_that_is_shed_answers_alike(rt: HostRuntime) -> Result<(), Fail> {
    for capacity in [1, 1_000] {
        let mut desk = stored_desk(rt.alloc(), capacity)?;
        let handle = say_hello(&rt, rt.alloc(), &mut desk)?;
        assert_eq!(rt; take_you_back(&rt, rt.alloc(), &mut desk)?, handle);
        has_versions(&rt, &desk, [5, 0, 0, 0]);
    }
    Ok(())
}

// All that is made over a source of which the call of that number fails. Tells how often it has
// failed.
fn go_on_after(rt: &impl Abort, alloc: Global, capacity: usize, at: u64) -> Result<u64, Fail> {
    let source = FailOnce::new(MemoryBlocks::new(alloc), at);
    let source = BlockCache::new(alloc, source, capacity)?;
    let mut desk = TrialDesk::new(alloc, two_users(alloc)?, source)?;
    let handle = say_hello(rt, alloc, &mut desk)?;
    assert_eq!(rt; take_you_back(rt, alloc, &mut desk)?, handle, "call {at}");
    has_versions(rt, &desk, [5, 0, 0, 0]);
    Ok(desk.source_mut().failures())
}

// Each call of the source fails once, until there is no such call. Tells how many there were.
fn calls_that_fail(rt: &impl Abort, alloc: Global, capacity: usize) -> Result<u64, Fail> {
    for at in 1..MOST_CALLS {
        if go_on_after(rt, alloc, capacity, at)? == 0 {
            return Ok(at - 1);
        }
    }
    Err("there is no end of calls".into())
}

#[test]
fn a_call_that_fails_changes_nothing(rt: HostRuntime) -> Result<(), Fail> {
    for capacity in [1, 1_000] {
        assert!(rt; 20 < calls_that_fail(&rt, rt.alloc(), capacity)?);
    }
    Ok(())
}

// Each fault of the source is told of a list, and the source is mended.
fn faults_are_told(rt: &impl Abort, desk: &mut StoredDesk) -> Result<(), Fail> {
    for fault in [Fault::Lacks, Fault::Lies, Fault::Fails] {
        set_fault(desk, fault, 0, true);
        let listed = list(desk, file(2)?);
        mend(desk);
        let Err(refusal) = listed else {
            return Err("listed".into());
        };
        assert_eq!(rt; refusal, fault.refusal());
    }
    Ok(())
}

#[test]
fn a_fault_is_told_and_then_the_names(rt: HostRuntime) -> Result<(), Fail> {
    let mut desk = stored_desk(rt.alloc(), 1)?;
    say_hello(&rt, rt.alloc(), &mut desk)?;
    faults_are_told(&rt, &mut desk)?;
    let names = list(&mut desk, file(2)?)?;
    assert_eq!(rt; names.len(), 1);
    assert!(rt; names[0].0.as_bytes() == b"f".as_slice());
    assert_eq!(rt; names[0].1, file(3)?);
    Ok(())
}
