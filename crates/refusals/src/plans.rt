// Commands of two users, each planned and carried out.
use crate::clients::{file, roster};
use crate::faults::{Fault, Mistake, check};
use crate::seen::{Seen, again};
use std::alloc::{AllocError, Global};
use su_bytes::{FileId, Inum, Name, Refusal, User};
use su_draft::Command;
use su_no_blocks::NoBlocks;
use su_op::{Change, Create, Op, Rename, Take};
use su_stored_desk::TrialDesk;

/// The desk of these rows.
type Desk = TrialDesk<NoBlocks>;

fn user(number: u64) -> Result<User, Refusal> {
    User::new(number)
}

fn bytes(alloc: Global, text: &[u8]) -> Result<Vec<u8>, AllocError> {
    Vec::from_slice(alloc, text)
}

/// User 1 makes a directory; user 0 a file in it, and moves that to the root directory. Each takes
/// over what the other holds. A path that is none, and a name that isn't there, are refused.
pub(crate) fn of_two_users(alloc: Global, seen: &mut Seen) -> Result<(), Fault> {
    let mut desk = TrialDesk::new(alloc, roster(alloc)?, NoBlocks::new())?;
    make_directory(alloc, &mut desk, seen)?;
    make_file(alloc, &mut desk, seen)?;
    move_file(alloc, &mut desk, seen)?;
    let command = Command::Create {
        path: bytes(alloc, b"d")?,
    };
    refuses(alloc, &mut desk, &command, Refusal::BadPath, seen)?;
    let command = Command::Remove {
        path: bytes(alloc, b"/x")?,
    };
    refuses(alloc, &mut desk, &command, Refusal::NoName, seen)
}

fn make_directory(alloc: Global, desk: &mut Desk, seen: &mut Seen) -> Result<(), Fault> {
    let command = Command::Mkdir {
        path: bytes(alloc, b"/d")?,
    };
    let plan = planned(alloc, desk, user(1)?, &command, seen)?;
    let [first, second] = plan.as_slice() else {
        return Err(Fault::Wrong(Mistake::Plan));
    };
    check(
        is_take(first, FileId::ROOT, 1)? && is_create(second, FileId::ROOT, b"d", 2)?,
        Mistake::Plan,
    )?;
    carry_out(alloc, desk, user(1)?, plan, seen)
}

fn make_file(alloc: Global, desk: &mut Desk, seen: &mut Seen) -> Result<(), Fault> {
    let command = Command::Create {
        path: bytes(alloc, b"/d/f")?,
    };
    let plan = planned(alloc, desk, User::FIRST, &command, seen)?;
    let [first, second] = plan.as_slice() else {
        return Err(Fault::Wrong(Mistake::Plan));
    };
    check(
        is_take(first, file(2)?, 2)? && is_create(second, file(2)?, b"f", 3)?,
        Mistake::Plan,
    )?;
    carry_out(alloc, desk, User::FIRST, plan, seen)
}

fn move_file(alloc: Global, desk: &mut Desk, seen: &mut Seen) -> Result<(), Fault> {
    let command = Command::Rename {
        old_: bytes(alloc, b"/d/f")?,
        new_: bytes(alloc, b"/f")?,
    };
    let plan = planned(alloc, desk, User::FIRST, &command, seen)?;
    let [first, second] = plan.as_slice() else {
        return Err(Fault::Wrong(Mistake::Plan));
    };
    check(
        is_take(first, FileId::ROOT, 4)? && is_move(second)?,
        Mistake::Plan,
    )?;
    carry_out(alloc, desk, User::FIRST, plan, seen)
}

fn planned(
    alloc: Global,
    desk: &mut Desk,
    user: User,
    command: &Command,
    seen: &mut Seen,
) -> Result<Vec<Op>, Fault> {
    let count = desk.history().len();
    let plan = again!(
        seen,
        desk.history().len() == count,
        su_stored_plan::plan(alloc, desk, user, command)
    )?;
    Ok(plan)
}

fn refuses(
    alloc: Global,
    desk: &mut Desk,
    command: &Command,
    refusal: Refusal,
    seen: &mut Seen,
) -> Result<(), Fault> {
    let count = desk.history().len();
    let told = again!(
        seen,
        desk.history().len() == count,
        su_stored_plan::plan(alloc, desk, User::FIRST, command)
    );
    check(told.err() == Some(refusal), Mistake::Plan)
}

fn carry_out(
    alloc: Global,
    desk: &mut Desk,
    user: User,
    plan: Vec<Op>,
    seen: &mut Seen,
) -> Result<(), Fault> {
    for operation in plan {
        let change = Change::of(alloc, operation);
        let count = desk.history().len();
        let _number = again!(
            seen,
            desk.history().len() == count,
            desk.apply(user, change.clone()?)
        )?;
    }
    Ok(())
}

// Whether it takes that file over, to a body of that number.
fn is_take(operation: &Op, taken: FileId, number: u64) -> Result<bool, Refusal> {
    match operation {
        Op::Take(Take { file, body }) => Ok(*file == taken && *body == Inum::new(number)?),
        _ => Ok(false),
    }
}

/// Whether it makes the file of that number of group 0, of the same body, so.
pub(crate) fn is_create(
    operation: &Op,
    place: FileId,
    called: &[u8],
    number: u64,
) -> Result<bool, Refusal> {
    match operation {
        Op::Create(
            Create {
                dir,
                file: made,
                body,
                kind: _kind,
                name,
            },
        ) => Ok(
            *dir == place
                && *made == file(number)?
                && *body == Inum::new(number)?
                && name.as_bytes() == called,
        ),
        _ => Ok(false),
    }
}

// Whether it moves `f`, the file 3 of group 0, from its directory 2 to the root directory.
fn is_move(operation: &Op) -> Result<bool, Refusal> {
    match operation {
        Op::Rename(
            Rename {
                from_,
                old_,
                to_,
                new_,
                file: moved,
            },
        ) => Ok(
            *from_ == file(2)?
                && *to_ == FileId::ROOT
                && *moved == file(3)?
                && is_f(old_)
                && is_f(new_),
        ),
        _ => Ok(false),
    }
}

fn is_f(name: &Name) -> bool {
    name.as_bytes() == b"f".as_slice()
}
