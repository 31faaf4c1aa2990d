// A desk whose tree is left on its store before each of its calls.
ghost use Rattle.std.specs.Prelude.{◌≡◌, true};

use crate::clients::{create, file, take, write};
use crate::faults::{Fault, Mistake, check};
use crate::meets::{Meets, once_more};
use std::alloc::Global;
use su_block::BlockSource;
use su_bytes::{Digest, FileId, Group, KEY_LENGTH, Refusal, Roster, User};
use su_files::read;
use su_op::{Batch, Change, Op};
use su_stored_desk::TrialDesk;

/// Makes the roster of the users 0 and 1, who are both in group 0. Neither signs.
pub(crate) fn two_users(alloc: Global) -> Result<Roster, Refusal> {
    Roster::of_keys(alloc, &[[0; KEY_LENGTH], [1; KEY_LENGTH]])
}

/// Returns user 1.
pub(crate) fn other() -> Result<User, Refusal> {
    User::new(1)
}

/// What is settled on a desk.
#[derive(Drop)]
pub(crate) struct DeskState {
    count: usize,
    live: Vec<u64>,
    handles: [Digest; 3],
}

impl DeskState {
    /// Lends the numbers of the live operations.
    pub(crate) fn live(&self) -> &[u64] {
        self.live.as_slice()
    }
}

/// Returns what is settled on a desk. What stands ready is taken back.
pub(crate) fn settled<S: BlockSource>(desk: &mut TrialDesk<S>) -> Result<DeskState, Fault> {
    // names the types for the prover (docs/ARCHITECTURE.md, "Forms the kit wants")
    let _none: (Option<FileId>, Option<Refusal>) = (None, None);
    let other = other()?;
    desk.take_back()?;
    Ok(DeskState {
        count: desk.history().len(),
        live: desk.live()?,
        handles: [
            desk.i_handle(User::FIRST),
            desk.i_handle(other),
            desk.group_handle(Group::FIRST),
        ],
    })
}

/// Tells whether that is settled on a desk. What stands ready is taken back.
pub(crate) fn is_settled<S: BlockSource>(
    desk: &mut TrialDesk<S>,
    before: &DeskState,
) -> Result<bool, Fault> {
    // names the types for the prover (docs/ARCHITECTURE.md, "Forms the kit wants")
    let _none: (Option<FileId>, Option<Refusal>) = (None, None);
    let now = settled(desk)?;
    Ok(
        now.count == before.count
            && now.live.as_slice() == before.live.as_slice()
            && now.handles == before.handles,
    )
}

/// Leaves all of a desk on its store, and tells what is settled on it, where nothing stands ready.
pub(crate) fn left<S: BlockSource>(
    desk: &mut TrialDesk<S>,
    meets: &mut Meets,
) -> Result<DeskState, Fault> {
    // names the types for the prover (docs/ARCHITECTURE.md, "Forms the kit wants")
    let _none: (Option<FileId>, Option<Refusal>) = (None, None);
    leave(desk, meets)?;
    settled(desk)
}

/// Leaves all of a desk on its store, with what is kept of its operations.
fn leave<S: BlockSource>(desk: &mut TrialDesk<S>, meets: &mut Meets) -> Result<(), Fault> {
    // names the types for the prover (docs/ARCHITECTURE.md, "Forms the kit wants")
    let _none: (Option<FileId>, Option<Refusal>) = (None, None);
    let count = desk.history().len();
    once_more!(meets, desk.history().len() == count, desk.shed())?;
    once_more!(meets, desk.history().len() == count, desk.leave_kept())?;
    Ok(())
}

/// Makes a change for good. Tells its number.
pub(crate) fn applied<S: BlockSource>(
    desk: &mut TrialDesk<S>,
    meets: &mut Meets,
    author: User,
    change: &Change,
) -> Result<u64, Fault> {
    // names the types for the prover (docs/ARCHITECTURE.md, "Forms the kit wants")
    let _none: (Option<FileId>, Option<Refusal>) = (None, None);
    let before = left(desk, meets)?;
    let number = once_more!(
        meets,
        is_settled(desk, &before)?,
        desk.apply(author, change.clone()?)
    )?;
    Ok(number)
}

/// User 0 makes a change on trial, and it is settled. Tells its number.
fn made_ready<S: BlockSource>(
    desk: &mut TrialDesk<S>,
    meets: &mut Meets,
    change: &Change,
) -> Result<u64, Fault> {
    // names the types for the prover (docs/ARCHITECTURE.md, "Forms the kit wants")
    let _none: (Option<FileId>, Option<Refusal>) = (None, None);
    let before = left(desk, meets)?;
    let prepared = once_more!(
        meets,
        is_settled(desk, &before)?,
        desk.prepare(User::FIRST, change.clone()?)
    )?;
    Ok(desk.settle(prepared))
}

/// User 0 makes a change on trial, which is taken back.
fn taken_back<S: BlockSource>(
    desk: &mut TrialDesk<S>,
    meets: &mut Meets,
    change: &Change,
) -> Result<(), Fault> {
    // names the types for the prover (docs/ARCHITECTURE.md, "Forms the kit wants")
    let _none: (Option<FileId>, Option<Refusal>) = (None, None);
    let before = left(desk, meets)?;
    let _prepared = once_more!(
        meets,
        is_settled(desk, &before)?,
        desk.prepare(User::FIRST, change.clone()?)
    )?;
    leave(desk, meets)?;
    let count = desk.history().len();
    once_more!(meets, desk.history().len() == count, desk.take_back())?;
    check(is_settled(desk, &before)?, Mistake::Changed)
}

/// User 0 undoes the last operation. Tells the number of that.
fn undone<S: BlockSource>(desk: &mut TrialDesk<S>, meets: &mut Meets) -> Result<u64, Fault> {
    // names the types for the prover (docs/ARCHITECTURE.md, "Forms the kit wants")
    let _none: (Option<FileId>, Option<Refusal>) = (None, None);
    let before = left(desk, meets)?;
    let number = once_more!(
        meets,
        is_settled(desk, &before)?,
        desk.undo_last(User::FIRST)
    )?;
    Ok(number)
}

/// User 0's operations are rehearsed, and nothing is settled.
fn rehearsed<S: BlockSource>(
    desk: &mut TrialDesk<S>,
    meets: &mut Meets,
    operations: &[Op],
) -> Result<(), Fault> {
    // names the types for the prover (docs/ARCHITECTURE.md, "Forms the kit wants")
    let _none: (Option<FileId>, Option<Refusal>) = (None, None);
    let before = left(desk, meets)?;
    once_more!(
        meets,
        is_settled(desk, &before)?,
        desk.rehearse(User::FIRST, operations)
    )?;
    check(is_settled(desk, &before)?, Mistake::Changed)
}

/// User 0's operations are rehearsed behind what stands ready, which is nothing, and taken back.
fn rehearsed_on<S: BlockSource>(
    desk: &mut TrialDesk<S>,
    meets: &mut Meets,
    operations: &[Op],
) -> Result<(), Fault> {
    // names the types for the prover (docs/ARCHITECTURE.md, "Forms the kit wants")
    let _none: (Option<FileId>, Option<Refusal>) = (None, None);
    let before = left(desk, meets)?;
    once_more!(
        meets,
        is_settled(desk, &before)?,
        desk.rehearse_on(User::FIRST, operations)
    )?;
    leave(desk, meets)?;
    let count = desk.history().len();
    once_more!(meets, desk.history().len() == count, desk.take_back())?;
    check(is_settled(desk, &before)?, Mistake::Changed)
}

/// The bytes of a file are these.
pub(crate) fn says<S: BlockSource>(
    desk: &mut TrialDesk<S>,
    meets: &mut Meets,
    of: FileId,
    bytes: &[u8],
) -> Result<(), Fault> {
    // names the types for the prover (docs/ARCHITECTURE.md, "Forms the kit wants")
    let _none: (Option<FileId>, Option<Refusal>) = (None, None);
    let before = left(desk, meets)?;
    let told = once_more!(meets, is_settled(desk, &before)?, read(desk, of))?;
    check(told.as_slice() == bytes, Mistake::Content)
}

/// Two files are made, and one is written to. What came last is undone, then the write; a batch
/// writes again, and user 1 takes the file over and writes to it. Tells how often the store failed.
pub(crate) fn changes<S: BlockSource + Drop>(
    alloc: Global,
    source: S,
    meets: &mut Meets,
) -> Result<u64, Fault>
    requires { S.is_checked ≡ true }
{
    // names the types for the prover (docs/ARCHITECTURE.md, "Forms the kit wants")
    let _none: (Option<FileId>, Option<Refusal>) = (None, None);
    let mut desk = TrialDesk::new(alloc, two_users(alloc)?, source)?;
    let number = made_ready(&mut desk, meets, &create(alloc, b"a", 2)?)?;
    check(number == 1, Mistake::Commit)?;
    says_hello(alloc, &mut desk, meets)?;
    undo_both(alloc, &mut desk, meets)?;
    batch(alloc, &mut desk, meets)?;
    take_over(alloc, &mut desk, meets)?;
    let now = settled(&mut desk)?;
    check(now.live() == [1, 6, 7, 8].as_slice(), Mistake::Live)?;
    Ok(desk.source_mut().failures())
}

fn says_hello<S: BlockSource>(
    alloc: Global,
    desk: &mut TrialDesk<S>,
    meets: &mut Meets,
) -> Result<(), Fault> {
    // names the types for the prover (docs/ARCHITECTURE.md, "Forms the kit wants")
    let _none: (Option<FileId>, Option<Refusal>) = (None, None);
    let number = applied(desk, meets, User::FIRST, &write(alloc, 2, b"hello")?)?;
    check(number == 2, Mistake::Commit)?;
    taken_back(desk, meets, &write(alloc, 2, b"HELLO")?)?;
    says(desk, meets, file(2)?, b"hello")
}

fn undo_both<S: BlockSource>(
    alloc: Global,
    desk: &mut TrialDesk<S>,
    meets: &mut Meets,
) -> Result<(), Fault> {
    // names the types for the prover (docs/ARCHITECTURE.md, "Forms the kit wants")
    let _none: (Option<FileId>, Option<Refusal>) = (None, None);
    let number = applied(desk, meets, User::FIRST, &create(alloc, b"b", 3)?)?;
    check(number == 3, Mistake::Commit)?;
    check(undone(desk, meets)? == 4, Mistake::Commit)?;
    let number = applied(desk, meets, User::FIRST, &Change::Undo(2))?;
    check(number == 5, Mistake::Commit)?;
    says(desk, meets, file(2)?, b"")
}

// What user 0 writes and makes as one.
fn two_operations(alloc: Global) -> Result<Vec<Op>, Fault> {
    // names the types for the prover (docs/ARCHITECTURE.md, "Forms the kit wants")
    let _none: (Option<FileId>, Option<Refusal>) = (None, None);
    let (first, second) = (write(alloc, 2, b"you")?, create(alloc, b"c", 4)?);
    match (first.operation(), second.operation()) {
        (Some(write), Some(create)) => {
            let operations = vec![in alloc; write.clone()?, create.clone()?]?;
            Ok(operations)
        }
        _ => Err(Fault::Wrong(Mistake::Plan)),
    }
}

fn batch<S: BlockSource>(
    alloc: Global,
    desk: &mut TrialDesk<S>,
    meets: &mut Meets,
) -> Result<(), Fault> {
    // names the types for the prover (docs/ARCHITECTURE.md, "Forms the kit wants")
    let _none: (Option<FileId>, Option<Refusal>) = (None, None);
    let operations = two_operations(alloc)?;
    rehearsed(desk, meets, operations.as_slice())?;
    rehearsed_on(desk, meets, operations.as_slice())?;
    let Some(batch) = Batch::of_operations(operations) else {
        return Err(Fault::Wrong(Mistake::Plan));
    };
    let number = applied(desk, meets, User::FIRST, &Change::Do(batch))?;
    check(number == 6, Mistake::Commit)?;
    says(desk, meets, file(2)?, b"you")
}

fn take_over<S: BlockSource>(
    alloc: Global,
    desk: &mut TrialDesk<S>,
    meets: &mut Meets,
) -> Result<(), Fault> {
    // names the types for the prover (docs/ARCHITECTURE.md, "Forms the kit wants")
    let _none: (Option<FileId>, Option<Refusal>) = (None, None);
    let number = applied(desk, meets, other()?, &take(alloc, 2)?)?;
    check(number == 7, Mistake::Commit)?;
    let number = applied(desk, meets, other()?, &write(alloc, 2, b"me")?)?;
    check(number == 8, Mistake::Commit)?;
    says(desk, meets, file(2)?, b"meu")
}
