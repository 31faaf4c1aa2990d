// A forest that is left on its store before each of its calls.
ghost use Rattle.std.specs.Prelude.{◌≡◌, true};

use crate::clients::{create, file, write};
use crate::desks::two_users;
use crate::faults::{Fault, Mistake, check};
use crate::meets::{Meets, once_more};
use std::alloc::Global;
use su_block::BlockSource;
use su_bytes::{Digest, FileId, Group, Inum, NEWEST_FORMAT, Name, Refusal, User};
use su_files::read;
use su_op::{Change, Op};
use su_part_inverse::Inverse;
use su_reading::TreeReader;
use su_stored_forest::StoredForest;

fn handles<S: BlockSource>(stored: &StoredForest<S>) -> [Digest; 2] {
    [
        stored.i_handle(User::FIRST),
        stored.group_handle(Group::FIRST),
    ]
}

/// Leaves a forest on its store. Tells its handles.
fn left<S: BlockSource>(
    stored: &mut StoredForest<S>,
    meets: &mut Meets,
) -> Result<[Digest; 2], Fault> {
    // names the types for the prover (docs/ARCHITECTURE.md, "Forms the kit wants")
    let _none: (Option<FileId>, Option<Refusal>) = (None, None);
    let before = handles(stored);
    once_more!(meets, handles(stored) == before, stored.shed())?;
    Ok(before)
}

/// A file is made, written to, and what is written is undone. Tells how often the store failed.
pub(crate) fn operations<S: BlockSource + Drop>(
    alloc: Global,
    source: S,
    meets: &mut Meets,
) -> Result<u64, Fault>
    requires { S.is_checked ≡ true }
{
    // names the types for the prover (docs/ARCHITECTURE.md, "Forms the kit wants")
    let _none: (Option<FileId>, Option<Refusal>) = (None, None);
    let roster = two_users(alloc)?;
    let mut stored = StoredForest::genesis(alloc, &roster, source)?;
    performed(alloc, &mut stored, meets, &create(alloc, b"a", 2)?)?;
    leads_to_it(alloc, &mut stored, meets)?;
    let before = left(&mut stored, meets)?;
    let inverse = performed(alloc, &mut stored, meets, &write(alloc, 2, b"hello")?)?;
    says(&mut stored, meets, b"hello")?;
    undone(alloc, &mut stored, meets, &inverse)?;
    check(handles(&stored) == before, Mistake::Changed)?;
    says(&mut stored, meets, b"")?;
    Ok(stored.source_mut().failures())
}

// User 0's operation is accepted, what it writes is kept, and it is performed.
fn performed<S: BlockSource>(
    alloc: Global,
    stored: &mut StoredForest<S>,
    meets: &mut Meets,
    change: &Change,
) -> Result<Inverse, Fault> {
    // names the types for the prover (docs/ARCHITECTURE.md, "Forms the kit wants")
    let _none: (Option<FileId>, Option<Refusal>) = (None, None);
    match change.operation() {
        Some(operation) => performed_one(alloc, stored, meets, operation),
        None => Err(Fault::Wrong(Mistake::Plan)),
    }
}

fn performed_one<S: BlockSource>(
    alloc: Global,
    stored: &mut StoredForest<S>,
    meets: &mut Meets,
    operation: &Op,
) -> Result<Inverse, Fault> {
    // names the types for the prover (docs/ARCHITECTURE.md, "Forms the kit wants")
    let _none: (Option<FileId>, Option<Refusal>) = (None, None);
    let (roster, user) = (two_users(alloc)?, User::FIRST);
    let before = left(stored, meets)?;
    let accepted = match once_more!(
        meets,
        handles(stored) == before,
        stored.accept(alloc, operation, &roster, user, NEWEST_FORMAT)
    ) {
        Ok(accepted) => accepted,
        Err(refusal) => return Err(Fault::Refused(refusal)),
    };
    let footprint = accepted.footprint(alloc)?;
    left(stored, meets)?;
    let inverse = once_more!(
        meets,
        handles(stored) == before,
        stored.keep(alloc, footprint.writes.as_slice())
    )?;
    left(stored, meets)?;
    once_more!(
        meets,
        handles(stored) == before,
        stored.perform(&accepted, &footprint)
    )?;
    Ok(inverse)
}

fn leads_to_it<S: BlockSource>(
    alloc: Global,
    stored: &mut StoredForest<S>,
    meets: &mut Meets,
) -> Result<(), Fault> {
    // names the types for the prover (docs/ARCHITECTURE.md, "Forms the kit wants")
    let _none: (Option<FileId>, Option<Refusal>) = (None, None);
    let name = Name::new(alloc, b"a")?;
    let root = (User::FIRST, Inum::FIRST);
    let before = left(stored, meets)?;
    let led = once_more!(meets, handles(stored) == before, stored.led_to(root, &name))?;
    check(led == Some(file(2)?), Mistake::Found)
}

fn undone<S: BlockSource>(
    alloc: Global,
    stored: &mut StoredForest<S>,
    meets: &mut Meets,
    inverse: &Inverse,
) -> Result<(), Fault> {
    // names the types for the prover (docs/ARCHITECTURE.md, "Forms the kit wants")
    let _none: (Option<FileId>, Option<Refusal>) = (None, None);
    let before = left(stored, meets)?;
    once_more!(
        meets,
        handles(stored) == before,
        stored.undo(alloc, inverse)
    )?;
    Ok(())
}

fn says<S: BlockSource>(
    stored: &mut StoredForest<S>,
    meets: &mut Meets,
    bytes: &[u8],
) -> Result<(), Fault> {
    // names the types for the prover (docs/ARCHITECTURE.md, "Forms the kit wants")
    let _none: (Option<FileId>, Option<Refusal>) = (None, None);
    let asked = file(2)?;
    let before = left(stored, meets)?;
    let told = once_more!(meets, handles(stored) == before, read(stored, asked))?;
    check(told.as_slice() == bytes, Mistake::Content)
}
