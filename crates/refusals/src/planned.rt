// What is planned, and what stands in the way of an undo, on a desk whose tree is left on its store.
ghost use Rattle.std.specs.Prelude.{◌≡◌, map, true, IfOk};

use crate::asked::say_hello;
use crate::clients::file;
use crate::desks::{applied, is_settled, left, says, settled, two_users};
use crate::faults::{Fault, Mistake, check};
use crate::meets::{Meets, once_more};
use std::alloc::{AllocError, Global};
use su_block::BlockSource;
use su_bytes::{FileId, Refusal, User};
use su_desk::KeptEntry;
use su_draft::Command;
use su_op::{Change, Op};
use su_reasons::reasons;
use su_stored_desk::TrialDesk;
use su_stored_plan::{find, plan, plan_all};

/// Commands are planned, alone and together, and carried out. Tells how often the store failed.
pub(crate) fn plans<S: BlockSource + Drop>(
    alloc: Global,
    source: S,
    meets: &mut Meets,
) -> Result<u64, Fault>
    requires { S.is_checked ≡ true }
{
    // names the types for the prover (docs/ARCHITECTURE.md, "Forms the kit wants")
    let _none: (Option<FileId>, Option<Refusal>) = (None, None);
    let mut desk = TrialDesk::new(alloc, two_users(alloc)?, source)?;
    let path = Vec::from_slice(alloc, b"/d")?;
    planned(alloc, &mut desk, meets, &Command::Mkdir { path })?;
    let path = Vec::from_slice(alloc, b"/d/f")?;
    planned(alloc, &mut desk, meets, &Command::Create { path })?;
    planned_together(alloc, &mut desk, meets)?;
    let path = Vec::from_slice(alloc, b"/d")?;
    planned(alloc, &mut desk, meets, &Command::Remove { path })?;
    says(&mut desk, meets, file(3)?, b"hello")?;
    let now = settled(&mut desk)?;
    check(now.live() == [1, 2, 3, 4, 5].as_slice(), Mistake::Live)?;
    Ok(desk.source_mut().failures())
}

// A command that user 0 carries out by one operation is planned, and carried out.
fn planned<S: BlockSource>(
    alloc: Global,
    desk: &mut TrialDesk<S>,
    meets: &mut Meets,
    command: &Command,
) -> Result<(), Fault> {
    // names the types for the prover (docs/ARCHITECTURE.md, "Forms the kit wants")
    let _none: (Option<FileId>, Option<Refusal>) = (None, None);
    let before = left(desk, meets)?;
    let operations = once_more!(
        meets,
        is_settled(desk, &before)?,
        plan(alloc, desk, User::FIRST, command)
    )?;
    check(is_settled(desk, &before)?, Mistake::Changed)?;
    check(operations.len() == 1, Mistake::Plan)?;
    carry_out(alloc, desk, meets, operations)
}

// The file says `hello`, and is moved to the root directory.
fn planned_together<S: BlockSource>(
    alloc: Global,
    desk: &mut TrialDesk<S>,
    meets: &mut Meets,
) -> Result<(), Fault> {
    // names the types for the prover (docs/ARCHITECTURE.md, "Forms the kit wants")
    let _none: (Option<FileId>, Option<Refusal>) = (None, None);
    let commands = [
        Command::Write {
            path: Vec::from_slice(alloc, b"/d/f")?,
            off: 0,
            bytes: Vec::from_slice(alloc, b"hello")?,
        },
        Command::Rename {
            old_: Vec::from_slice(alloc, b"/d/f")?,
            new_: Vec::from_slice(alloc, b"/g")?,
        },
    ];
    let before = left(desk, meets)?;
    let operations = once_more!(
        meets,
        is_settled(desk, &before)?,
        plan_all(alloc, desk, User::FIRST, commands.as_slice())
    )?;
    check(is_settled(desk, &before)?, Mistake::Changed)?;
    check(operations.len() == 2, Mistake::Plan)?;
    carry_out(alloc, desk, meets, operations)?;
    let before = left(desk, meets)?;
    let found = once_more!(meets, is_settled(desk, &before)?, find(alloc, desk, b"/g"))?;
    check(found == file(3)?, Mistake::Found)
}

fn carry_out<S: BlockSource>(
    alloc: Global,
    desk: &mut TrialDesk<S>,
    meets: &mut Meets,
    operations: Vec<Op>,
) -> Result<(), Fault> {
    // names the types for the prover (docs/ARCHITECTURE.md, "Forms the kit wants")
    let _none: (Option<FileId>, Option<Refusal>) = (None, None);
    for operation in operations {
        applied(desk, meets, User::FIRST, &Change::of(alloc, operation))?;
    }
    Ok(())
}

/// What has to be undone before a file isn't made is its write, which is undone. Tells how often the
/// store failed.
pub(crate) fn why<S: BlockSource + Drop>(
    alloc: Global,
    source: S,
    meets: &mut Meets,
) -> Result<u64, Fault>
    requires { S.is_checked ≡ true }
{
    // names the types for the prover (docs/ARCHITECTURE.md, "Forms the kit wants")
    let _none: (Option<FileId>, Option<Refusal>) = (None, None);
    let mut desk = TrialDesk::new(alloc, two_users(alloc)?, source)?;
    say_hello(alloc, &mut desk, meets)?;
    reasons_for_the_first(alloc, &mut desk, meets)?;
    let now = settled(&mut desk)?;
    check(now.live() == [1].as_slice(), Mistake::Live)?;
    check(desk.history().len() == 3, Mistake::Commit)?;
    Ok(desk.source_mut().failures())
}

// (What is undone stays so where memory is refused for the list of it.)
fn reasons_for_the_first<S: BlockSource>(
    alloc: Global,
    desk: &mut TrialDesk<S>,
    meets: &mut Meets,
) -> Result<(), Fault> {
    // names the types for the prover (docs/ARCHITECTURE.md, "Forms the kit wants")
    let _none: (Option<FileId>, Option<Refusal>) = (None, None);
    let before = left(desk, meets)?;
    let told = reasons_of(alloc, desk, 1);
    if !meets.is_met(&told) {
        return check(told?.as_slice() == [2].as_slice(), Mistake::Live);
    }
    if is_settled(desk, &before)? {
        meets.note(true)?;
        let told = reasons_of(alloc, desk, 1)?;
        return check(told.as_slice() == [2].as_slice(), Mistake::Live);
    }
    let now = settled(desk)?;
    let is_undone = meets.is_of_memory() && now.live() == [1].as_slice();
    meets.note(is_undone)?;
    let told = reasons_of(alloc, desk, 1)?;
    check(told.is_empty(), Mistake::Live)
}

fn reasons_of<S: BlockSource>(
    alloc: Global,
    desk: &mut TrialDesk<S>,
    number: u64,
) -> Result<Vec<u64>, Refusal> {
    // names the types for the prover (docs/ARCHITECTURE.md, "Forms the kit wants")
    let _none: (Option<FileId>, Option<Refusal>) = (None, None);
    desk.take_back()?;
    let authors = authors_of(alloc, desk.history())?;
    reasons(alloc, desk, authors.as_slice(), number)
}

fn authors_of(alloc: Global, entries: &[KeptEntry]) -> Result<Vec<User>, AllocError>
    ensures { IfOk result (λ authors. authors.items ≡ map (λ e. e.author) entries.now) }
{
    let mut authors = Vec::new(alloc);
    for entry in entries {
        authors.push(entry.author())?;
    }
    Ok(authors)
}
