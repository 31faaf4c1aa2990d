// All that can be asked of the tree of a view.
use crate::clients::{Client, file};
use crate::faults::{Fault, Mistake, check};
use crate::plans::is_create;
use crate::seen::{Seen, asked_again};
use crate::trying::{Source, Trial, is_same, leave};
use std::alloc::Global;
use su_bytes::{FileId, Kind, Refusal, User};
use su_draft::Command;
use su_files::Stat;

/// Sees that the operations with these numbers are live.
pub(crate) fn live(
    alloc: Global,
    zero: &mut Client<Source>,
    trial: &Trial,
    numbers: &[u64],
    seen: &mut Seen,
) -> Result<(), Fault> {
    let live = asked_again!(
        seen,
        trial.flaw,
        is_same(alloc, zero, trial)?,
        zero.view.live()
    )?;
    check(live.as_slice() == numbers, Mistake::Live)?;
    leave(alloc, zero, trial, seen)
}

// The file `a` is user 0's, and has five bytes and one name.
fn stat(
    alloc: Global,
    zero: &mut Client<Source>,
    trial: &Trial,
    seen: &mut Seen,
) -> Result<(), Fault> {
    let told = asked_again!(
        seen,
        trial.flaw,
        is_same(alloc, zero, trial)?,
        zero.view.stat(file(2)?)
    )?;
    let right = Stat {
        holder: User::FIRST,
        kind: Kind::File,
        size: 5,
        links: 1,
    };
    check(told == right, Mistake::Reading)?;
    leave(alloc, zero, trial, seen)
}

// The root directory has the name `a` alone, and that leads to the file 2.
fn list(
    alloc: Global,
    zero: &mut Client<Source>,
    trial: &Trial,
    seen: &mut Seen,
) -> Result<(), Fault> {
    let names = asked_again!(
        seen,
        trial.flaw,
        is_same(alloc, zero, trial)?,
        zero.view.list(FileId::ROOT)
    )?;
    let [(name, named)] = names.as_slice() else {
        return Err(Fault::Wrong(Mistake::Reading));
    };
    check(
        name.as_bytes() == b"a".as_slice() && *named == file(2)?,
        Mistake::Reading,
    )?;
    leave(alloc, zero, trial, seen)
}

// The path of `a` leads to the file 2.
fn find(
    alloc: Global,
    zero: &mut Client<Source>,
    trial: &Trial,
    seen: &mut Seen,
) -> Result<(), Fault> {
    let found = asked_again!(
        seen,
        trial.flaw,
        is_same(alloc, zero, trial)?,
        zero.view.find(b"/a")
    )?;
    check(found == file(2)?, Mistake::Reading)?;
    leave(alloc, zero, trial, seen)
}

/// Sees that the file `a` has these bytes.
pub(crate) fn contents(
    alloc: Global,
    zero: &mut Client<Source>,
    trial: &Trial,
    bytes: &[u8],
    seen: &mut Seen,
) -> Result<(), Fault> {
    let contents = asked_again!(
        seen,
        trial.flaw,
        is_same(alloc, zero, trial)?,
        zero.view.contents(file(2)?)
    )?;
    check(contents.as_slice() == bytes, Mistake::Reading)?;
    leave(alloc, zero, trial, seen)
}

// Three bytes of the file `a`.
fn read_at(
    alloc: Global,
    zero: &mut Client<Source>,
    trial: &Trial,
    seen: &mut Seen,
) -> Result<(), Fault> {
    let bytes = asked_again!(
        seen,
        trial.flaw,
        is_same(alloc, zero, trial)?,
        zero.view.read_at(file(2)?, 1, 3)
    )?;
    check(bytes.as_slice() == b"owd".as_slice(), Mistake::Reading)?;
    leave(alloc, zero, trial, seen)
}

fn create_at(alloc: Global, path: &[u8]) -> Result<Command, Refusal> {
    Ok(Command::Create {
        path: Vec::from_slice(alloc, path)?,
    })
}

// One file more is planned as the file 3.
fn plan(
    alloc: Global,
    zero: &mut Client<Source>,
    trial: &Trial,
    seen: &mut Seen,
) -> Result<(), Fault> {
    let command = create_at(alloc, b"/c")?;
    let plan = asked_again!(
        seen,
        trial.flaw,
        is_same(alloc, zero, trial)?,
        zero.view.plan(&command)
    )?;
    let [made] = plan.as_slice() else {
        return Err(Fault::Wrong(Mistake::Plan));
    };
    check(is_create(made, FileId::ROOT, b"c", 3)?, Mistake::Plan)?;
    leave(alloc, zero, trial, seen)
}

// Two files more are planned as the files 3 and 4.
fn plan_all(
    alloc: Global,
    zero: &mut Client<Source>,
    trial: &Trial,
    seen: &mut Seen,
) -> Result<(), Fault> {
    let commands = vec![in alloc; create_at(alloc, b"/c")?, create_at(alloc, b"/d")?]?;
    let plan = asked_again!(
        seen,
        trial.flaw,
        is_same(alloc, zero, trial)?,
        zero.view.plan_all(&commands)
    )?;
    let [first, second] = plan.as_slice() else {
        return Err(Fault::Wrong(Mistake::Plan));
    };
    check(
        is_create(first, FileId::ROOT, b"c", 3)? && is_create(second, FileId::ROOT, b"d", 4)?,
        Mistake::Plan,
    )?;
    leave(alloc, zero, trial, seen)
}

/// Asks all that can be asked of the tree of three commits, all of which is left before each call.
pub(crate) fn reads(
    alloc: Global,
    zero: &mut Client<Source>,
    trial: &Trial,
    seen: &mut Seen,
) -> Result<(), Fault> {
    // names the types for the prover (docs/ARCHITECTURE.md, "Forms the kit wants")
    let _none: (Option<FileId>, Option<Refusal>) = (None, None);
    live(alloc, zero, trial, &[1, 2, 3], seen)?;
    stat(alloc, zero, trial, seen)?;
    list(alloc, zero, trial, seen)?;
    find(alloc, zero, trial, seen)?;
    contents(alloc, zero, trial, b"howdy", seen)?;
    read_at(alloc, zero, trial, seen)?;
    plan(alloc, zero, trial, seen)?;
    plan_all(alloc, zero, trial, seen)
}
