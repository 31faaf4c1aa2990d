// Commits that a view takes and makes.
use crate::asking::{contents, live};
use crate::clients::{Client, Items, signer};
use crate::faults::{Fault, Mistake, check};
use crate::flaws::{Flaw, Flawed};
use crate::seen::{Seen, view_asked_again};
use crate::trying::{Source, Trial, Trying, is_same, leave, leave_new, new_trial, set};
use std::alloc::Global;
use su_block::{Checked, digest_of};
use su_bytes::{FileId, Principal, Refusal, User};
use su_lms::{NoStore, Signer};
use su_log::Digests;
use su_op::Change;
use su_version::{Commit, Verdict};
use su_view::{View, ViewRefusal};

/// Makes the client of user 0 with the first three of five commits, over a source of which no call
/// has this flaw yet.
pub(crate) fn with_three(
    alloc: Global,
    of: &Client<Items>,
    flaw: Flaw,
) -> Result<Client<Source>, Fault> {
    let view = view_of_three(alloc, of, flaw)?;
    Ok(Client::of(view, signer_behind_three(alloc)?))
}

// Makes the key of user 0 of which three leaves have signed.
fn signer_behind_three(alloc: Global) -> Result<Signer<NoStore>, Refusal> {
    let mut signer = signer(alloc, 0)?;
    for _ in 0..3 {
        signer.sign(b"a commit")?;
    }
    Ok(signer)
}

/// Begins anew with three commits; with a new key where each leaf of the last one has signed.
pub(crate) fn begin_anew(
    alloc: Global,
    zero: &mut Client<Source>,
    of: &Client<Items>,
    flaw: Flaw,
) -> Result<(), Fault> {
    if zero.leaves() == 0 {
        *zero = with_three(alloc, of, flaw)?;
    } else {
        zero.view = view_of_three(alloc, of, flaw)?;
    }
    Ok(())
}

fn view_of_three(alloc: Global, of: &Client<Items>, flaw: Flaw) -> Result<View<Source>, Fault> {
    let source = Checked::new(Flawed::new(alloc, flaw));
    let mut view = View::new(alloc, of.view.roster().copy()?, User::FIRST, source)?;
    for number in 1..4 {
        let (bytes, item) = of.entry(number)?;
        take_with(alloc, &mut view, bytes, item)?;
    }
    Ok(view)
}

// Takes a commit with its item.
fn take_with(
    alloc: Global,
    view: &mut View<Source>,
    bytes: &[u8],
    item: &[u8],
) -> Result<(), ViewRefusal> {
    // names the types for the prover (docs/ARCHITECTURE.md, "Forms the kit wants")
    let _none: (Option<Principal>, Option<FileId>) = (None, None);
    let commit = Commit::decode(alloc, bytes)?;
    let key = view.key(commit.version().author());
    let verdict = Verdict::of(alloc, key, &commit)?;
    let digests = Digests::of(bytes, item);
    let Ok(copy) = Vec::from_slice(alloc, item) else {
        return Err(ViewRefusal::Plain(Refusal::NoMemory));
    };
    view.accept_with(commit, bytes, copy, digests, verdict)
}

// Takes a commit whose item the source is asked for.
fn take_known(alloc: Global, view: &mut View<Source>, bytes: &[u8]) -> Result<(), ViewRefusal> {
    // names the types for the prover (docs/ARCHITECTURE.md, "Forms the kit wants")
    let _none: (Option<Principal>, Option<FileId>) = (None, None);
    let commit = Commit::decode(alloc, bytes)?;
    let key = view.key(commit.version().author());
    let verdict = Verdict::of(alloc, key, &commit)?;
    view.accept_known(commit, bytes, digest_of(bytes), verdict)
}

// Takes the fourth commit, whose item the source has; the tree then lies there.
fn fourth(
    alloc: Global,
    zero: &mut Client<Source>,
    of: &Client<Items>,
    how: &Trying,
    seen: &mut Seen,
) -> Result<(), Fault> {
    let (bytes, item) = of.entry(4)?;
    let at = set(zero, 0);
    zero.put(alloc, item)?;
    set(zero, at);
    let trial = new_trial(alloc, zero, how)?;
    view_asked_again!(
        seen,
        trial.flaw,
        is_same(alloc, zero, &trial)?,
        take_known(alloc, &mut zero.view, bytes)
    )?;
    check(zero.view.head().0 == 4, Mistake::Commit)?;
    leave_new(alloc, zero, how, seen)
}

// Takes the fifth commit with its item.
fn fifth(
    alloc: Global,
    zero: &mut Client<Source>,
    of: &Client<Items>,
    how: &Trying,
    seen: &mut Seen,
) -> Result<(), Fault> {
    let (bytes, item) = of.entry(5)?;
    let trial = new_trial(alloc, zero, how)?;
    view_asked_again!(
        seen,
        trial.flaw,
        is_same(alloc, zero, &trial)?,
        take_with(alloc, &mut zero.view, bytes, item)
    )?;
    check(zero.view.head() == of.view.head(), Mistake::Commit)?;
    leave_new(alloc, zero, how, seen)
}

// Makes a commit of a change.
fn make(
    alloc: Global,
    zero: &mut Client<Source>,
    change: Change,
    trial: &Trial,
    seen: &mut Seen,
) -> Result<Commit, Fault> {
    // names the types for the prover (docs/ARCHITECTURE.md, "Forms the kit wants")
    let _none: (Option<Principal>, Option<FileId>) = (None, None);
    let leaves = zero.leaves();
    let commit = view_asked_again!(
        seen,
        trial.flaw,
        zero.leaves() == leaves && is_same(alloc, zero, trial)?,
        zero.make(change.clone()?)
    )?;
    check(is_same(alloc, zero, trial)?, Mistake::Changed)?;
    check(zero.leaves().saturating_add(1) == leaves, Mistake::Leaves)?;
    Ok(commit)
}

// Makes a commit of the undo of the third one, and takes it.
fn undo(
    alloc: Global,
    zero: &mut Client<Source>,
    how: &Trying,
    seen: &mut Seen,
) -> Result<(), Fault> {
    let trial = new_trial(alloc, zero, how)?;
    let commit = make(alloc, zero, Change::Undo(3), &trial, seen)?;
    leave(alloc, zero, &trial, seen)?;
    let number = view_asked_again!(
        seen,
        trial.flaw,
        is_same(alloc, zero, &trial)?,
        zero.view.accept_own(&commit)
    )?;
    check(number == 6, Mistake::Commit)?;
    leave_new(alloc, zero, how, seen)
}

/// Takes the fourth and the fifth commit, and makes and takes the undo of the third; all of the tree
/// is left before each call.
pub(crate) fn takes(
    alloc: Global,
    zero: &mut Client<Source>,
    of: &Client<Items>,
    how: &Trying,
    seen: &mut Seen,
) -> Result<(), Fault> {
    fourth(alloc, zero, of, how, seen)?;
    fifth(alloc, zero, of, how, seen)?;
    undo(alloc, zero, how, seen)?;
    let trial = new_trial(alloc, zero, how)?;
    contents(alloc, zero, &trial, b"hello", seen)?;
    live(alloc, zero, &trial, &[1, 2, 4, 5], seen)
}
