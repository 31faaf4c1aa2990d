// The last commits of the users, as a server shows them.
ghost use Rattle.std.specs.Prelude.{◌≡◌, ◌⊎◌, ◌↔◌, IsTrue, true, IfOk, IfErr, OnOk};
ghost use Rattle.std.specs.List.{AllByRecursion, list_any};
ghost use Rattle.std.specs.Option.{option_copied};
ghost use Rattle.su_bytes.specs.declared.refusals.Refusal.TheVariants.{NoMemory};
ghost use Rattle.su_bytes.specs.Order.{Passes, RefusedBy};
ghost use Rattle.su_view.specs.Keeping.{holding_of, IsKeeping};
ghost use Rattle.su_view.specs.KeptCommit.{has_digest};
ghost use Rattle.su_view.specs.LastCommits.{own_order, AreSigned, is_by, IsNotBehind, IsShownSigned, ShowsLast, ShowsOwn, shown_order};
ghost use Rattle.su_view.specs.Holding.{IsHeld};
ghost use Rattle.su_view.specs.declared.refusals.ViewRefusal.TheVariants.{Plain};

use crate::kept_commits::KeptCommit;
use crate::records::Keeping;
use crate::refusals::ViewRefusal;
use std::alloc::Global;
use su_block::{BlockSource, digest_of};
use su_bytes::{Digest, FileId, Refusal, Roster, User};
use su_vector::{Vector, first_unordered};
use su_version::{Commit, Verdict};

/// Checks what a server shows as the users' last commits, by what is kept. `BadSignature` where a
/// commit isn't held, nor signed under its author's present key; `OwnMissing` where the user has a
/// commit that is held, and none of the user's is shown or one that is behind the last;
/// `NotOrdered` with the first pair of positions whose vectors aren't comparable; `NoMemory`.
pub(crate) fn check_list<S: BlockSource>(
    alloc: Global,
    keeping: &Keeping<S>,
    shown: &[Commit],
) -> Result<(), ViewRefusal>
    requires { IsKeeping S.may_give keeping.now }
    ensures passes { OnOk result (Passes (shown_order (holding_of keeping.now) shown.now)) }
    ensures refused { IfErr result (λ e. (e ≡ Plain NoMemory)
        ⊎ RefusedBy (shown_order (holding_of keeping.now) shown.now) e) }
{
    let signed = match are_signed(alloc, keeping, shown) {
        Ok(signed) => signed,
        Err(refusal) => return Err(ViewRefusal::Plain(refusal)),
    };
    if !signed {
        return Err(ViewRefusal::Plain(Refusal::BadSignature));
    }
    check_own(
        alloc,
        keeping.desk.roster(),
        keeping.user,
        keeping.own.as_ref(),
        shown,
    )
}

/// Checks commits that are shown as the users' last ones, for a client of that user, by the user's
/// last commit that the client holds, if there is one. `OwnMissing` where the user has a last
/// commit, and none of the user's is shown or one that is behind it; `NotOrdered` with the first
/// pair of positions whose vectors aren't comparable; `NoMemory`.
fn check_own(
    alloc: Global,
    roster: &Roster,
    user: User,
    last: Option<&Commit>,
    shown: &[Commit],
) -> Result<(), ViewRefusal>
    ensures passes { OnOk result (Passes (own_order roster.now user
        (option_copied last.entry) shown.now)) }
    ensures refused { IfErr result (λ e. (e ≡ Plain NoMemory) ⊎ RefusedBy (own_order roster.now
        user (option_copied last.entry) shown.now) e) }
{
    // names the type for the prover (docs/ARCHITECTURE.md, "Forms the kit wants")
    let _file: Option<FileId> = None;
    let own = match shows_own(alloc, roster, user, last, shown) {
        Ok(own) => own,
        Err(refusal) => return Err(ViewRefusal::Plain(refusal)),
    };
    if !own {
        return Err(ViewRefusal::OwnMissing);
    }
    if let Some((i, j)) = first_unordered(shown) {
        return Err(ViewRefusal::Plain(Refusal::NotOrdered(i as u64, j as u64)));
    }
    Ok(())
}

/// Whether each commit is held, or signed under its author's present key. Fails only with
/// `NoMemory`.
fn are_signed<S: BlockSource>(
    alloc: Global,
    keeping: &Keeping<S>,
    shown: &[Commit],
) -> Result<bool, Refusal>
    requires { IsKeeping S.may_give keeping.now }
    ensures value { IfOk result (λ b. IsTrue b ↔ AreSigned (holding_of keeping.now) shown.now) }
    ensures refused { IfErr result (λ e. e ≡ NoMemory) }
{
    // names the type for the prover (docs/ARCHITECTURE.md, "Forms the kit wants")
    let _file: Option<FileId> = None;
    for commit in shown {
        let signed = is_signed(alloc, keeping, commit)?;
        if !signed {
            return Ok(false);
        }
    }
    Ok(true)
}

/// Whether a commit is held, or signed under its author's present key. Of one that is held no
/// signature is checked. Fails only with `NoMemory`.
fn is_signed<S: BlockSource>(
    alloc: Global,
    keeping: &Keeping<S>,
    commit: &Commit,
) -> Result<bool, Refusal>
    requires { IsKeeping S.may_give keeping.now }
    ensures value { IfOk result (λ b.
        IsTrue b ↔ IsShownSigned (holding_of keeping.now) commit.now) }
    ensures refused { IfErr result (λ e. e ≡ NoMemory) }
{
    // names the type for the prover (docs/ARCHITECTURE.md, "Forms the kit wants")
    let _file: Option<FileId> = None;
    if is_held(alloc, keeping, commit)? {
        return Ok(true);
    }
    let key = keeping.end.key(commit.version().author());
    let verdict = Verdict::of(alloc, key, commit)?;
    Ok(verdict.is_signed)
}

/// Whether a commit is held. It is looked for where its vector tells that it stands, and in all of
/// the list only where it isn't there. Fails only with `NoMemory`.
fn is_held<S: BlockSource>(
    alloc: Global,
    keeping: &Keeping<S>,
    commit: &Commit,
) -> Result<bool, Refusal>
    requires { IsKeeping S.may_give keeping.now }
    ensures held { IfOk result (λ b. IsTrue b ↔ IsHeld (holding_of keeping.now) commit.now) }
    ensures refused { IfErr result (λ e. e ≡ NoMemory) }
{
    let place = place_of(keeping.desk.roster(), commit.version().vector());
    let bytes = commit.encode(alloc)?;
    let digest = digest_of(bytes.as_slice());
    let records = keeping.records.as_slice();
    if has_at(records, place, digest) {
        return Ok(true);
    }
    Ok(has_digest(records, digest))
}

/// Whether the commit at that place has this digest.
fn has_at(records: &[KeptCommit], place: usize, digest: Digest) -> bool
    ensures { result ≡ true → list_any (has_digest digest) records.now ≡ true }
{
    match records.get(place) {
        Some(record) => record.digest() == digest,
        None => false,
    }
}

/// Whether one of the commits has this digest.
fn has_digest(records: &[KeptCommit], digest: Digest) -> bool
    ensures { result ≡ list_any (has_digest digest) records.now }
{
    records.iter().any(|record| record.digest() == digest)
}

/// Where in a list, counted from 0, a commit of that vector stands: its numbers of the users count
/// the commits up to it. (A wrong place costs time, no more: no clause needs it.)
fn place_of(roster: &Roster, vector: &Vector) -> usize {
    let mut count = 0_u64;
    for number in vector.numbers().iter().take(roster.user_count()) {
        count = count.saturating_add(*number);
    }
    count.saturating_sub(1) as usize
}

/// Whether the user's own last commit is shown, if there is one. Fails only with `NoMemory`.
fn shows_own(
    alloc: Global,
    roster: &Roster,
    user: User,
    last: Option<&Commit>,
    shown: &[Commit],
) -> Result<bool, Refusal>
    ensures value { IfOk result (λ b. IsTrue b ↔ ShowsOwn roster.now user
        (option_copied last.entry) shown.now) }
    ensures refused { IfErr result (λ e. e ≡ NoMemory) }
{
    match last {
        None => Ok(true),
        Some(last) => shows_last(alloc, roster, user, last, shown),
    }
}

/// Whether a commit of the user is shown, and none that is behind this one. Fails only with
/// `NoMemory`.
fn shows_last(
    alloc: Global,
    roster: &Roster,
    user: User,
    last: &Commit,
    shown: &[Commit],
) -> Result<bool, Refusal>
    ensures value { IfOk result (λ b.
        IsTrue b ↔ ShowsLast roster.now user last.now shown.now) }
    ensures refused { IfErr result (λ e. e ≡ NoMemory) }
{
    if !has_own(user, shown) {
        return Ok(false);
    }
    are_not_behind(alloc, roster, user, last, shown)
}

fn has_own(user: User, shown: &[Commit]) -> bool
    ensures { result ≡ list_any (is_by user) shown.now }
{
    shown.iter().any(|commit| commit.version().author() == user)
}

/// Whether none of the user's commits among these is behind the user's last one. Fails only with
/// `NoMemory`.
fn are_not_behind(
    alloc: Global,
    roster: &Roster,
    user: User,
    last: &Commit,
    shown: &[Commit],
) -> Result<bool, Refusal>
    ensures value { IfOk result (λ b. IsTrue b ↔ AllByRecursion (λ c. is_by user c ≡ true
        → IsNotBehind roster.now user last.now c) shown.now) }
    ensures refused { IfErr result (λ e. e ≡ NoMemory) }
{
    // names the type for the prover (docs/ARCHITECTURE.md, "Forms the kit wants")
    let _file: Option<FileId> = None;
    for commit in shown {
        let passes = is_other_or_not_behind(alloc, roster, user, last, commit)?;
        if !passes {
            return Ok(false);
        }
    }
    Ok(true)
}

/// Whether a commit is another user's, or isn't behind the user's last one. Fails only with
/// `NoMemory`.
fn is_other_or_not_behind(
    alloc: Global,
    roster: &Roster,
    user: User,
    last: &Commit,
    commit: &Commit,
) -> Result<bool, Refusal>
    ensures value { IfOk result (λ b. IsTrue b ↔ (is_by user commit.now ≡ true
        → IsNotBehind roster.now user last.now commit.now)) }
    ensures refused { IfErr result (λ e. e ≡ NoMemory) }
{
    if commit.version().author() != user {
        return Ok(true);
    }
    is_not_behind(alloc, roster, user, last, commit)
}

/// Whether a commit isn't behind the user's last one. Fails only with `NoMemory`.
fn is_not_behind(
    alloc: Global,
    roster: &Roster,
    user: User,
    last: &Commit,
    commit: &Commit,
) -> Result<bool, Refusal>
    ensures value { IfOk result (λ b.
        IsTrue b ↔ IsNotBehind roster.now user last.now commit.now) }
    ensures refused { IfErr result (λ e. e ≡ NoMemory) }
{
    let Some(number) = commit.version().vector().number_of(roster, user) else {
        return Ok(false);
    };
    let Some(held) = last.version().vector().number_of(roster, user) else {
        return Ok(true);
    };
    if held != number {
        return Ok(held < number);
    }
    let bytes = commit.encode(alloc)?;
    let last_bytes = last.encode(alloc)?;
    Ok(bytes.as_slice() == last_bytes.as_slice())
}
