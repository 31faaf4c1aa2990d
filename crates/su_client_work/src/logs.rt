// Logs of commits, with the items of their changes: how one is made of a list, and taken in a view.
ghost use Rattle.std.specs.Prelude.{◌≡◌, ◌⊎◌, ◌↔◌, ◌∷◌, ◌++◌, ◌<◌, ◌≤◌, ℕ, IsTrue, List, [], drop, map, true, None, Some, Ok, Err, IfOk, IfErr, OnOk, OnErr};
ghost use Rattle.su_bytes.specs.declared.refusals.Refusal.TheVariants.{MissingBlock, NoMemory, TooBig};
ghost use Rattle.su_version.specs.Chain.{IsSignedBy};
ghost use Rattle.su_version.specs.Commit.{commit_bytes};
ghost use Rattle.su_legal.specs.Legal.{Committed};
ghost use Rattle.su_view.specs.Entry.{committed_at};
ghost use Rattle.su_view.specs.Viewed.{AsksOn, Grows};
ghost use Rattle.su_log.specs.Part.{part_bytes};
ghost use Rattle.su_log.specs.Log.{log_bytes};
ghost use Rattle.su_log.specs.Record.{IsExamined, IsVerdict, spelled};
ghost use Rattle.su_client_work.specs.SavedLog.{saved_log, entry_bytes, saved_record};
ghost use Rattle.su_client_work.specs.TakenLog.{EndsSo, TakesFront};

use std::alloc::{AllocError, Global};
use std::io;
use std::io::Read;
use std::thread::Threads;
use su_block::{BlockSource, is_item};
use su_bytes::Refusal;
use su_lms::PublicKey;
use su_log::{Record, Stop};
use su_log_ahead::{Ahead, PresumedKeys};
use su_version::{Commit, Verdict};
use su_view::{View, ViewRefusal};

/// Why a log isn't taken whole.
#[derive(Debug, Drop)]
pub enum LogFault {
    /// Its commit of that number, from 1, is refused.
    Refused { number: u64, refusal: ViewRefusal },
    /// It can't be read.
    Unread(io::Error),
}

/// Takes the commits of a log in a view, one after the other, each with the item that follows it, for
/// which the view's source isn't asked; returns how many. It reads ahead, and checks the signatures
/// of what it read on all cores. `Refused` by `Malformed` with the place in the log of a length that
/// is cut or goes past the end, by `TooBig` where the item has not 1 to 70,000 bytes, or by the
/// refusals of `View::accept_with`; those before it stay taken.
/// `Unread` where the log can't be read, or memory to read ahead is refused.
pub fn take_log<T: Threads + Sync, I: Read + Drop, S: BlockSource + Drop>(
    rt: &T,
    alloc: Global,
    reader: I,
    view: &mut View<S>,
) -> Result<u64, LogFault>
    ensures takes { (more : List Committed) × Grows S.may_give view.old more view.new }
    ensures asks { AsksOn S.may_give S.follows view.old view.new }
    ensures log { (log : List ℕ) → I.remaining reader ≡ Some log
        → EndsSo (TakesFront S.may_give view.old log view.new) log result }
{
    let keys = match presumed_keys(alloc, view) {
        Ok(keys) => keys,
        Err(error) => return Err(LogFault::Unread(error.into())),
    };
    let mut log = Ahead::new(alloc, reader, keys);
    for number in 1..u64::MAX {
        match log.next(rt, alloc) {
            Ok(next) => {
                if let Err(refusal) = take_record(alloc, view, next) {
                    return Err(LogFault::Refused { number, refusal });
                }
            }
            Err(Stop::End) => return Ok(number - 1),
            Err(Stop::Cut(place)) => {
                let refusal = ViewRefusal::Plain(Refusal::Malformed(place));
                return Err(LogFault::Refused { number, refusal });
            }
            Err(Stop::Failed(error)) => return Err(LogFault::Unread(error)),
        }
    }
    Err(LogFault::Unread(io::Error::other("it has no end")))
}

/// Makes the table of the keys that users have after the list of a view.
pub(crate) fn presumed_keys<S: BlockSource + Drop>(
    alloc: Global,
    view: &View<S>,
) -> Result<PresumedKeys, AllocError> {
    let mut keys = PresumedKeys::new(alloc)?;
    for user in view.roster().users() {
        keys.set(user.user, view.key(user.user));
    }
    Ok(keys)
}

/// Lets the view take the commit of a record, with its item. Where it is known whether it is signed,
/// that isn't checked again. `TooBig` where the item has not 1 to 70,000 bytes; then the refusals are
/// those of `View::accept_with`.
fn take_record<S: BlockSource + Drop>(
    alloc: Global,
    view: &mut View<S>,
    next: Record,
) -> Result<(), ViewRefusal>
    requires { IsExamined next }
    ensures took { OnOk result ((c : Committed) × (spelled next ≡ saved_record c)
        × Grows S.may_give view.old (c ∷ []) view.new) }
    ensures err { OnErr result (view.new.holding ≡ view.old.holding) }
    ensures asks { AsksOn S.may_give S.follows view.old view.new }
{
    let Record {
        bytes,
        item,
        commit,
        key,
        verdict,
        digests,
    } = next;
    let Some(digests) = digests else {
        unreachable!()
    };
    if !is_item(item.as_slice()) {
        return Err(ViewRefusal::Plain(Refusal::TooBig));
    }
    let commit = match commit {
        Ok(commit) => commit,
        Err(refusal) => return Err(ViewRefusal::Plain(refusal)),
    };
    let verdict = match known_or_found(alloc, verdict, key, &commit) {
        Ok(verdict) => verdict,
        Err(refusal) => return Err(ViewRefusal::Plain(refusal)),
    };
    view.accept_with(commit, bytes.as_slice(), item, digests, verdict)
}

/// Returns the verdict on a commit's signature, if there is one; else finds it under that key. Fails
/// only with `NoMemory`.
fn known_or_found(
    alloc: Global,
    known: Option<Verdict>,
    key: Option<PublicKey>,
    commit: &Commit,
) -> Result<Verdict, Refusal>
    requires { IsVerdict (Ok commit.now) known }
    ensures value { IfOk result (λ verdict.
        IsTrue verdict.is_signed ↔ IsSignedBy verdict.key commit.now) }
    ensures refused { IfErr result (λ e. e ≡ NoMemory) }
{
    match known {
        Some(verdict) => Ok(verdict),
        None => Verdict::of(alloc, key, commit),
    }
}

/// Lets the view take the commit of a record. Where it is known whether it is signed, that isn't
/// checked again.
pub(crate) fn take_commit<S: BlockSource + Drop>(
    view: &mut View<S>,
    next: Record,
) -> Result<(), ViewRefusal>
    requires checked { S.is_checked ≡ true }
    requires examined { IsExamined next }
    ensures took { OnOk result ((c : Committed) × (next.bytes.items ≡ commit_bytes c.commit)
        × Grows S.may_give view.old (c ∷ []) view.new) }
    ensures err { OnErr result (view.new.holding ≡ view.old.holding) }
    ensures asks { AsksOn S.may_give S.follows view.old view.new }
{
    let Record {
        bytes,
        item: _item,
        commit,
        key: _key,
        verdict,
        digests,
    } = next;
    match (commit, verdict, digests) {
        (Ok(commit), Some(verdict), Some(digests)) => {
            view.accept_known(commit, bytes.as_slice(), digests.commit, verdict)
        }
        _ => view.accept_bytes(bytes.as_slice()),
    }
}

/// Returns the log of a view's list behind its first `from_` commits: of each commit its bytes and the
/// item of its change, each with its length before it. `MissingBlock` where the view has left one of
/// these entries, `NoMemory`.
pub fn log_behind<S: BlockSource + Drop>(
    alloc: Global,
    view: &View<S>,
    from_: u64,
) -> Result<Vec<u8>, Refusal>
    ensures value { IfOk result (λ log.
        log.items ≡ saved_log (drop from_ view.now.holding.held)) }
    ensures missing { result ≡ Err MissingBlock → from_ < view.now.holding.itemless }
{
    let (count, _) = view.head();
    let mut log = Vec::new(alloc);
    for before in from_..count {
        put_entry(&mut log, view, before + 1)?;
    }
    Ok(log)
}

/// Appends the commit of that number, and the item of its change.
fn put_entry<S: BlockSource + Drop>(
    log: &mut Vec<u8>,
    view: &View<S>,
    number: u64,
) -> Result<(), Refusal>
    ensures value { (c : Committed) → committed_at view.now.holding.held number ≡ Some c
        → OnOk result (log.new.items ≡ log.old.items ++ entry_bytes c) }
    ensures missing { result ≡ Err MissingBlock
        → (committed_at view.now.holding.held number ≡ None)
        ⊎ (number ≤ view.now.holding.itemless) }
{
    let Some((commit, item)) = view.entry(number) else {
        return Err(Refusal::MissingBlock);
    };
    put_bytes(log, commit)?;
    put_bytes(log, item)
}

/// Appends bytes with their number before them.
fn put_bytes(log: &mut Vec<u8>, bytes: &[u8]) -> Result<(), Refusal>
    ensures value { OnOk result (log.new.items ≡ log.old.items ++ part_bytes bytes.now) }
    ensures refused { IfErr result (λ e. (e ≡ TooBig) ⊎ (e ≡ NoMemory)) }
{
    let Ok(count) = u32::try_from(bytes.len()) else {
        return Err(Refusal::TooBig);
    };
    log.extend_from_slice(&count.to_be_bytes())?;
    log.extend_from_slice(bytes)?;
    Ok(())
}

/// What is saved is what is read: the log of a list is that of the records of its commits.
pub fn saved_logs_are_logs()
    ensures { (cs : List Committed) → saved_log cs ≡ log_bytes (map saved_record cs) }
{}
