// One record of a log.
ghost use Rattle.std.specs.Prelude.{◌≡◌, ◌≢◌, ◌⊎◌, ◌↔◌, ℕ, IsTrue, List, [], ◌∷◌, false, Ok, IfErr, OnOk, OnErr};
ghost use Rattle.su_view.specs.declared.refusals.ViewRefusal.TheVariants.{Plain};
ghost use Rattle.sha2.specs.Sha256.{sha256};
ghost use Rattle.su_bytes.specs.declared.refusals.Refusal.TheVariants.{Malformed, MissingBlock, NoMemory};
ghost use Rattle.su_op.specs.declared.operations.Change.{Change};
ghost use Rattle.su_change.specs.Item.{item_bytes};
ghost use Rattle.su_version.specs.Chain.{IsSignedBy};
ghost use Rattle.su_version.specs.Commit.{Commit as CommitParts, commit_bytes};
ghost use Rattle.su_view.specs.Holding.{Took};
ghost use Rattle.su_view.specs.Joining.{IsRefusedCommit};
ghost use Rattle.su_view.specs.Viewed.{FailsToLoad};
ghost use Rattle.su_log.specs.Record.{AreDigests, IsExamined, IsVerdict, spelled};
ghost use Rattle.su_log_ahead.specs.Ahead.{IsLeft};
ghost use Rattle.su_audit.specs.declared.steps.NotTaken.TheVariants.{Refused, Unloaded};
ghost use Rattle.su_audit.specs.declared.steps.Step.TheVariants as step;
ghost use Rattle.su_audit.specs.Step.{IfRefused, IsRefusedRecord, TakesRecord, Steps};

use crate::audits::Fault;
use std::alloc::Global;
use std::io::Read;
use std::thread::Threads;
use su_block::{BlockSource, MemoryBlocks};
use su_bytes::Refusal;
use su_log::{Digests, Record, Stop};
use su_log_ahead::Ahead;
use su_no_blocks::NoBlocks;
use su_version::{Commit, Verdict};
use su_view::{View, ViewRefusal};

/// What comes of the next record of a log.
#[derive(Drop)]
pub(crate) enum Step {
    /// Its commit is taken.
    Took,
    /// There is none.
    Ended,
    /// It is refused.
    Refused(ViewRefusal),
    /// Something fails, as reading it.
    Failed(Fault),
}

/// Why the commit of a record isn't taken.
#[derive(Drop)]
enum NotTaken {
    /// It is refused.
    Refused(ViewRefusal),
    /// Something of the view's tree isn't loaded. (It can't come, as nothing of it was left anywhere;
    /// but no clause of the view says so.)
    Unloaded,
}

/// Puts the item of the next record of a log among those that came before, and lets the view take
/// its commit. `Malformed` with the place in the log of a number of bytes that is cut or goes past
/// the end; `TooBig` where the item has none or too many bytes; `Malformed` with a place in the
/// commit's own bytes; then the refusals of the view, of which `MissingBlock` tells that none of the
/// items has the digest that the commit names.
pub(crate) fn next_step<T: Threads + Sync, R: Read + Drop>(
    rt: &T,
    alloc: Global,
    log: &mut Ahead<R>,
    items: &mut MemoryBlocks,
    view: &mut View<NoBlocks>,
) -> Step
    ensures { (place : ℕ) (input : List ℕ) → IsLeft log.old place input
        → Steps place view.old.holding items.old.items input (IsLeft log.new)
        view.new.holding items.new.items result }
{
    match log.next(rt, alloc) {
        Ok(next) => match take(alloc, items, view, next) {
            Ok(()) => Step::Took,
            Err(NotTaken::Refused(refusal)) => Step::Refused(refusal),
            Err(NotTaken::Unloaded) => Step::Failed(Fault::NoMemory),
        },
        Err(Stop::End) => Step::Ended,
        Err(Stop::Cut(place)) => refused_at(place),
        Err(Stop::Failed(error)) => Step::Failed(Fault::Reading(error)),
    }
}

/// The refusal of a number of bytes at that place.
fn refused_at(place: u64) -> Step
    ensures { result ≡ step.Refused (Plain (Malformed place)) }
{
    Step::Refused(ViewRefusal::Plain(Refusal::Malformed(place)))
}

/// Puts the item of a record among those that came before, and lets the view take its commit.
fn take(
    alloc: Global,
    items: &mut MemoryBlocks,
    view: &mut View<NoBlocks>,
    next: Record,
) -> Result<(), NotTaken>
    requires { IsExamined next }
    ensures took { OnOk result (TakesRecord view.old.holding items.old.items (spelled next)
        view.new.holding items.new.items) }
    ensures refused { IfErr result (IfRefused (IsRefusedRecord view.old.holding items.old.items
        next.bytes.items next.item.items)) }
    ensures err { OnErr result (view.new.holding ≡ view.old.holding) }
{
    let Record {
        bytes,
        item,
        commit,
        key: _key,
        verdict,
        digests,
    } = next;
    let Some(digests) = digests else {
        unreachable!()
    };
    let _digest = match items.put(alloc, item.as_slice()) {
        Ok(digest) => digest,
        Err(refusal) => return Err(refused(refusal)),
    };
    let commit = match commit {
        Ok(commit) => commit,
        Err(refusal) => return Err(refused(refusal)),
    };
    let change = commit.version().change();
    match items.get(alloc, change) {
        Ok(found) => {
            let digests = Digests {
                commit: digests.commit,
                item: change,
            };
            join(
                view,
                commit,
                bytes.as_slice(),
                found,
                digests,
                verdict,
                true,
            )
        }
        // The view looks whether the commit may be the next before it looks at the item.
        Err(Refusal::MissingBlock) => {
            join(
                view,
                commit,
                bytes.as_slice(),
                item,
                digests,
                verdict,
                false,
            )
        }
        Err(refusal) => Err(refused(refusal)),
    }
}

/// The refusal that other calls share.
fn refused(refusal: Refusal) -> NotTaken
    ensures { result ≡ Refused (Plain refusal) }
{
    NotTaken::Refused(ViewRefusal::Plain(refusal))
}

/// Lets the view take a commit, with an item and the digests of both; `is_named` tells whether the item
/// has the digest that the commit names. `MissingBlock` where it hasn't.
fn join(
    view: &mut View<NoBlocks>,
    commit: Commit,
    bytes: &[u8],
    item: Vec<u8>,
    digests: Digests,
    verdict: Option<Verdict>,
    is_named: bool,
) -> Result<(), NotTaken>
    requires bytes { bytes.now ≡ commit_bytes commit }
    requires digests { AreDigests bytes.now item.items digests }
    requires verdict { IsVerdict (Ok commit) verdict }
    requires other { is_named ≡ false → sha256 item.items ≢ commit.version.change }
    ensures took { OnOk result ((change : Change)
        × (item_bytes change ≡ item.items) × Took view.old.holding
        (record { commit = commit; change = change } ∷ []) view.new.holding) }
    ensures refused { IfErr result (IfRefused (λ e. (e ≡ Plain NoMemory)
        ⊎ ((e ≡ Plain MissingBlock) × (sha256 item.items ≢ commit.version.change))
        ⊎ IsRefusedCommit (λ i. i ≡ item.items) view.old.holding commit e)) }
    ensures err { OnErr result (view.new.holding ≡ view.old.holding) }
{
    match view.accept_with(commit, bytes, item, digests, verdict_or_none(verdict)) {
        Ok(()) => Ok(()),
        Err(refusal) => Err(not_taken(refusal, is_named)),
    }
}

/// Returns the verdict on a commit, if there is one; else that it isn't signed under no key, so that
/// who takes the commit checks its signature.
fn verdict_or_none(known: Option<Verdict>) -> Verdict
    ensures { (c : CommitParts) → IsVerdict (Ok c) known
        → IsTrue result.is_signed ↔ IsSignedBy result.key c }
{
    match known {
        Some(verdict) => verdict,
        None => Verdict {
            key: None,
            is_signed: false,
        },
    }
}

/// Tells why a commit isn't taken, by what a view refused that had an item for it: a load that is
/// refused isn't told as a refusal, but for want of memory. `is_named` tells whether it was the item
/// that the commit names, which can't be missing.
fn not_taken(refusal: ViewRefusal, is_named: bool) -> NotTaken
    ensures { ((result ≡ Unloaded) × FailsToLoad refusal) ⊎ ((result ≡ Refused refusal)
        × (FailsToLoad refusal → (refusal ≡ Plain NoMemory)
        ⊎ ((refusal ≡ Plain MissingBlock) × (is_named ≡ false)))) }
{
    match refusal {
        ViewRefusal::Plain(Refusal::MissingBlock) if !is_named => NotTaken::Refused(refusal),
        ViewRefusal::Plain(
            Refusal::MissingBlock
            | Refusal::WrongBlock
            | Refusal::SourceFailed
            | Refusal::Malformed(0),
        ) => NotTaken::Unloaded,
        _ => NotTaken::Refused(refusal),
    }
}
