// Which operations may be undone.
ghost use Rattle.std.specs.Prelude.{◌≡◌, Some, None, IsSome, IfErr, OnOk};
ghost use Rattle.su_bytes.specs.Membership.{Membership};
ghost use Rattle.su_desk.specs.Answer.{live_refusal, undo_refusal};
ghost use Rattle.su_live.specs.Live.{find_live};
ghost use Rattle.su_stored_desk.specs.Keeping.{AreKept};

use su_bytes::{Refusal, Roster, User};
use su_desk::{KeptEntry, entry_at, undoer_in};
use su_live::LiveOperations;
use su_part_inverse::KeptInverse;

/// Checks whether the author may undo the operation of that number; else tells the first refusal.
/// (That something is kept of each live operation, and of no other, its owner knows.) Takes no memory.
pub(crate) fn check_undo(
    roster: &Roster,
    entries: &[KeptEntry],
    kept: &LiveOperations<KeptInverse>,
    author: User,
    number: u64,
) -> Result<(), Refusal>
    ensures kept { OnOk result (IsSome (find_live number kept.now)) }
    ensures accepted { AreKept roster.now entries.now kept.now
        → OnOk result (undo_refusal roster.now entries.now author number ≡ None) }
    ensures refused { AreKept roster.now entries.now kept.now → IfErr result (λ e.
        undo_refusal roster.now entries.now author number ≡ Some e) }
{
    if !roster.has_user(author) {
        return Err(Refusal::NoUser(author));
    }
    check_live(entries, kept, number)?;
    let Some(entry) = entry_at(entries, number) else {
        return Err(Refusal::NoOperation(number));
    };
    if author != entry.author() {
        return Err(Refusal::NotAuthor(entry.author()));
    }
    match kept.blocker(number) {
        Some(blocker) => Err(Refusal::Blocked(blocker)),
        None => Ok(()),
    }
}

/// Checks whether the operation of that number is live; else tells why it is none. Only then the
/// history is searched. Takes no memory.
pub(crate) fn check_live(
    entries: &[KeptEntry],
    kept: &LiveOperations<KeptInverse>,
    number: u64,
) -> Result<(), Refusal>
    ensures kept { OnOk result (IsSome (find_live number kept.now)) }
    ensures live { (ro : Membership) → AreKept ro entries.now kept.now
        → OnOk result (live_refusal entries.now number ≡ None) }
    ensures refused { (ro : Membership) → AreKept ro entries.now kept.now
        → IfErr result (λ e. live_refusal entries.now number ≡ Some e) }
{
    if kept.find(number).is_some() {
        return Ok(());
    }
    let Some(entry) = entry_at(entries, number) else {
        return Err(Refusal::NoOperation(number));
    };
    if !entry.is_operation() {
        return Err(Refusal::NotOperation(number));
    }
    match undoer_in(entries, number) {
        Some(by) => Err(Refusal::AlreadyUndone(number, by)),
        None => Err(Refusal::NoOperation(number)),
    }
}
