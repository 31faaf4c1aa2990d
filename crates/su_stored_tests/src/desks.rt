// Desks over sources with faults, and one that leaves nothing.
use crate::changes::key_of;
use crate::sources::{Fault, Fickle};
use std::alloc::Global;
use su_block::{BlockSource, Checked};
use su_block_cache::BlockCache;
use su_bytes::{Digest, KEY_LENGTH, Refusal, Roster, User};
use su_no_blocks::NoBlocks;
use su_op::Change;
use su_stored_desk::TrialDesk;

/// The source of a desk in these tests.
pub(crate) type Source = BlockCache<Checked<Fickle>>;

/// A desk on whose source no trust is put.
pub(crate) type StoredDesk = TrialDesk<Source>;

/// A desk all of whose tree is in memory.
pub(crate) type WholeDesk = TrialDesk<NoBlocks>;

/// Makes a desk of two users all of whose tree is in memory.
pub(crate) fn whole_desk(alloc: Global) -> Result<WholeDesk, Refusal> {
    TrialDesk::new(alloc, two_users(alloc)?, NoBlocks::new())
}

/// Makes the roster of two users: group 0 has both, group 1 has user 0.
pub(crate) fn two_users(alloc: Global) -> Result<Roster, Refusal> {
    Roster::of_keys(alloc, &[[0; KEY_LENGTH], [1; KEY_LENGTH]])
}

/// Makes a desk of two users over a whole source, of whose items so many are kept.
pub(crate) fn stored_desk(alloc: Global, capacity: usize) -> Result<StoredDesk, Refusal> {
    let source = BlockCache::new(alloc, Checked::new(Fickle::new(alloc)), capacity)?;
    TrialDesk::new(alloc, two_users(alloc)?, source)
}

/// Has the desk's source have that fault after so many calls, and from then on if it lasts.
pub(crate) fn set_fault(desk: &mut StoredDesk, fault: Fault, before: u64, lasts: bool) {
    let source = desk.source_mut().source_mut().source_mut();
    source.set_fault(fault, before, lasts);
}

/// Has the desk's source have no fault from now on.
pub(crate) fn mend(desk: &mut StoredDesk) {
    desk.source_mut().source_mut().source_mut().mend();
}

/// Returns the i-handle of a user, who names key 255 for that on trial.
pub(crate) fn handle_of<S: BlockSource>(
    desk: &mut TrialDesk<S>,
    user: User,
) -> Result<Digest, Refusal> {
    let prepared = desk.prepare(user, Change::Rekey(key_of(255)))?;
    Ok(prepared.author_handle)
}

/// Returns in how many calls the desk's source has failed.
pub(crate) fn failures(desk: &mut StoredDesk) -> u64 {
    desk.source_mut().failures()
}
