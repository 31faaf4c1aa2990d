// A keeper that notes how many records it has kept.
ghost use Rattle.std.specs.Prelude.{◌≡◌, ◌≤◌, ◌↔◌, [], length, None, IfSome};

use crate::notebooks::Notebook;
use std::alloc::Global;
use su_bytes::Digest;
use su_keeper::{Keeper, NotKept};

/// What a keeper lacks: it found fewer records than were noted.
#[derive(Clone, Copy, Debug, PartialEq, Eq)]
pub struct Loss {
    /// How many records there are.
    pub kept: u64,
    /// How many there were.
    pub noted: u64,
}

/// A keeper that notes how many records it has kept. One that finds fewer than were noted fails once
/// it has given the last of them.
#[derive(Drop)]
pub struct Tallied<K: Keeper, N: Notebook> {
    keeper: K,
    notebook: N,
    /// How many records it holds.
    kept: u64,
    /// How many were noted.
    noted: u64,
}

impl<K: Keeper, N: Notebook> Tallied<K, N> {
    /// Counts the records of a keeper that holds none yet, of which so many were noted by an earlier
    /// process.
    pub fn new(keeper: K, notebook: N, noted: u64) -> Tallied<K, N>
        requires { K.holds keeper [] }
        ensures keeper { result.keeper ≡ keeper }
        ensures none { result.kept ≡ 0 }
        ensures noted { result.noted ≡ noted }
    {
        Tallied {
            keeper,
            notebook,
            kept: 0,
            noted,
        }
    }

    /// Lends the keeper.
    pub fn keeper(&self) -> &K
        ensures { result.now ≡ self.now.keeper }
    {
        &self.keeper
    }

    /// Hands the keeper back.
    pub fn into_keeper(self) -> K
        ensures { result ≡ self.keeper }
    {
        self.keeper
    }

    /// Returns what it lacks of what was noted, if it does.
    pub fn loss(&self) -> Option<Loss>
        ensures none { result ≡ None ↔ self.now.noted ≤ self.now.kept }
        ensures counts { IfSome result (λ loss.
            (loss.kept ≡ self.now.kept) × (loss.noted ≡ self.now.noted)) }
    {
        if self.noted <= self.kept {
            return None;
        }
        Some(Loss {
            kept: self.kept,
            noted: self.noted,
        })
    }

    /// Notes how many records it holds, where that is more than was noted.
    fn note(&mut self)
        ensures keeper { self.new.keeper ≡ self.old.keeper }
        ensures kept { self.new.kept ≡ self.old.kept }
        ensures noted { self.old.noted ≤ self.old.kept → self.new.noted ≤ self.old.kept }
    {
        if self.noted < self.kept {
            self.notebook.note(self.kept);
            self.noted = self.kept;
        }
    }
}

/// It holds what the keeper within holds, and counts it, and found what that found. It is at the end
/// where that is, and it found no fewer than were noted.
impl<K: Keeper, N: Notebook> Keeper for Tallied<K, N> {
    ghost holds = { λ t records. K.holds t.keeper records × (length records ≡ t.kept) };

    ghost found = { λ t rest. K.found t.keeper rest };

    ghost is_at_end = { λ t. K.is_at_end t.keeper × (t.noted ≤ t.kept) };

    ghost is_clean = { λ t. K.is_clean t.keeper };

    ghost may_fail = { Unit {0} };

    ghost reads_back = { K.reads_back };

    fn keep(&mut self, alloc: Global, commit: &[u8], items: &[Vec<u8>]) -> Result<(), NotKept> {
        let Some(kept) = self.kept.checked_add(1) else {
            return Err(NotKept);
        };
        self.keeper.keep(alloc, commit, items)?;
        self.kept = kept;
        self.note();
        Ok(())
    }

    fn next(&mut self, alloc: Global) -> Result<Option<Vec<u8>>, NotKept> {
        let found = self.keeper.next(alloc)?;
        if found.is_none() && self.kept < self.noted {
            return Err(NotKept);
        }
        Ok(found)
    }

    fn gives_back() -> bool {
        K::gives_back()
    }

    fn record(
        &mut self,
        alloc: Global,
        number: u64,
        digest: Digest,
    ) -> Result<Option<Vec<u8>>, NotKept> {
        self.keeper.record(alloc, number, digest)
    }

    fn item(&mut self, alloc: Global, digest: Digest) -> Result<Option<Vec<u8>>, NotKept> {
        self.keeper.item(alloc, digest)
    }

    fn stop(&mut self) {
        self.keeper.stop();
        let has_all = self.noted <= self.kept;
        self.kept = self.kept.saturating_sub(1);
        // that the last record was noted is no loss
        if has_all {
            self.noted = self.noted.min(self.kept);
        }
    }
}
