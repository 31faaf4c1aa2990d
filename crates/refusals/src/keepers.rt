// A keeper of a book's records of which one call fails.
ghost use Rattle.std.specs.Prelude.{◌≡◌, IfOk, IfSome};
ghost use Rattle.sha2.specs.Sha256.{sha256};

use std::alloc::{AllocError, Global};
use su_block::digest_of;
use su_bytes::Digest;
use su_keeper::{Keeper, NotKept};

/// Keeps records with their items in memory, and gives them back. One call fails: the one of a
/// number, from 1. Once a record isn't kept, no more are.
#[derive(Drop)]
pub(crate) struct FailingKeeper {
    records: Vec<Vec<u8>>,
    items: Vec<Vec<u8>>,
    /// The number of the call that fails, from now on; 0 where none does.
    left: u64,
    has_stopped: bool,
}

impl FailingKeeper {
    /// Makes a keeper of nothing of which the call of that number fails.
    pub(crate) fn new(alloc: Global, at: u64) -> FailingKeeper {
        FailingKeeper {
            records: Vec::new(alloc),
            items: Vec::new(alloc),
            left: at,
            has_stopped: false,
        }
    }

    /// Whether the call that fails has come.
    pub(crate) fn has_failed(&self) -> bool {
        self.left == 0
    }

    /// How many records it keeps.
    pub(crate) fn count(&self) -> usize {
        self.records.len()
    }

    /// Counts a call, and tells whether it is the one that fails.
    fn is_due(&mut self) -> bool {
        let is_due = self.left == 1;
        self.left = self.left.saturating_sub(1);
        is_due
    }

    fn hold(&mut self, alloc: Global, commit: &[u8], items: &[Vec<u8>]) -> Result<(), AllocError> {
        for item in items {
            self.items.push(Vec::from_slice(alloc, item.as_slice())?)?;
        }
        self.records.push(Vec::from_slice(alloc, commit)?)?;
        Ok(())
    }
}

/// Finds the bytes that have this digest.
fn find(alloc: Global, among: &[Vec<u8>], digest: Digest) -> Result<Option<Vec<u8>>, NotKept>
    ensures { IfOk result (λ found. IfSome found (λ item. sha256 item.items ≡ digest)) }
{
    for bytes in among {
        if digest_of(bytes.as_slice()) == digest {
            let Ok(copy) = Vec::from_slice(alloc, bytes.as_slice()) else {
                return Err(NotKept);
            };
            return Ok(Some(copy));
        }
    }
    Ok(None)
}

impl Keeper for FailingKeeper {
    ghost use Rattle.std.specs.Prelude.{◌≡◌, ⊤, [], true};

    ghost holds = { λ _ _. Unit {0} };

    ghost found = { λ _ rest. rest ≡ [] };

    ghost is_at_end = { λ _. Unit {0} };

    ghost is_clean = { λ _. Unit {0} };

    ghost may_fail = { ⊤ };

    ghost reads_back = { true };

    fn keep(&mut self, alloc: Global, commit: &[u8], items: &[Vec<u8>]) -> Result<(), NotKept> {
        if self.has_stopped || self.is_due() || self.hold(alloc, commit, items).is_err() {
            self.has_stopped = true;
            return Err(NotKept);
        }
        Ok(())
    }

    fn next(&mut self, _alloc: Global) -> Result<Option<Vec<u8>>, NotKept> {
        Ok(None)
    }

    fn gives_back() -> bool {
        true
    }

    fn record(
        &mut self,
        alloc: Global,
        _number: u64,
        digest: Digest,
    ) -> Result<Option<Vec<u8>>, NotKept> {
        if self.is_due() {
            return Err(NotKept);
        }
        find(alloc, self.records.as_slice(), digest)
    }

    fn item(&mut self, alloc: Global, digest: Digest) -> Result<Option<Vec<u8>>, NotKept> {
        if self.is_due() {
            return Err(NotKept);
        }
        find(alloc, self.items.as_slice(), digest)
    }

    fn stop(&mut self) {
        self.has_stopped = true;
    }
}
