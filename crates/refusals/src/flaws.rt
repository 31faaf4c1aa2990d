// A source of which one call has a flaw.
ghost use Rattle.std.specs.Prelude.{◌≡◌, ◌⊎◌, false, IfErr};
ghost use Rattle.su_bytes.specs.declared.refusals.Refusal.TheVariants.{MissingBlock, WrongBlock, SourceFailed, NoMemory};

use std::alloc::Global;
use su_block::{BlockSource, Failures, MemoryBlocks, digest_of, is_item};
use su_bytes::{Digest, Refusal};

/// What a source does at a call that it doesn't answer as it should.
#[derive(Clone, Copy, Debug, PartialEq, Eq)]
pub(crate) enum Flaw {
    /// It can't be asked.
    Fails,
    /// It has no such item.
    Lacks,
    /// It gives other bytes.
    Lies,
}

impl Flaw {
    /// Returns how a call is refused that meets it.
    pub(crate) fn refusal(self) -> Refusal {
        match self {
            Flaw::Fails => Refusal::SourceFailed,
            Flaw::Lacks => Refusal::MissingBlock,
            Flaw::Lies => Refusal::WrongBlock,
        }
    }
}

/// A source that holds what it takes in memory, and of which one call has a flaw: the one of a
/// number, from 1, of those that can have it.
#[derive(Drop)]
pub(crate) struct Flawed {
    blocks: MemoryBlocks,
    flaw: Flaw,
    /// The number of the call that has it, from now on; 0 where none does.
    left: u64,
    failures: Failures,
}

impl Flawed {
    /// Makes a source without items, of which no call has this flaw yet.
    pub(crate) fn new(alloc: Global, flaw: Flaw) -> Flawed {
        Flawed {
            blocks: MemoryBlocks::new(alloc),
            flaw,
            left: 0,
            failures: Failures::none(),
        }
    }

    /// Lets the call of that number have the flaw from now on, and none where it is 0. Returns the
    /// number that it was: 0 where none had it, or that call has come.
    pub(crate) fn set(&mut self, at: u64) -> u64 {
        let left = self.left;
        self.left = at;
        left
    }

    /// Counts a call, and tells whether it is the one that has the flaw.
    fn is_due(&mut self) -> bool
        ensures { self.new.failures ≡ self.old.failures }
    {
        let is_due = self.left == 1;
        self.left = self.left.saturating_sub(1);
        is_due
    }

    fn find(&mut self, alloc: Global, digest: Digest) -> Result<Vec<u8>, Refusal>
        ensures failures { self.new.failures ≡ self.old.failures }
        ensures refused { IfErr result (λ e. (e ≡ MissingBlock) ⊎ (e ≡ WrongBlock)
            ⊎ (e ≡ SourceFailed) ⊎ (e ≡ NoMemory)) }
    {
        if !self.is_due() {
            return self.blocks.get(alloc, digest);
        }
        match self.flaw {
            Flaw::Fails => Err(Refusal::SourceFailed),
            Flaw::Lacks => Err(Refusal::MissingBlock),
            Flaw::Lies => Ok(Vec::from_slice(alloc, b"other bytes")?),
        }
    }
}

impl BlockSource for Flawed {
    ghost may_give = { λ _ _. Unit {0} };

    ghost is_checked = { false };

    ghost failed = { λ c. c.failures };

    ghost follows = { λ _ _. Unit {0} };

    ghost puts = { λ _ _ _. Unit {0} };

    ghost follows_itself = { λ _. tt };

    ghost follows_on = { λ _ _ _ _ _. tt };

    fn get(&mut self, alloc: Global, digest: Digest) -> Result<Vec<u8>, Refusal> {
        let found = self.find(alloc, digest);
        if let Err(refusal) = &found {
            self.failures.note(refusal, digest);
        }
        found
    }

    // (No item is lacking, or another one, where one is put.)
    fn put(&mut self, alloc: Global, item: &[u8]) -> Result<Digest, Refusal> {
        if !is_item(item) {
            return Err(Refusal::TooBig);
        }
        if self.flaw == Flaw::Fails && self.is_due() {
            self.failures.add(digest_of(item));
            return Err(Refusal::SourceFailed);
        }
        self.blocks.put(alloc, item)
    }

    fn failures(&self) -> u64 {
        self.failures.count
    }

    fn failed_at(&self) -> Option<Digest> {
        self.failures.last
    }
}
