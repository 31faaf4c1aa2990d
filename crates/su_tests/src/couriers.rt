// A source of items that may do anything.
ghost use Rattle.std.specs.Prelude.{◌≡◌, ◌⊎◌, false, IfErr};
ghost use Rattle.su_bytes.specs.declared.refusals.Refusal.TheVariants.{MissingBlock, WrongBlock, SourceFailed, NoMemory};

use std::alloc::Global;
use su_block::{BlockSource, Failures, MemoryBlocks};
use su_bytes::{Digest, Refusal};

/// What a courier does when it is asked for an item.
#[derive(Clone, Copy, Debug, PartialEq, Eq)]
pub(crate) enum Mood {
    /// It gives the item, if it has it.
    Honest,
    /// It gives other bytes.
    Wrong,
    /// It can't be asked.
    Broken,
}

/// A source that holds items in memory, and gives them or not, by its mood.
#[derive(Drop)]
pub(crate) struct Courier {
    pub(crate) items: MemoryBlocks,
    pub(crate) mood: Mood,
    failures: Failures,
}

impl Courier {
    /// Makes an honest courier without items.
    pub(crate) fn new(alloc: Global) -> Courier {
        Courier {
            items: MemoryBlocks::new(alloc),
            mood: Mood::Honest,
            failures: Failures::none(),
        }
    }

    fn find(&mut self, alloc: Global, digest: Digest) -> Result<Vec<u8>, Refusal>
        ensures failures { self.new.failures ≡ self.old.failures }
        ensures refused { IfErr result (λ e. (e ≡ MissingBlock) ⊎ (e ≡ WrongBlock)
            ⊎ (e ≡ SourceFailed) ⊎ (e ≡ NoMemory)) }
    {
        match self.mood {
            Mood::Honest => self.items.get(alloc, digest),
            Mood::Wrong => Ok(Vec::from_slice(alloc, b"other bytes")?),
            Mood::Broken => Err(Refusal::SourceFailed),
        }
    }
}

impl BlockSource for Courier {
    ghost may_give = { λ _ _. Unit {0} };

    ghost is_checked = { false };

    ghost failed = { λ c. c.failures };

    ghost follows = { λ _ _. Unit {0} };

    ghost puts = { λ _ _ _. Unit {0} };

    ghost follows_itself = { λ _. tt };

    ghost follows_on = { λ _ _ _ _ _. tt };

    fn get(&mut self, alloc: Global, digest: Digest) -> Result<Vec<u8>, Refusal> {
        let found = self.find(alloc, digest);
        if let Err(refusal) = &found {
            self.failures.note(refusal, digest);
        }
        found
    }

    fn put(&mut self, alloc: Global, item: &[u8]) -> Result<Digest, Refusal> {
        self.items.put(alloc, item)
    }

    fn failures(&self) -> u64 {
        self.failures.count
    }

    fn failed_at(&self) -> Option<Digest> {
        self.failures.last
    }
}
