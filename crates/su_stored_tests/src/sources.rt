// A source that may do anything, and what is made of that.
ghost use Rattle.std.specs.Prelude.{◌≡◌, ◌⊎◌, false, IfErr};
ghost use Rattle.su_bytes.specs.declared.refusals.Refusal.TheVariants.{MissingBlock, WrongBlock, SourceFailed, NoMemory};

use std::alloc::Global;
use std::test::Fail;
use su_block::{BlockSource, Failures, MemoryBlocks, digest_of, is_item};
use su_block_cache::BlockCache;
use su_bytes::{Digest, Refusal};
use su_part_tree::PartTree;

/// What a source does that isn't whole.
#[derive(Clone, Copy, Debug, PartialEq, Eq)]
pub(crate) enum Fault {
    /// It has no such item.
    Lacks,
    /// It gives other bytes.
    Lies,
    /// It can't be asked.
    Fails,
}

impl Fault {
    /// Returns how a call is refused that meets it.
    pub(crate) fn refusal(self) -> Refusal {
        match self {
            Fault::Lacks => Refusal::MissingBlock,
            Fault::Lies => Refusal::WrongBlock,
            Fault::Fails => Refusal::SourceFailed,
        }
    }
}

/// A source that holds what it takes in memory, and at some call has a fault.
#[derive(Drop)]
pub(crate) struct Fickle {
    blocks: MemoryBlocks,
    fault: Option<Fault>,
    /// How many calls come before it.
    before: u64,
    /// Whether the calls behind have it as well.
    lasts: bool,
    failures: Failures,
}

impl Fickle {
    /// Makes a whole source without items.
    pub(crate) fn new(alloc: Global) -> Fickle {
        Fickle {
            blocks: MemoryBlocks::new(alloc),
            fault: None,
            before: 0,
            lasts: false,
            failures: Failures::none(),
        }
    }

    /// Has that fault after so many calls, and from then on if it lasts.
    pub(crate) fn set_fault(&mut self, fault: Fault, before: u64, lasts: bool) {
        self.fault = Some(fault);
        self.before = before;
        self.lasts = lasts;
    }

    /// Has no fault from now on.
    pub(crate) fn mend(&mut self) {
        self.fault = None;
    }

    /// Returns the fault of the call that comes.
    fn next_fault(&mut self) -> Option<Fault>
        ensures { self.new.failures ≡ self.old.failures }
    {
        if 0 < self.before {
            self.before -= 1;
            return None;
        }
        let fault = self.fault;
        if !self.lasts {
            self.fault = None;
        }
        fault
    }

    fn find(&mut self, alloc: Global, digest: Digest) -> Result<Vec<u8>, Refusal>
        ensures failures { self.new.failures ≡ self.old.failures }
        ensures refused { IfErr result (λ e. (e ≡ MissingBlock) ⊎ (e ≡ WrongBlock)
            ⊎ (e ≡ SourceFailed) ⊎ (e ≡ NoMemory)) }
    {
        match self.next_fault() {
            None => self.blocks.get(alloc, digest),
            Some(Fault::Lacks) => Err(Refusal::MissingBlock),
            Some(Fault::Lies) => Ok(Vec::from_slice(alloc, b"other bytes")?),
            Some(Fault::Fails) => Err(Refusal::SourceFailed),
        }
    }
}

impl BlockSource for Fickle {
    ghost may_give = { λ _ _. Unit {0} };

    ghost is_checked = { false };

    ghost failed = { λ c. c.failures };

    ghost follows = { λ _ _. Unit {0} };

    ghost puts = { λ _ _ _. Unit {0} };

    ghost follows_itself = { λ _. tt };

    ghost follows_on = { λ _ _ _ _ _. tt };

    fn get(&mut self, alloc: Global, digest: Digest) -> Result<Vec<u8>, Refusal> {
        let found = self.find(alloc, digest);
        if let Err(refusal) = &found {
            self.failures.note(refusal, digest);
        }
        found
    }

    fn put(&mut self, alloc: Global, item: &[u8]) -> Result<Digest, Refusal> {
        if !is_item(item) {
            return Err(Refusal::TooBig);
        }
        if let Some(Fault::Fails) = self.next_fault() {
            self.failures.add(digest_of(item));
            return Err(Refusal::SourceFailed);
        }
        self.blocks.put(alloc, item)
    }

    fn failures(&self) -> u64 {
        self.failures.count
    }

    fn failed_at(&self) -> Option<Digest> {
        self.failures.last
    }
}

// User 0's file 3 is made in the directory 2, with the name `f`.
const CHANGE: [u8; 21] = [
    5, 1, 0, 0, 0, 0, 0, 2, 1, 0x66, 0, 0, 0, 0, 0, 3, 0, 0, 0, 3, 0,
];

#[test]
fn a_change_is_no_node(rt: HostRuntime) -> Result<(), Fail> {
    let mut blocks = MemoryBlocks::new(rt.alloc());
    let digest = blocks.put(rt.alloc(), &CHANGE)?;
    let mut tree: PartTree<u32, Digest> = PartTree::stub(rt.alloc(), digest);
    assert_eq!(rt; tree.load(&mut blocks), Err(Refusal::Malformed(0)));
    Ok(())
}

#[test]
fn a_cache_keeps_something(rt: HostRuntime) -> Result<(), Fail> {
    let none = BlockCache::new(rt.alloc(), MemoryBlocks::new(rt.alloc()), 0);
    assert!(rt; matches!(none, Err(Refusal::BadNumber)));
    Ok(())
}
