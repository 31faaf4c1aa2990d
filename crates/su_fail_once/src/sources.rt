// A source of which one call fails.
ghost use Rattle.std.specs.Prelude.{◌≡◌, ◌⊎◌, ◌↔◌, ◌-◌, ℕ, List, true, false, cond, IfOk, IfErr, OnOk, OnErr, Err, None};
ghost use Rattle.sha2.specs.Sha256.{sha256};
ghost use Rattle.su_block.specs.Item.{is_item};
ghost use Rattle.su_block.specs.Failure.{failures_after};
ghost use Rattle.su_bytes.specs.declared.refusals.Refusal.TheVariants.{MissingBlock, WrongBlock, SourceFailed, TooBig, NoMemory};

use std::alloc::Global;
use su_block::{BlockSource, Failures, digest_of, is_item};
use su_bytes::{Digest, Refusal};

/// A source over another one, of which one call of `get` or `put` fails without asking that one:
/// the one of a number, from 1. All others go through. It counts the failures of both.
#[derive(Drop)]
pub struct FailOnce<S: BlockSource> {
    source: S,
    /// The number of the call that fails, from now on; 0 where none does.
    left: u64,
    failures: Failures,
}

impl<S: BlockSource> FailOnce<S> {
    /// Makes a source over this one of which the call of that number fails, and none where it is 0.
    /// No call of it has failed.
    pub fn new(source: S, at: u64) -> FailOnce<S>
        ensures source { result.source ≡ source }
        ensures left { result.left ≡ at }
        ensures failures { result.failures ≡ record { count = 0; last = None } }
    {
        FailOnce {
            source,
            left: at,
            failures: Failures::none(),
        }
    }

    /// Counts a call, and tells whether it is the one that fails.
    fn is_due(&mut self) -> bool
        ensures due { (result ≡ true) ↔ (self.old.left ≡ 1) }
        ensures counted { self.new ≡ record self.old { left = self.old.left - 1 } }
    {
        let is_due = self.left == 1;
        self.left = self.left.saturating_sub(1);
        is_due
    }
}

/// It is checked where the source within is.
impl<S: BlockSource> BlockSource for FailOnce<S> {
    ghost may_give = { λ c item. S.may_give c.source item };

    ghost is_checked = { S.is_checked };

    ghost failed = { λ c. c.failures };

    ghost follows = { λ c d. S.follows c.source d.source };

    ghost puts = { λ c item d. S.puts c.source item d.source };

    ghost follows_itself = { λ c. S.follows_itself c.source };

    ghost follows_on = { λ a b c. S.follows_on a.source b.source c.source };

    /// Gets the item of a digest as the source within does; `SourceFailed` where this is the call
    /// that fails.
    fn get(&mut self, alloc: Global, digest: Digest) -> Result<Vec<u8>, Refusal>
        ensures fails { self.old.left ≡ 1
            → (result ≡ Err SourceFailed) × (self.new.source ≡ self.old.source) }
        ensures left { self.new.left ≡ self.old.left - 1 }
        ensures given { IfOk result (λ item. S.may_give self.old.source item.items) }
        ensures checked { S.is_checked ≡ true → IfOk result (λ item. sha256 item.items ≡ digest) }
        ensures refused { IfErr result (λ e.
            (e ≡ MissingBlock) ⊎ (e ≡ WrongBlock) ⊎ (e ≡ SourceFailed) ⊎ (e ≡ NoMemory)) }
        ensures no_more { (s : List ℕ) → S.may_give self.new.source s
            → S.may_give self.old.source s }
        ensures follows { S.follows self.old.source self.new.source }
        ensures counted { self.new.failures ≡ failures_after result digest self.old.failures }
    {
        let found = if self.is_due() {
            Err(Refusal::SourceFailed)
        } else {
            self.source.get(alloc, digest)
        };
        if let Err(refusal) = &found {
            self.failures.note(refusal, digest);
        }
        found
    }

    /// Puts an item as the source within does; `SourceFailed` where this is the call that fails. A
    /// put of what is no item isn't counted.
    fn put(&mut self, alloc: Global, item: &[u8]) -> Result<Digest, Refusal>
        ensures fails { is_item item.now ≡ true → self.old.left ≡ 1
            → (result ≡ Err SourceFailed) × (self.new.source ≡ self.old.source) }
        ensures left { self.new.left
            ≡ cond (is_item item.now) (self.old.left - 1) self.old.left }
        ensures digest { IfOk result (λ digest. digest ≡ sha256 item.now) }
        ensures puts { OnOk result (S.puts self.old.source item.now self.new.source) }
        ensures follows { S.follows self.old.source self.new.source }
        ensures too_big { (result ≡ Err TooBig) ↔ (is_item item.now ≡ false) }
        ensures refused { IfErr result (λ e.
            (e ≡ TooBig) ⊎ (e ≡ SourceFailed) ⊎ (e ≡ NoMemory)) }
        ensures more { (s : List ℕ) → S.may_give self.new.source s
            → S.may_give self.old.source s ⊎ (s ≡ item.now) }
        ensures err { OnErr result ((s : List ℕ) → S.may_give self.new.source s
            → S.may_give self.old.source s) }
        ensures counted { self.new.failures
            ≡ failures_after result (sha256 item.now) self.old.failures }
    {
        if !is_item(item) {
            return Err(Refusal::TooBig);
        }
        let put = if self.is_due() {
            Err(Refusal::SourceFailed)
        } else {
            self.source.put(alloc, item)
        };
        if let Err(refusal) = &put {
            self.failures.note(refusal, digest_of(item));
        }
        put
    }

    fn failures(&self) -> u64 {
        self.failures.count
    }

    fn failed_at(&self) -> Option<Digest> {
        self.failures.last
    }
}
