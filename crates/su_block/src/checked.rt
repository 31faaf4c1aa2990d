// What a source gives is checked.
ghost use Rattle.std.specs.Prelude.{◌≡◌, ◌⊎◌, ◌↔◌, ℕ, List, false, IfOk, IfErr, OnOk, OnErr, Err, None};
ghost use Rattle.std.specs.Borrow.{Lends, sem};
ghost use Rattle.su_block.specs.contracts.checked.Checked.{the_row};
ghost use Rattle.sha2.specs.Sha256.{sha256};
ghost use Rattle.su_block.specs.Item.{is_item, GivesAnother};
ghost use Rattle.su_block.specs.Failure.{one_more, failures_after};
ghost use Rattle.su_bytes.specs.declared.refusals.Refusal.TheVariants.{MissingBlock, WrongBlock, SourceFailed, TooBig, NoMemory};

use crate::failures::Failures;
use crate::items::digest_of;
use crate::sources::BlockSource;
use std::alloc::Global;
use su_bytes::{Digest, Refusal};

/// A source over another one that computes the digest of what that one gives: `WrongBlock` where it
/// is not the one that was asked for. It counts the failures of both.
#[derive(Drop)]
pub struct Checked<S> {
    source: S,
    failures: Failures,
}

impl<S: BlockSource> Checked<S> {
    /// Makes a checked source of this one. No call of it has failed.
    pub fn new(source: S) -> Checked<S>
        ensures source { result.source ≡ source }
        ensures failures { result.failures ≡ record { count = 0; last = None } }
    {
        Checked {
            source,
            failures: Failures::none(),
        }
    }

    /// Lends the source within. What is done to that changes nothing else.
    pub fn source_mut(&mut self) -> &mut S
        ensures value { result.now ≡ self.old.source }
        ensures* writes_back { sem 𝓛 (Lends (the_row S.row) S.row self.entry result
            (λ source. record self.old { source = source })) }
    {
        &mut self.source
    }
}

impl<S: BlockSource> BlockSource for Checked<S> {
    ghost use Rattle.std.specs.Prelude.{true};

    ghost may_give = { λ c item. S.may_give c.source item };

    ghost is_checked = { true };

    ghost failed = { λ c. c.failures };

    ghost follows = { λ c d. S.follows c.source d.source };

    ghost puts = { λ c item d. S.puts c.source item d.source };

    ghost follows_itself = { λ c. S.follows_itself c.source };

    ghost follows_on = { λ a b c. S.follows_on a.source b.source c.source };

    fn get(&mut self, alloc: Global, digest: Digest) -> Result<Vec<u8>, Refusal>
        ensures given { IfOk result (λ item. S.may_give self.old.source item.items) }
        ensures checked { IfOk result (λ item. sha256 item.items ≡ digest) }
        // No failure is made up: the source failed, or gave an item of another digest.
        ensures failed { IfErr result (λ e. (e ≡ MissingBlock) ⊎ (e ≡ SourceFailed)
            → S.failed self.new.source ≡ one_more (S.failed self.old.source) digest) }
        ensures wrong { result ≡ Err WrongBlock
            → (S.failed self.new.source ≡ one_more (S.failed self.old.source) digest)
            ⊎ GivesAnother (S.may_give self.old.source) digest }
        ensures refused { IfErr result (λ e.
            (e ≡ MissingBlock) ⊎ (e ≡ WrongBlock) ⊎ (e ≡ SourceFailed) ⊎ (e ≡ NoMemory)) }
        ensures no_more { (s : List ℕ) → S.may_give self.new.source s
            → S.may_give self.old.source s }
        ensures follows { S.follows self.old.source self.new.source }
        ensures counted { self.new.failures ≡ failures_after result digest self.old.failures }
    {
        let item = match self.source.get(alloc, digest) {
            Ok(item) => item,
            Err(refusal) => {
                self.failures.note(&refusal, digest);
                return Err(refusal);
            }
        };
        if digest_of(item.as_slice()) != digest {
            self.failures.add(digest);
            return Err(Refusal::WrongBlock);
        }
        Ok(item)
    }

    fn put(&mut self, alloc: Global, item: &[u8]) -> Result<Digest, Refusal>
        ensures digest { IfOk result (λ digest. digest ≡ sha256 item.now) }
        ensures puts { OnOk result (S.puts self.old.source item.now self.new.source) }
        ensures follows { S.follows self.old.source self.new.source }
        ensures too_big { (result ≡ Err TooBig) ↔ (is_item item.now ≡ false) }
        ensures failed { IfErr result (λ e. e ≡ SourceFailed
            → S.failed self.new.source ≡ one_more (S.failed self.old.source) (sha256 item.now)) }
        ensures refused { IfErr result (λ e.
            (e ≡ TooBig) ⊎ (e ≡ SourceFailed) ⊎ (e ≡ NoMemory)) }
        ensures more { (s : List ℕ) → S.may_give self.new.source s
            → S.may_give self.old.source s ⊎ (s ≡ item.now) }
        ensures err { OnErr result ((s : List ℕ) → S.may_give self.new.source s
            → S.may_give self.old.source s) }
        ensures counted { self.new.failures
            ≡ failures_after result (sha256 item.now) self.old.failures }
    {
        match self.source.put(alloc, item) {
            Ok(digest) => Ok(digest),
            Err(refusal) => {
                self.failures.note(&refusal, digest_of(item));
                Err(refusal)
            }
        }
    }

    fn failures(&self) -> u64 {
        self.failures.count
    }

    fn failed_at(&self) -> Option<Digest> {
        self.failures.last
    }
}
