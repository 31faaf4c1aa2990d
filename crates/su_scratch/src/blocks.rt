// A source that leaves items in a scratch.
ghost use Rattle.std.specs.Prelude.{◌≡◌, ◌⊎◌, ◌↔◌, ℕ, List, true, false, IfOk, IfErr, OnOk, OnErr, Err, None, Some, [], MatchBool, MatchOption, is_some};
ghost use Rattle.std.specs.Borrow.{Lends, sem};
ghost use Rattle.std.proofs.Common.{◌∙◌};
ghost use Rattle.sha2.specs.Sha256.{sha256};
ghost use Rattle.su_block.specs.Item.{is_item};
ghost use Rattle.su_block.specs.Failure.{failures_after};
ghost use Rattle.su_bytes.specs.declared.refusals.Refusal.TheVariants.{MissingBlock, WrongBlock, SourceFailed, TooBig, NoMemory};
ghost use Rattle.su_scratch.specs.Places.{IsSound, place_under};
ghost use Rattle.su_scratch.specs.contracts.blocks.ScratchBlocks.{the_row};

use crate::notes::{Note, Place};
use crate::places::Places;
use crate::scratches::Scratch;
use std::alloc::Global;
use su_block::{BlockSource, Failures, digest_of, is_item};
use su_bytes::{Digest, Refusal};

/// A source that leaves what is put in a scratch, while it is to, and puts it into the source within
/// else. What was left is read from there, and what wasn't is asked of the source within. What is read
/// isn't checked: that is for the source above (`su_block::Checked`). It counts the failures of both.
#[derive(Drop)]
pub struct ScratchBlocks<F, S> {
    scratch: F,
    places: Places,
    source: S,
    leaves: bool,
    failures: Failures,
}

impl<F: Scratch, S: BlockSource> ScratchBlocks<F, S> {
    /// Makes a source over this scratch and this source, which has left nothing, and leaves nothing
    /// until it is told to. No call of it has failed.
    pub fn new(alloc: Global, scratch: F, source: S) -> ScratchBlocks<F, S>
        ensures scratch { result.scratch ≡ scratch }
        ensures source { result.source ≡ source }
        ensures leaves { result.leaves ≡ false }
        ensures places { result.places ≡ record { noted = []; buckets = [] } }
        ensures failures { result.failures ≡ record { count = 0; last = None } }
    {
        ScratchBlocks {
            scratch,
            places: Places::new(alloc),
            source,
            leaves: false,
            failures: Failures::none(),
        }
    }

    /// Says whether what is put from now on is left in the scratch. Nothing else changes.
    pub fn leave(&mut self, leaves: bool)
        ensures { self.new ≡ record self.old { leaves = leaves } }
    {
        self.leaves = leaves;
    }

    /// Lends the source within. What is done to that changes nothing else.
    pub fn source_mut(&mut self) -> &mut S
        ensures value { result.now ≡ self.old.source }
        ensures* writes_back { sem 𝓛 (Lends (the_row F.row S.row) S.row self.entry result
            (λ source. record self.old { source = source })) }
    {
        &mut self.source
    }

    /// Asks whichever has the item of a digest for it.
    fn ask(&mut self, alloc: Global, digest: Digest) -> Result<Vec<u8>, Refusal>
        ensures given { IfOk result (λ item.
            F.may_give self.old.scratch item.items ⊎ S.may_give self.old.source item.items) }
        ensures refused { IfErr result (λ e.
            (e ≡ MissingBlock) ⊎ (e ≡ WrongBlock) ⊎ (e ≡ SourceFailed) ⊎ (e ≡ NoMemory)) }
        // What was left isn't asked of the source, where the scratch gives back what was written.
        ensures left { IsSound F.keeps F.written self.old.scratch self.old.places
            → is_some (place_under self.old.places.noted digest) ≡ true
            → (self.new.source ≡ self.old.source)
            × IfOk result (λ item. F.may_give self.old.scratch item.items) }
        ensures sound { IsSound F.keeps F.written self.old.scratch self.old.places
            → IsSound F.keeps F.written self.new.scratch self.new.places }
        ensures scratch { (s : List ℕ) → F.may_give self.new.scratch s
            → F.may_give self.old.scratch s }
        ensures source { (s : List ℕ) → S.may_give self.new.source s
            → S.may_give self.old.source s }
        ensures follows { S.follows self.old.source self.new.source }
        ensures same { (self.new.places ≡ self.old.places) × (self.new.leaves ≡ self.old.leaves)
            × (self.new.failures ≡ self.old.failures) }
    {
        match self.places.find(alloc, &mut self.scratch, &digest)? {
            Some(place) => self.scratch.read(alloc, place.first, place.count as usize),
            None => self.source.get(alloc, digest),
        }
    }

    /// Leaves an item in the scratch, and answers its digest. `TooBig` where it has not 1 to 70,000
    /// bytes, `SourceFailed` where the scratch fails, `NoMemory`.
    fn put_here(&mut self, alloc: Global, item: &[u8]) -> Result<Digest, Refusal>
        ensures digest { IfOk result (λ digest. digest ≡ sha256 item.now) }
        ensures left { IsSound F.keeps F.written self.old.scratch self.old.places → OnOk result
            (is_some (place_under self.new.places.noted (sha256 item.now)) ≡ true) }
        ensures unnoted { OnErr result (self.new.places.noted ≡ self.old.places.noted) }
        ensures sound { IsSound F.keeps F.written self.old.scratch self.old.places
            → IsSound F.keeps F.written self.new.scratch self.new.places }
        ensures too_big { (result ≡ Err TooBig) ↔ (is_item item.now ≡ false) }
        ensures refused { IfErr result (λ e.
            (e ≡ TooBig) ⊎ (e ≡ SourceFailed) ⊎ (e ≡ NoMemory)) }
        ensures more { (s : List ℕ) → F.may_give self.new.scratch s
            → F.may_give self.old.scratch s ⊎ (s ≡ item.now) }
        ensures err { OnErr result ((s : List ℕ) → F.may_give self.new.scratch s
            → F.may_give self.old.scratch s) }
        ensures same { (self.new.source ≡ self.old.source) × (self.new.leaves ≡ self.old.leaves)
            × (self.new.failures ≡ self.old.failures) }
    {
        if !is_item(item) {
            return Err(Refusal::TooBig);
        }
        let digest = digest_of(item);
        self.leave_item(alloc, digest, item)?;
        Ok(digest)
    }

    /// Leaves an item in the scratch, unless it is there.
    fn leave_item(&mut self, alloc: Global, digest: Digest, item: &[u8]) -> Result<(), Refusal>
        requires { is_item item.now ≡ true }
        ensures left { IsSound F.keeps F.written self.old.scratch self.old.places → OnOk result
            (is_some (place_under self.new.places.noted digest) ≡ true) }
        // What isn't left isn't noted as left.
        ensures unnoted { OnErr result (self.new.places.noted ≡ self.old.places.noted) }
        ensures sound { IsSound F.keeps F.written self.old.scratch self.old.places
            → IsSound F.keeps F.written self.new.scratch self.new.places }
        ensures refused { IfErr result (λ e. (e ≡ SourceFailed) ⊎ (e ≡ NoMemory)) }
        ensures more { (s : List ℕ) → F.may_give self.new.scratch s
            → F.may_give self.old.scratch s ⊎ (s ≡ item.now) }
        ensures err { OnErr result ((s : List ℕ) → F.may_give self.new.scratch s
            → F.may_give self.old.scratch s) }
        ensures same { (self.new.source ≡ self.old.source) × (self.new.leaves ≡ self.old.leaves)
            × (self.new.failures ≡ self.old.failures) }
    {
        let scratch = &mut self.scratch;
        if self.places.find(alloc, scratch, &digest)?.is_some() {
            return Ok(());
        }
        let place = Place {
            first: scratch.end(),
            count: item.len() as u32,
        };
        scratch.append(item)?;
        self.places.add(alloc, scratch, Note { digest, place })
    }
}

impl<F: Scratch, S: BlockSource> BlockSource for ScratchBlocks<F, S> {
    ghost may_give = { λ c item. F.may_give c.scratch item ⊎ S.may_give c.source item };

    ghost is_checked = { false };

    ghost failed = { λ c. c.failures };

    // Whether it leaves what is put is said by `leave` alone.
    ghost follows = { λ c d. (d.leaves ≡ c.leaves) × S.follows c.source d.source };

    // It is in the scratch from then on, where it is left there; else the source within took it.
    ghost puts = { λ c item d. MatchBool c.leaves
        (IsSound F.keeps F.written c.scratch c.places
        → is_some (place_under d.places.noted (sha256 item)) ≡ true)
        (S.puts c.source item d.source) };

    ghost follows_itself = { λ c. ((λ i. c.leaves), S.follows_itself c.source) };

    ghost follows_on = { λ a b c ab bc.
        (bc.0 ∙ ab.0, S.follows_on a.source b.source c.source ab.1 bc.1) };

    /// Gets the item of a digest: what was left under it, as it is read, and else what the source
    /// within answers.
    fn get(&mut self, alloc: Global, digest: Digest) -> Result<Vec<u8>, Refusal>
        ensures given { IfOk result (λ item.
            F.may_give self.old.scratch item.items ⊎ S.may_give self.old.source item.items) }
        ensures refused { IfErr result (λ e.
            (e ≡ MissingBlock) ⊎ (e ≡ WrongBlock) ⊎ (e ≡ SourceFailed) ⊎ (e ≡ NoMemory)) }
        ensures no_more { (s : List ℕ)
            → F.may_give self.new.scratch s ⊎ S.may_give self.new.source s
            → F.may_give self.old.scratch s ⊎ S.may_give self.old.source s }
        // What was left isn't asked of the source, where the scratch gives back what was written.
        ensures left { IsSound F.keeps F.written self.old.scratch self.old.places
            → is_some (place_under self.old.places.noted digest) ≡ true
            → (self.new.source ≡ self.old.source)
            × IfOk result (λ item. F.may_give self.old.scratch item.items) }
        ensures sound { IsSound F.keeps F.written self.old.scratch self.old.places
            → IsSound F.keeps F.written self.new.scratch self.new.places }
        ensures leaves { self.new.leaves ≡ self.old.leaves }
        ensures follows { S.follows self.old.source self.new.source }
        ensures counted { self.new.failures ≡ failures_after result digest self.old.failures }
    {
        match self.ask(alloc, digest) {
            Ok(item) => Ok(item),
            Err(refusal) => {
                self.failures.note(&refusal, digest);
                Err(refusal)
            }
        }
    }

    fn put(&mut self, alloc: Global, item: &[u8]) -> Result<Digest, Refusal>
        ensures digest { IfOk result (λ digest. digest ≡ sha256 item.now) }
        ensures too_big { (result ≡ Err TooBig) ↔ (is_item item.now ≡ false) }
        ensures refused { IfErr result (λ e.
            (e ≡ TooBig) ⊎ (e ≡ SourceFailed) ⊎ (e ≡ NoMemory)) }
        ensures more { (s : List ℕ)
            → F.may_give self.new.scratch s ⊎ S.may_give self.new.source s
            → (F.may_give self.old.scratch s ⊎ S.may_give self.old.source s) ⊎ (s ≡ item.now) }
        ensures err { OnErr result ((s : List ℕ)
            → F.may_give self.new.scratch s ⊎ S.may_give self.new.source s
            → F.may_give self.old.scratch s ⊎ S.may_give self.old.source s) }
        ensures puts { OnOk result (MatchBool self.old.leaves
            (IsSound F.keeps F.written self.old.scratch self.old.places
            → is_some (place_under self.new.places.noted (sha256 item.now)) ≡ true)
            (S.puts self.old.source item.now self.new.source)) }
        ensures leaves { self.new.leaves ≡ self.old.leaves }
        ensures follows { S.follows self.old.source self.new.source }
        // What is left isn't put into the source.
        ensures left { self.old.leaves ≡ true → self.new.source ≡ self.old.source }
        // What isn't left isn't noted as left.
        ensures unnoted { OnErr result (self.new.places.noted ≡ self.old.places.noted) }
        ensures sound { IsSound F.keeps F.written self.old.scratch self.old.places
            → IsSound F.keeps F.written self.new.scratch self.new.places }
        ensures counted { self.new.failures
            ≡ failures_after result (sha256 item.now) self.old.failures }
    {
        let put = if self.leaves {
            self.put_here(alloc, item)
        } else {
            self.source.put(alloc, item)
        };
        if let Err(refusal) = &put {
            self.failures.note(refusal, digest_of(item));
        }
        put
    }

    fn failures(&self) -> u64 {
        self.failures.count
    }

    fn failed_at(&self) -> Option<Digest> {
        self.failures.last
    }
}
