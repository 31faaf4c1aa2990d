// A source that keeps items.
ghost use Rattle.std.specs.Prelude.{◌≡◌, ◌⊎◌, ◌↔◌, ◌≤◌, ℕ, List, [], true, false, IfOk, IfErr, OnOk, OnErr, Err, Some, None, IsSome, length};
ghost use Rattle.std.specs.Borrow.{Lends, sem};
ghost use Rattle.sha2.specs.Sha256.{sha256};
ghost use Rattle.su_bytes.specs.declared.refusals.Refusal.TheVariants.{BadNumber, MissingBlock, WrongBlock, SourceFailed, TooBig, NoMemory};
ghost use Rattle.su_block.specs.Item.{is_item};
ghost use Rattle.su_block.specs.Failure.{failures_after};
ghost use Rattle.su_block_cache.specs.Kept.{item_under, with_newest, Keeps};
ghost use Rattle.su_block_cache.specs.Cache.{MayGive};
ghost use Rattle.su_block_cache.specs.contracts.cache.BlockCache.{the_row};

use crate::kept::KeptItems;
use std::alloc::Global;
use std::marker::Model;
use std::num::NonZeroUsize;
use su_block::BlockSource;
use su_bytes::{Digest, Refusal};

/// A source over another one that keeps the items that were got or put last, and gives those
/// without asking the source within. An item of more than 2,048 bytes isn't kept, nor one for which
/// there is no memory: that is no refusal. Of 1,024 items it has 9 MB at most. Its model is the
/// source within, the items that it keeps, each beside its digest, the one that was used last
/// first, and the most items that it may keep.
#[derive(Drop)]
pub struct BlockCache<S: BlockSource> {
    source: S,
    kept: KeptItems,
}

impl<S: BlockSource> Model for BlockCache<S> {
    ghost use Rattle.su_block_cache.specs.Cache.{Cache, IsKept};

    ghost Value = { Cache S };

    ghost view = { λ c. record {
      source = c.source;
      kept = c.kept.items;
      capacity = c.kept.capacity;
    } };

    ghost invariant = { λ c. IsKept S.is_checked c.kept };
}

impl<S: BlockSource> BlockCache<S> {
    /// Makes a cache of this source that keeps no item yet, and at most `capacity` of them. Room
    /// for them is taken as they come. `BadNumber` where `capacity` is 0, and just there; else only
    /// `NoMemory`.
    pub fn new(alloc: Global, source: S, capacity: usize) -> Result<BlockCache<S>, Refusal>
    where
        S: Drop,
        ensures made { IfOk result (λ cache.
            cache ≡ record { source = source; kept = []; capacity = capacity }) }
        ensures bad_number { (result ≡ Err BadNumber) ↔ (capacity ≡ 0) }
        ensures refused { IfErr result (λ e. (e ≡ BadNumber) ⊎ (e ≡ NoMemory)) }
    {
        let Some(capacity) = NonZeroUsize::new(capacity) else {
            return Err(Refusal::BadNumber);
        };
        let kept = KeptItems::new(alloc, capacity)?;
        Ok(BlockCache { source, kept })
    }

    /// Lends the source within. What is done to that changes nothing else.
    pub fn source_mut(&mut self) -> &mut S
        ensures value { result.now ≡ self.old.source }
        ensures* writes_back { sem 𝓛 (Lends (the_row S.row S.BlockSource) S.row self.entry result
            (λ source. record self.old { source = source })) }
    {
        &mut self.source
    }

    /// Returns the most items that it keeps.
    pub fn capacity(&self) -> usize
        ensures { result ≡ self.now.capacity }
    {
        self.kept.capacity()
    }

    /// Returns how many items it keeps.
    pub fn len(&self) -> usize
        ensures len { result ≡ length self.now.kept }
        ensures within { result ≤ self.now.capacity }
    {
        self.kept.len()
    }
}

/// It is checked where the source within is. A kept answer is no call of that one, and no failure.
impl<S: BlockSource> BlockSource for BlockCache<S> {
    ghost may_give = { MayGive S.may_give };

    ghost is_checked = { S.is_checked };

    ghost failed = { λ c. S.failed c.source };

    ghost follows = { λ c d. S.follows c.source d.source };

    ghost puts = { λ c item d. S.puts c.source item d.source };

    ghost follows_itself = { λ c. S.follows_itself c.source };

    ghost follows_on = { λ a b c. S.follows_on a.source b.source c.source };

    /// Gets the item of a digest: a copy of the one that is kept under it, else what the source
    /// within answers, which is kept from then on, if there is memory for that. `NoMemory` where
    /// there is no room for what it answers.
    fn get(&mut self, alloc: Global, digest: Digest) -> Result<Vec<u8>, Refusal>
        // What is kept is answered, and the source isn't asked.
        ensures kept { (item : List ℕ) → item_under self.old.kept digest ≡ Some item
            → IfOk result (λ copy. copy.items ≡ item) }
        ensures unasked { IsSome (item_under self.old.kept digest)
            → self.new.source ≡ self.old.source }
        ensures room { IsSome (item_under self.old.kept digest) → IfErr result (λ e. e ≡ NoMemory) }
        // What isn't kept is what the source gives.
        ensures asked { item_under self.old.kept digest ≡ None
            → IfOk result (λ item. S.may_give self.old.source item.items) }
        // What is answered is the newest item from then on. One that wasn't kept takes the place of
        // the oldest where there are as many as there may be, unless memory for it was wanting.
        ensures newest { (item : List ℕ) → item_under self.old.kept digest ≡ Some item
            → self.new.kept ≡ with_newest self.old.capacity digest item self.old.kept }
        ensures keeps { IfOk result (λ item.
            Keeps self.old.capacity digest item.items self.old.kept self.new.kept) }
        ensures err { item_under self.old.kept digest ≡ None
            → OnErr result (self.new.kept ≡ self.old.kept) }
        ensures within { length self.new.kept ≤ self.new.capacity }
        ensures capacity { self.new.capacity ≡ self.old.capacity }
        ensures given { IfOk result (λ item. MayGive S.may_give self.old item.items) }
        ensures checked { S.is_checked ≡ true → IfOk result (λ item. sha256 item.items ≡ digest) }
        ensures refused { IfErr result (λ e.
            (e ≡ MissingBlock) ⊎ (e ≡ WrongBlock) ⊎ (e ≡ SourceFailed) ⊎ (e ≡ NoMemory)) }
        ensures no_more { (s : List ℕ) → MayGive S.may_give self.new s
            → MayGive S.may_give self.old s }
        ensures follows { S.follows self.old.source self.new.source }
        ensures counted { S.failed self.new.source
            ≡ failures_after result digest (S.failed self.old.source) }
    {
        if let Some(item) = self.kept.copy(alloc, &digest)? {
            return Ok(item);
        }
        let item = self.source.get(alloc, digest)?;
        self.kept.keep(alloc, &digest, item.as_slice());
        Ok(item)
    }

    /// Puts an item into the source within, and keeps a copy from then on, if there is memory for
    /// that. What that one refuses is refused so, and isn't kept.
    fn put(&mut self, alloc: Global, item: &[u8]) -> Result<Digest, Refusal>
        ensures keeps { IfOk result (λ digest.
            Keeps self.old.capacity digest item.now self.old.kept self.new.kept) }
        ensures unkept { OnErr result (self.new.kept ≡ self.old.kept) }
        ensures within { length self.new.kept ≤ self.new.capacity }
        ensures capacity { self.new.capacity ≡ self.old.capacity }
        ensures digest { IfOk result (λ digest. digest ≡ sha256 item.now) }
        ensures puts { OnOk result (S.puts self.old.source item.now self.new.source) }
        ensures follows { S.follows self.old.source self.new.source }
        ensures too_big { (result ≡ Err TooBig) ↔ (is_item item.now ≡ false) }
        ensures refused { IfErr result (λ e.
            (e ≡ TooBig) ⊎ (e ≡ SourceFailed) ⊎ (e ≡ NoMemory)) }
        ensures more { (s : List ℕ) → MayGive S.may_give self.new s
            → MayGive S.may_give self.old s ⊎ (s ≡ item.now) }
        ensures err { OnErr result ((s : List ℕ) → MayGive S.may_give self.new s
            → MayGive S.may_give self.old s) }
        ensures counted { S.failed self.new.source
            ≡ failures_after result (sha256 item.now) (S.failed self.old.source) }
    {
        let digest = self.source.put(alloc, item)?;
        self.kept.keep(alloc, &digest, item);
        Ok(digest)
    }

    fn failures(&self) -> u64 {
        self.source.failures()
    }

    fn failed_at(&self) -> Option<Digest> {
        self.source.failed_at()
    }
}
