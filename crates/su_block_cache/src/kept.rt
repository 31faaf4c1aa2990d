// The items that are kept.
ghost use Rattle.std.specs.Prelude.{◌≡◌, ◌≤◌, ℕ, List, [], Some, None, IfOk, IfErr, OnErr, IsSome, length, option_map};
ghost use Rattle.std.specs.NonZero.{non_zero_usize_get};
ghost use Rattle.su_bytes.specs.declared.refusals.Refusal.TheVariants.{NoMemory};
ghost use Rattle.su_block_cache.specs.Kept.{item_under, with_newest, Keeps};

use crate::items::Item;
use lru::LruCache;
use std::alloc::{AllocError, Global};
use std::marker::Model;
use std::num::NonZeroUsize;
use su_bytes::{Digest, Refusal};

/// How many bytes an item has at most that is kept. A node of a tree has fewer; what has more is a
/// block of contents or a change, which is asked for once.
const LONGEST_KEPT: usize = 2_048;

/// Items under digests, no more than a capacity. Where one more comes, the one goes that was used
/// longest ago. Its model is the items, the one that was used last first, and the capacity.
#[derive(Drop)]
pub(crate) struct KeptItems {
    items: LruCache<[u8; 32], Item>,
}

impl Model for KeptItems {
    ghost use Rattle.su_block_cache.specs.Kept.{Kept, IsWithin};

    ghost Value = { Kept };

    ghost view = { λ k. record { items = k.items.entries; capacity = k.items.cap } };

    ghost invariant = { λ k. IsWithin k.items.entries k.items.cap };
}

impl KeptItems {
    /// Makes a keeper of at most `capacity` items that keeps none yet. Room for them is taken as
    /// they come.
    pub(crate) fn new(alloc: Global, capacity: NonZeroUsize) -> Result<KeptItems, AllocError>
        ensures { IfOk result (λ kept. kept ≡ record {
          items = [];
          capacity = non_zero_usize_get capacity;
        }) }
    {
        prove!(capacity.get() != 0);
        let items = LruCache::sparse(alloc, capacity)?;
        Ok(KeptItems { items })
    }

    /// Returns the most items that there may be.
    pub(crate) fn capacity(&self) -> usize
        ensures { result ≡ self.now.capacity }
    {
        self.items.cap().get()
    }

    /// Returns how many items there are.
    pub(crate) fn len(&self) -> usize
        ensures len { result ≡ length self.now.items }
        ensures within { result ≤ self.now.capacity }
    {
        self.items.len()
    }

    /// Copies the item under a digest, if there is one, and makes it the newest. `NoMemory` where
    /// there is no room for the copy.
    pub(crate) fn copy(
        &mut self,
        alloc: Global,
        digest: &Digest,
    ) -> Result<Option<Vec<u8>>, Refusal>
        ensures value { IfOk result (λ found.
            option_map (λ item. item.items) found ≡ item_under self.old.items digest.now) }
        ensures refused { IfErr result (λ e. e ≡ NoMemory) }
        ensures err { OnErr result (IsSome (item_under self.old.items digest.now)) }
        ensures newest { (item : List ℕ) → item_under self.old.items digest.now ≡ Some item
            → self.new.items ≡ with_newest self.old.capacity digest.now item self.old.items }
        ensures none { item_under self.old.items digest.now ≡ None
            → self.new.items ≡ self.old.items }
        ensures capacity { self.new.capacity ≡ self.old.capacity }
    {
        match self.items.get(digest.as_bytes()) {
            Some(item) => Ok(Some(item.copy(alloc)?)),
            None => Ok(None),
        }
    }

    /// Keeps a copy of an item under a digest, as the newest, in place of what was there. One of more
    /// than 2,048 bytes isn't kept, nor one for which there is no memory: then nothing changes.
    pub(crate) fn keep(&mut self, alloc: Global, digest: &Digest, item: &[u8])
        ensures keeps { Keeps self.old.capacity digest.now item.now self.old.items self.new.items }
        ensures capacity { self.new.capacity ≡ self.old.capacity }
    {
        if LONGEST_KEPT < item.len() {
            return;
        }
        let Ok(item) = Item::copy_of(alloc, item) else {
            return;
        };
        let _ = self.items.put(*digest.as_bytes(), item);
    }
}
