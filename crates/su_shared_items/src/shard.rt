// One of the shards.
ghost use Rattle.std.specs.Prelude.{◌≡◌, ◌⊎◌, ◌<◌, ◌≤◌, ℕ, List, [], Ok, Err, Some, None, IsSome, is_some, IfOk, IfErr, OnOk, OnErr};
ghost use Rattle.std.specs.Map.{remove_entry};
ghost use Rattle.std.specs.Str.{bytes_eq};
ghost use Rattle.sha2.specs.Sha256.{sha256};
ghost use Rattle.lru.specs.LruCache.{promoted};
ghost use Rattle.su_bytes.specs.declared.refusals.Refusal.TheVariants.{MissingBlock, NoMemory};
ghost use Rattle.su_shared_items.specs.Shard.{item_under, bytes_of, room_for, cost_of, Holds, HoldsNone, LetsGo};

use crate::items::Item;
use crate::purposes::Purpose;
use crate::spare::SpareItems;
use crate::staying::StayingItems;
use std::alloc::{AllocError, Global};
use std::marker::Model;
use su_bytes::{Digest, Refusal};

/// Items in memory: those that stay, and those that may go. Its model is these.
#[derive(Drop)]
pub(crate) struct Shard {
    staying: StayingItems,
    spare: SpareItems,
}

impl Model for Shard {
    ghost use Rattle.su_shared_items.specs.Shard.{Held};

    ghost Value = { Held };

    ghost view = { λ s. record {
      staying = s.staying.items;
      staying_room = s.staying.room;
      spare = s.spare;
    } };
}

impl Shard {
    /// Makes a shard without items. Those that may go may take `spare` bytes in all, and those that
    /// stay `staying` bytes.
    pub(crate) fn new(alloc: Global, spare: usize, staying: usize) -> Result<Shard, AllocError>
        ensures { IfOk result (λ s. s ≡ record {
          staying = [];
          staying_room = staying;
          spare = record { items = []; room = spare };
        }) }
    {
        let spare = SpareItems::new(alloc, spare)?;
        Ok(Shard {
            staying: StayingItems::new(alloc, staying),
            spare,
        })
    }

    /// Gets the item of a digest, and makes it the newest. `MissingBlock` where there is none;
    /// `NoMemory` where there is no room for the copy.
    pub(crate) fn get(&mut self, alloc: Global, digest: &Digest) -> Result<Vec<u8>, Refusal>
        ensures checked { IfOk result (λ item. sha256 item.items ≡ digest.now) }
        ensures refused { IfErr result (λ e. (e ≡ MissingBlock) ⊎ (e ≡ NoMemory)) }
        ensures missing { result ≡ Err MissingBlock → HoldsNone self.old digest.now }
        ensures staying { self.new.staying ≡ self.old.staying }
        ensures spare { item_under self.old.staying digest.now ≡ None
            → self.new.spare.items ≡ promoted (bytes_eq digest.now) self.old.spare.items }
        ensures room { self.new.spare.room ≡ self.old.spare.room }
        ensures staying_room { self.new.staying_room ≡ self.old.staying_room }
    {
        if let Some(item) = self.staying.get(digest) {
            return item.copy(alloc);
        }
        let Some(item) = self.spare.copy(alloc, digest)? else {
            return Err(Refusal::MissingBlock);
        };
        Ok(item)
    }

    /// Puts an item under its digest, where it stays. One that stays already is answered whatever
    /// the room. `NoMemory` where there is no room among those that stay for what is put for this
    /// purpose, or no memory; then nothing changes.
    pub(crate) fn put(
        &mut self,
        alloc: Global,
        digest: &Digest,
        item: &[u8],
        purpose: Purpose,
    ) -> Result<(), Refusal>
        requires { sha256 item.now ≡ digest.now }
        ensures held { OnOk result (IsSome (item_under self.new.staying digest.now)) }
        // What stayed stays.
        ensures stays { (d item : List ℕ) → item_under self.old.staying d ≡ Some item
            → item_under self.new.staying d ≡ Some item }
        ensures room { self.new.spare.room ≡ self.old.spare.room }
        ensures refused { IfErr result (λ e. e ≡ NoMemory) }
        ensures there { IsSome (item_under self.old.staying digest.now)
            → (result ≡ Ok tt) × (self.new ≡ self.old) }
        // Those that stay take no more than there is room for.
        ensures bounded { bytes_of self.new.staying ≤ self.new.staying_room }
        // One more that is put for something else than a commit leaves room for those of commits.
        ensures spares { OnOk result ((self.new ≡ self.old)
            ⊎ (bytes_of self.new.staying ≤ room_for purpose self.new.staying_room)) }
        ensures staying_room { self.new.staying_room ≡ self.old.staying_room }
        ensures unchanged { OnErr result (self.new ≡ self.old) }
    {
        if self.staying.contains(digest) {
            return Ok(());
        }
        let put = self.staying.put(alloc, digest, item, purpose);
        if put.is_ok() {
            drop(self.spare.take(digest));
        }
        put
    }

    /// Puts an item that is kept elsewhere too under its digest, as one that may go. `NoMemory`
    /// where there is no room for it.
    pub(crate) fn share(
        &mut self,
        alloc: Global,
        digest: &Digest,
        item: &[u8],
    ) -> Result<(), Refusal>
        requires { sha256 item.now ≡ digest.now }
        // An item is held under the digest, unless it takes more than there is room for at all.
        ensures held { OnOk result (Holds self.new digest.now
            ⊎ (self.old.spare.room < cost_of item.now)) }
        ensures staying { self.new.staying ≡ self.old.staying }
        ensures room { self.new.spare.room ≡ self.old.spare.room }
        ensures staying_room { self.new.staying_room ≡ self.old.staying_room }
        ensures refused { IfErr result (λ e. e ≡ NoMemory) }
    {
        if self.staying.contains(digest) {
            return Ok(());
        }
        if self.spare.promote(digest) {
            return Ok(());
        }
        let item = Item::copy_of(alloc, item)?;
        self.spare.add(digest, item)
    }

    /// Lets the item of a digest go, if it stays: it is kept elsewhere too. Where there is no
    /// memory to note it, it goes at once.
    pub(crate) fn release(&mut self, digest: &Digest)
        ensures staying { self.new.staying ≡ remove_entry (bytes_eq digest.now) self.old.staying }
        ensures spare { LetsGo digest.now (item_under self.old.staying digest.now)
            self.old.spare self.new.spare }
        ensures staying_room { self.new.staying_room ≡ self.old.staying_room }
    {
        if let Some(item) = self.staying.take(digest) {
            let _ = self.spare.add(digest, item);
        }
    }
    /// Returns whether the item of a digest is among those that stay.
    pub(crate) fn stays(&self, digest: &Digest) -> bool
        ensures { result ≡ is_some (item_under self.now.staying digest.now) }
    {
        self.staying.contains(digest)
    }

    /// Drops the item of a digest, if it stays.
    pub(crate) fn drop_staying(&mut self, digest: &Digest)
        ensures staying { self.new.staying ≡ remove_entry (bytes_eq digest.now) self.old.staying }
        ensures spare { self.new.spare ≡ self.old.spare }
        ensures staying_room { self.new.staying_room ≡ self.old.staying_room }
    {
        drop(self.staying.take(digest));
    }
}
