// Items that stay.
ghost use Rattle.std.specs.Prelude.{◌≡◌, ◌≤◌, ℕ, List, [], Some, None, IfErr, OnOk, OnErr, IfSome, is_some, option_copied};
ghost use Rattle.std.specs.Map.{remove_entry};
ghost use Rattle.std.specs.Str.{bytes_eq};
ghost use Rattle.sha2.specs.Sha256.{sha256};
ghost use Rattle.su_bytes.specs.declared.refusals.Refusal.TheVariants.{NoMemory};
ghost use Rattle.su_shared_items.specs.Shard.{item_under, bytes_of, room_for};

use crate::items::{Item, cost_of};
use crate::purposes::Purpose;
use std::alloc::Global;
use std::collections::BTreeMap;
use std::marker::Model;
use su_bytes::{Digest, Refusal};

/// Items that stay until they are taken out. Where there is no room for another one, that one is
/// refused. Its model is the items, and the bytes that they may take in all.
#[derive(Drop)]
pub(crate) struct StayingItems {
    items: BTreeMap<[u8; 32], Item>,
    taken: usize,
    room: usize,
}

impl Model for StayingItems {
    ghost use Rattle.su_shared_items.specs.Shard.{Staying};

    ghost Value = { Staying };

    ghost use Rattle.su_shared_items.specs.Shard.{IsCounted};

    ghost view = { λ s. record { items = s.items.entries; room = s.room } };

    ghost invariant = { λ s. IsCounted s.items.entries s.taken s.room };
}

impl StayingItems {
    /// Makes room for this many bytes of items, of which there are none yet.
    pub(crate) fn new(alloc: Global, room: usize) -> StayingItems
        ensures { result ≡ record { items = []; room = room } }
    {
        StayingItems {
            items: BTreeMap::new(alloc),
            taken: 0,
            room,
        }
    }

    /// Returns whether there is an item of a digest.
    pub(crate) fn contains(&self, digest: &Digest) -> bool
        ensures found { result ≡ is_some (item_under self.now.items digest.now) }
        ensures bounded { bytes_of self.now.items ≤ self.now.room }
    {
        self.items.contains_key(digest.as_bytes())
    }

    /// Lends the item of a digest, if there is one.
    pub(crate) fn get(&self, digest: &Digest) -> Option<&Item>
        ensures checked { IfSome result (λ item. sha256 item.now ≡ digest.now) }
        ensures value { option_copied result ≡ item_under self.now.items digest.now }
    {
        self.items.get(digest.as_bytes())
    }

    /// Puts an item under its digest, under which there is none. `NoMemory` where there is no room
    /// for what is put for this purpose, or no memory; then nothing changes.
    pub(crate) fn put(
        &mut self,
        alloc: Global,
        digest: &Digest,
        item: &[u8],
        purpose: Purpose,
    ) -> Result<(), Refusal>
        requires own { sha256 item.now ≡ digest.now }
        requires new { item_under self.old.items digest.now ≡ None }
        ensures held { OnOk result (item_under self.new.items digest.now ≡ Some item.now) }
        ensures stays { (d item : List ℕ) → item_under self.old.items d ≡ Some item
            → item_under self.new.items d ≡ Some item }
        ensures bounded { bytes_of self.new.items ≤ self.new.room }
        // What is put for something else than a commit leaves room for those of commits.
        ensures spares { OnOk result (bytes_of self.new.items ≤ room_for purpose self.new.room) }
        ensures room { self.new.room ≡ self.old.room }
        ensures refused { IfErr result (λ e. e ≡ NoMemory) }
        ensures unchanged { OnErr result (self.new ≡ self.old) }
    {
        let cost = cost_of(item);
        let room = purpose.share_of(self.room);
        if self.taken > room || cost > room - self.taken {
            return Err(Refusal::NoMemory);
        }
        prove!(self.taken + cost <= self.room);
        let held = Item::copy_of(alloc, item)?;
        self.items.insert(*digest.as_bytes(), held)?;
        self.taken += cost;
        Ok(())
    }

    /// Takes out the item of a digest, if there is one.
    pub(crate) fn take(&mut self, digest: &Digest) -> Option<Item>
        ensures checked { IfSome result (λ item. sha256 item ≡ digest.now) }
        ensures value { result ≡ item_under self.old.items digest.now }
        ensures items { self.new.items ≡ remove_entry (bytes_eq digest.now) self.old.items }
        ensures room { self.new.room ≡ self.old.room }
    {
        let item = self.items.remove(digest.as_bytes())?;
        self.taken -= item.cost();
        Some(item)
    }
}
