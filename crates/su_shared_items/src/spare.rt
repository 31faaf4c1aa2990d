// Items that may go, since they are kept elsewhere too.
ghost use Rattle.std.specs.Prelude.{◌≡◌, ◌≤◌, ◌∷◌, [], Some, None, IfOk, IfErr, OnOk, OnErr, IfSome, IfNone, is_some};
ghost use Rattle.std.specs.Map.{remove_entry};
ghost use Rattle.std.specs.Str.{bytes_eq};
ghost use Rattle.sha2.specs.Sha256.{sha256};
ghost use Rattle.lru.specs.LruCache.{promoted};
ghost use Rattle.su_bytes.specs.declared.refusals.Refusal.TheVariants.{NoMemory};
ghost use Rattle.su_shared_items.specs.Shard.{cost_of, HasRoomFor, Adds, item_under};

use crate::items::Item;
use lru::LruCache;
use std::alloc::{AllocError, Global};
use std::marker::Model;
use su_bytes::{Digest, Refusal};

/// Items that may go, since they are kept elsewhere too. Where there is no room for another one,
/// those go first that were asked for longest ago. Its model is the items, newest first, and the
/// bytes that they may take in all.
#[derive(Drop)]
pub(crate) struct SpareItems {
    items: LruCache<[u8; 32], Item>,
    taken: usize,
    room: usize,
}

impl Model for SpareItems {
    ghost use Rattle.su_shared_items.specs.Shard.{Spare};

    ghost Value = { Spare };

    ghost use Rattle.std.specs.Prelude.{◌≡◌, ◌-◌, ◌^◌};
    ghost use Rattle.su_shared_items.specs.Shard.{IsCounted};

    ghost view = { λ s. record { items = s.items.entries; room = s.room } };

    ghost invariant = { λ s. IsCounted s.items.entries s.taken s.room
        × (s.items.cap ≡ 2 ^ 64 - 1) };
}

impl SpareItems {
    /// Makes room for this many bytes of items, of which there are none yet.
    pub(crate) fn new(alloc: Global, room: usize) -> Result<SpareItems, AllocError>
        ensures { IfOk result (λ s. s ≡ record { items = []; room = room }) }
    {
        let items = LruCache::unbounded(alloc)?;
        Ok(SpareItems {
            items,
            taken: 0,
            room,
        })
    }

    /// Makes the item of a digest the newest, and returns whether there is one.
    pub(crate) fn promote(&mut self, digest: &Digest) -> bool
        ensures found { result ≡ is_some (item_under self.old.items digest.now) }
        ensures items { self.new.items ≡ promoted (bytes_eq digest.now) self.old.items }
        ensures room { self.new.room ≡ self.old.room }
    {
        self.items.promote(digest.as_bytes())
    }

    /// Copies the item of a digest, if there is one, and makes it the newest. `NoMemory` where
    /// there is no room for the copy.
    pub(crate) fn copy(
        &mut self,
        alloc: Global,
        digest: &Digest,
    ) -> Result<Option<Vec<u8>>, Refusal>
        ensures checked { IfOk result (λ found. IfSome found (λ item.
            sha256 item.items ≡ digest.now)) }
        ensures none { IfOk result (λ found. IfNone found
            (item_under self.old.items digest.now ≡ None)) }
        ensures refused { IfErr result (λ e. e ≡ NoMemory) }
        ensures items { self.new.items ≡ promoted (bytes_eq digest.now) self.old.items }
        ensures room { self.new.room ≡ self.old.room }
    {
        match self.items.get(digest.as_bytes()) {
            Some(item) => Ok(Some(item.copy(alloc)?)),
            None => Ok(None),
        }
    }

    /// Takes out the item of a digest, if there is one.
    pub(crate) fn take(&mut self, digest: &Digest) -> Option<Item>
        ensures checked { IfSome result (λ item. sha256 item ≡ digest.now) }
        ensures value { result ≡ item_under self.old.items digest.now }
        ensures items { self.new.items ≡ remove_entry (bytes_eq digest.now) self.old.items }
        ensures room { self.new.room ≡ self.old.room }
    {
        let item = self.items.pop(digest.as_bytes())?;
        self.taken -= item.cost();
        Some(item)
    }

    /// Adds an item under its digest, as the newest, unless it takes more than there is room for
    /// at all. `NoMemory` where there is none to note it; then it isn't added, but those that
    /// had to go for it are gone.
    pub(crate) fn add(&mut self, digest: &Digest, item: Item) -> Result<(), Refusal>
        requires { sha256 item ≡ digest.now }
        ensures added { OnOk result (Adds digest.now item self.old self.new) }
        ensures err { OnErr result (HasRoomFor (cost_of item) self.old self.new) }
        ensures refused { IfErr result (λ e. e ≡ NoMemory) }
    {
        let size = item.cost();
        if size > self.room {
            return Ok(());
        }
        self.make_room(size);
        let count = self.items.len();
        prove!(count < usize::MAX);
        let older = self.items.put(*digest.as_bytes(), item)?;
        self.taken += size;
        if let Some(older) = older {
            self.taken -= older.cost();
        }
        Ok(())
    }

    /// Drops the items that were asked for longest ago, until there is room for this many bytes.
    fn make_room(&mut self, size: usize)
        requires { size ≤ self.old.room }
        ensures { HasRoomFor size self.old self.new }
    {
        while self.room - self.taken < size {
            let Some((_, item)) = self.items.pop_lru() else {
                unreachable!()
            };
            self.taken -= item.cost();
        }
    }
}
