// A shard, what it was told, and what is pinned in it.
ghost use Rattle.std.specs.Prelude.{◌≡◌, ◌⊎◌, ◌≤◌, true, false, is_some, None, IsSome, IfOk, IfErr, OnOk, OnErr, MatchBool};
ghost use Rattle.std.specs.Map.{remove_entry};
ghost use Rattle.std.specs.Str.{bytes_eq};
ghost use Rattle.sha2.specs.Sha256.{sha256};
ghost use Rattle.su_bytes.specs.declared.refusals.Refusal.TheVariants.{MissingBlock, NoMemory};
ghost use Rattle.su_shared_items.specs.Shard.{item_under, bytes_of, room_for};
ghost use Rattle.su_shared_items.specs.Section.{is_elsewhere, pins_of, Recounts, one_more, one_fewer, once_put, once_unpinned};

use crate::pins::Pins;
use crate::purposes::Purpose;
use crate::shard::Shard;
use std::alloc::{AllocError, Global};
use std::collections::BTreeSet;
use std::marker::Model;
use su_bytes::{Digest, FileId, Refusal};

/// A shard, the digests of which it was told that their items are kept elsewhere too, as far as
/// there was memory to note them, and how many sessions pin each item. Its model is these. What a
/// session pins stays; what stays and isn't pinned stays for good, until it is kept elsewhere.
#[derive(Drop)]
pub(crate) struct Section {
    shard: Shard,
    elsewhere: BTreeSet<[u8; 32]>,
    pins: Pins,
}

impl Model for Section {
    ghost use Rattle.su_shared_items.specs.Section.{Section as Noted};

    ghost Value = { Noted };

    ghost use Rattle.su_shared_items.specs.Section.{PinnedStay};

    ghost view = { λ s. record { held = s.shard; elsewhere = s.elsewhere.keys; pins = s.pins } };

    ghost invariant = { λ s. PinnedStay s.pins s.shard.staying };
}

impl Section {
    /// Makes a shard without items, which was told nothing. Those that may go may take `spare` bytes
    /// in all, and those that stay `staying` bytes.
    pub(crate) fn new(alloc: Global, spare: usize, staying: usize) -> Result<Section, AllocError> {
        let shard = Shard::new(alloc, spare, staying)?;
        Ok(Section {
            shard,
            elsewhere: BTreeSet::new(alloc),
            pins: Pins::new(alloc),
        })
    }

    /// Gets the item of a digest, as the shard does.
    pub(crate) fn get(&mut self, alloc: Global, digest: &Digest) -> Result<Vec<u8>, Refusal>
        ensures checked { IfOk result (λ item. sha256 item.items ≡ digest.now) }
        ensures refused { IfErr result (λ e. (e ≡ MissingBlock) ⊎ (e ≡ NoMemory)) }
    {
        self.shard.get(alloc, digest)
    }

    /// Puts an item under its digest. It stays for good, unless it is kept elsewhere too: then it
    /// may go. `NoMemory` where there is no memory for it, or where it would stay and there is no
    /// room for it among those that do.
    pub(crate) fn put(&mut self, alloc: Global, digest: &Digest, item: &[u8]) -> Result<(), Refusal>
        requires { sha256 item.now ≡ digest.now }
        ensures stays { is_elsewhere self.old.elsewhere digest.now ≡ false
            → OnOk result (IsSome (item_under self.new.held.staying digest.now)) }
        // Nobody pins it from then on.
        ensures for_good { is_elsewhere self.old.elsewhere digest.now ≡ false
            → OnOk result (Recounts digest.now None self.old.pins self.new.pins) }
        ensures elsewhere { is_elsewhere self.old.elsewhere digest.now ≡ true
            → (self.new.pins ≡ self.old.pins)
            × (self.new.held.staying ≡ self.old.held.staying) }
        ensures refused { IfErr result (λ e. e ≡ NoMemory) }
        // What stays, and what is pinned, doesn't change then.
        ensures unchanged { OnErr result ((self.new.held.staying ≡ self.old.held.staying)
            × (self.new.pins ≡ self.old.pins)) }
    {
        if self.elsewhere.contains(digest.as_bytes()) {
            return self.shard.share(alloc, digest, item);
        }
        let put = self.shard.put(alloc, digest, item, Purpose::Commit);
        if put.is_ok() {
            self.pins.forget(digest);
        }
        put
    }

    /// Puts an item under its digest for a session, which pins it from then on, and returns whether
    /// it does: it doesn't where the item stays for good, nor where it is kept elsewhere too, and
    /// then it may go. `NoMemory` where there is no memory for it, or where it would stay and there
    /// is no room among those that do for what is put for this purpose.
    pub(crate) fn put_pinned(
        &mut self,
        alloc: Global,
        digest: &Digest,
        item: &[u8],
        purpose: Purpose,
    ) -> Result<bool, Refusal>
        requires { sha256 item.now ≡ digest.now }
        ensures stays { is_elsewhere self.old.elsewhere digest.now ≡ false
            → OnOk result (IsSome (item_under self.new.held.staying digest.now)) }
        ensures pinned { is_elsewhere self.old.elsewhere digest.now ≡ false
            → IfOk result (λ pinned. pinned ≡ is_some (pins_of self.new.pins digest.now)) }
        ensures counted { is_elsewhere self.old.elsewhere digest.now ≡ false
            → OnOk result (Recounts digest.now
            (once_put (is_some (item_under self.old.held.staying digest.now))
            (pins_of self.old.pins digest.now)) self.old.pins self.new.pins) }
        ensures elsewhere { is_elsewhere self.old.elsewhere digest.now ≡ true
            → IfOk result (λ pinned. pinned ≡ false) × (self.new.pins ≡ self.old.pins)
            × (self.new.held.staying ≡ self.old.held.staying) }
        // One more that stays, and is put for something else than a commit, leaves room for those of
        // commits.
        ensures spares { OnOk result ((self.new.held.staying ≡ self.old.held.staying)
            ⊎ (bytes_of self.new.held.staying ≤ room_for purpose self.new.held.staying_room)) }
        ensures refused { IfErr result (λ e. e ≡ NoMemory) }
        // What stays, and what is pinned, doesn't change then.
        ensures unchanged { OnErr result ((self.new.held.staying ≡ self.old.held.staying)
            × Recounts digest.now (pins_of self.old.pins digest.now) self.old.pins self.new.pins) }
    {
        if self.elsewhere.contains(digest.as_bytes()) {
            self.shard.share(alloc, digest, item)?;
            return Ok(false);
        }
        if self.shard.stays(digest) {
            return self.pin_staying(digest);
        }
        self.pins.add(digest)?;
        match self.shard.put(alloc, digest, item, purpose) {
            Ok(()) => Ok(true),
            Err(refusal) => {
                self.pins.forget(digest);
                Err(refusal)
            }
        }
    }

    /// Pins an item that stays once more, where sessions pin it.
    fn pin_staying(&mut self, digest: &Digest) -> Result<bool, Refusal>
        requires { is_some (item_under self.old.held.staying digest.now) ≡ true }
        ensures pinned { IfOk result (λ pinned.
            pinned ≡ is_some (pins_of self.new.pins digest.now)) }
        ensures counted { OnOk result (Recounts digest.now
            (once_put true (pins_of self.old.pins digest.now)) self.old.pins self.new.pins) }
        ensures held { self.new.held ≡ self.old.held }
        ensures elsewhere { self.new.elsewhere ≡ self.old.elsewhere }
        ensures refused { IfErr result (λ e. e ≡ NoMemory) }
        ensures unchanged { OnErr result (self.new.pins ≡ self.old.pins) }
    {
        if !self.pins.contains(digest) {
            return Ok(false);
        }
        match self.pins.add(digest) {
            Ok(()) => Ok(true),
            Err(refusal) => Err(refusal),
        }
    }

    /// Pins the item of a digest once more, where sessions pin it, and returns whether it did. Else
    /// nothing changes.
    pub(crate) fn pin(&mut self, digest: &Digest) -> bool
        ensures held { self.new.held ≡ self.old.held }
        ensures counted { MatchBool result
            (Recounts digest.now (one_more (pins_of self.old.pins digest.now))
            self.old.pins self.new.pins)
            (self.new.pins ≡ self.old.pins) }
        ensures was_pinned { result ≡ true → IsSome (pins_of self.old.pins digest.now) }
    {
        self.pins.contains(digest) && self.pins.add(digest).is_ok()
    }

    /// Lets one session fewer pin the item of a digest. Where that was the last one, the item goes.
    /// Nothing changes where nobody pins it: where it stays for good, or may go.
    pub(crate) fn unpin(&mut self, digest: &Digest)
        ensures staying { self.new.held.staying ≡ once_unpinned
            (pins_of self.old.pins digest.now) digest.now self.old.held.staying }
        ensures counted { Recounts digest.now (one_fewer (pins_of self.old.pins digest.now))
            self.old.pins self.new.pins }
        ensures spare { self.new.held.spare ≡ self.old.held.spare }
    {
        if self.pins.subtract(digest) {
            self.shard.drop_staying(digest);
        }
    }

    /// Lets the item of a digest stay for good, if it stays: nobody pins it any more.
    pub(crate) fn let_stay(&mut self, digest: &Digest)
        ensures held { self.new.held ≡ self.old.held }
        ensures counted { Recounts digest.now None self.old.pins self.new.pins }
    {
        self.pins.forget(digest);
    }

    /// Puts an item that is kept elsewhere too under its digest, as one that may go. `NoMemory`
    /// where there is no memory for it; then it isn't noted that it is kept elsewhere.
    pub(crate) fn share(
        &mut self,
        alloc: Global,
        digest: &Digest,
        item: &[u8],
    ) -> Result<(), Refusal>
        requires { sha256 item.now ≡ digest.now }
        ensures staying { self.new.held.staying ≡ self.old.held.staying }
        ensures pins { self.new.pins ≡ self.old.pins }
        ensures refused { IfErr result (λ e. e ≡ NoMemory) }
        ensures unnoted { OnErr result (self.new.elsewhere ≡ self.old.elsewhere) }
    {
        // names the type for the prover (docs/ARCHITECTURE.md, "Forms the kit wants")
        let _none: Option<FileId> = None;
        self.shard.share(alloc, digest, item)?;
        let _ = self.elsewhere.insert(*digest.as_bytes());
        Ok(())
    }

    /// Lets the item of a digest go, if it stays: it is kept elsewhere too, and nobody pins it any
    /// more.
    pub(crate) fn release(&mut self, digest: &Digest)
        ensures staying { self.new.held.staying
            ≡ remove_entry (bytes_eq digest.now) self.old.held.staying }
        ensures counted { Recounts digest.now None self.old.pins self.new.pins }
    {
        let _ = self.elsewhere.insert(*digest.as_bytes());
        self.pins.forget(digest);
        self.shard.release(digest);
    }
}
