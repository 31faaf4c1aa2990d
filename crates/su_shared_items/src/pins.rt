// Which items sessions pin.
ghost use Rattle.std.specs.Prelude.{◌≡◌, [], None, is_some, IfErr, OnOk, OnErr};
ghost use Rattle.su_bytes.specs.declared.refusals.Refusal.TheVariants.{NoMemory};
ghost use Rattle.su_shared_items.specs.Section.{pins_of, Recounts, one_more, one_fewer, is_last};

use std::alloc::Global;
use std::collections::BTreeMap;
use std::marker::Model;
use su_bytes::{Digest, Refusal};

/// How many sessions pin an item, of each that one pins at least. Its model is these counts, each
/// beside the digest of its item.
#[derive(Drop)]
pub(crate) struct Pins {
    counts: BTreeMap<[u8; 32], u32>,
}

impl Model for Pins {
    ghost use Rattle.su_shared_items.specs.Section.{Counts};

    ghost Value = { Counts };

    ghost view = { λ p. p.counts.entries };
}

impl Pins {
    /// Begins with no item that is pinned.
    pub(crate) fn new(alloc: Global) -> Pins
        ensures { result ≡ [] }
    {
        Pins {
            counts: BTreeMap::new(alloc),
        }
    }

    /// Returns whether a session pins the item of a digest.
    pub(crate) fn contains(&self, digest: &Digest) -> bool
        ensures { result ≡ is_some (pins_of self.now digest.now) }
    {
        self.counts.contains_key(digest.as_bytes())
    }

    /// Counts one more session that pins the item of a digest. `NoMemory` where there is none for
    /// that, or where 4,294,967,295 sessions pin it; then nothing changes.
    pub(crate) fn add(&mut self, digest: &Digest) -> Result<(), Refusal>
        ensures added { OnOk result
            (Recounts digest.now (one_more (pins_of self.old digest.now)) self.old self.new) }
        ensures refused { IfErr result (λ e. e ≡ NoMemory) }
        ensures unchanged { OnErr result (self.new ≡ self.old) }
    {
        let key = digest.as_bytes();
        let count = self.counts.get(key).copied().unwrap_or(0);
        if count == u32::MAX {
            return Err(Refusal::NoMemory);
        }
        self.counts.insert(*key, count + 1)?;
        Ok(())
    }

    /// Counts one session fewer that pins the item of a digest, if any does, and returns whether
    /// that was the last one.
    pub(crate) fn subtract(&mut self, digest: &Digest) -> bool
        ensures last { result ≡ is_last (pins_of self.old digest.now) }
        ensures fewer { Recounts digest.now (one_fewer (pins_of self.old digest.now))
            self.old self.new }
    {
        let key = digest.as_bytes();
        let Some(count) = self.counts.get(key).copied() else {
            return false;
        };
        if count <= 1 {
            let _ = self.counts.remove(key);
            return true;
        }
        // it is there, so this takes no memory
        let _ = self.counts.insert(*key, count - 1);
        false
    }

    /// Forgets all that pin the item of a digest.
    pub(crate) fn forget(&mut self, digest: &Digest)
        ensures { Recounts digest.now None self.old self.new }
    {
        let _ = self.counts.remove(digest.as_bytes());
    }
}
