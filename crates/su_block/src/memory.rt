// Items in memory.
ghost use Rattle.std.specs.Prelude.{◌≡◌, ◌⊎◌, ◌↔◌, ℕ, List, [], false, IfOk, IfErr, OnOk, OnErr, Err, Some, None, Contains};
ghost use Rattle.sha2.specs.Sha256.{sha256};
ghost use Rattle.su_block.specs.Item.{is_item};
ghost use Rattle.su_block.specs.Failure.{failures_after};
ghost use Rattle.su_block.specs.Memory.{HasItemOf, held_under, held_with};
ghost use Rattle.su_bytes.specs.declared.refusals.Refusal.TheVariants.{MissingBlock, TooBig, NoMemory};

use crate::failures::Failures;
use crate::items::{digest_of, is_item};
use crate::sources::BlockSource;
use std::alloc::Global;
use std::collections::BTreeMap;
use std::marker::Model;
use su_bytes::{Digest, Refusal};

/// The bytes of an item that is held.
#[derive(Drop)]
struct Item {
    bytes: Vec<u8>,
}

impl Model for Item {
    ghost use Rattle.std.specs.Prelude.{ℕ, List};

    ghost Value = { List ℕ };

    ghost view = { λ item. item.bytes.items };
}

impl Item {
    fn new(bytes: Vec<u8>) -> Item
        ensures { result ≡ bytes.items }
    {
        Item { bytes }
    }

    fn copy(&self, alloc: Global) -> Result<Vec<u8>, Refusal>
        ensures value { IfOk result (λ copy. copy.items ≡ self.now) }
        ensures refused { IfErr result (λ e. e ≡ NoMemory) }
    {
        Ok(Vec::from_slice(alloc, self.bytes.as_slice())?)
    }
}

/// A source that holds its items in memory. Its model is these, and its failures.
#[derive(Drop)]
pub struct MemoryBlocks {
    blocks: BTreeMap<[u8; 32], Item>,
    failures: Failures,
}

impl Model for MemoryBlocks {
    ghost use Rattle.su_block.specs.Memory.{Memory};

    ghost Value = { Memory };

    ghost use Rattle.su_block.specs.Memory.{AreUnderTheirDigests};
    ghost use Rattle.std.specs.Map.{values_of};

    ghost view = { λ m. record { items = values_of m.blocks.entries; failed = m.failures } };

    ghost invariant = { λ m. AreUnderTheirDigests m.blocks.entries };
}

impl MemoryBlocks {
    /// Makes a source without items.
    pub fn new(alloc: Global) -> MemoryBlocks
        ensures { result ≡ record { items = []; failed = record { count = 0; last = None } } }
    {
        MemoryBlocks {
            blocks: BTreeMap::new(alloc),
            failures: Failures::none(),
        }
    }

    /// Holds an item under its digest, which the caller has computed. Where one is held there, that
    /// one stays. `NoMemory` where there is no room for the item; then nothing changes.
    pub fn hold(&mut self, alloc: Global, digest: Digest, item: &[u8]) -> Result<(), Refusal>
        requires { sha256 item.now ≡ digest }
        ensures held { OnOk result (HasItemOf self.new.items digest) }
        // Under any other digest is held what was.
        ensures under { OnOk result (held_under self.new.items
            ≡ held_with (held_under self.old.items) item.now) }
        ensures kept { (s : List ℕ) → Contains self.old.items s → Contains self.new.items s }
        ensures more { (s : List ℕ) → Contains self.new.items s
            → Contains self.old.items s ⊎ (s ≡ item.now) }
        ensures refused { IfErr result (λ e. e ≡ NoMemory) }
        ensures err { OnErr result (self.new ≡ self.old) }
        ensures counted { self.new.failed ≡ self.old.failed }
    {
        if self.blocks.contains_key(digest.as_bytes()) {
            return Ok(());
        }
        let copy = Vec::from_slice(alloc, item)?;
        self.blocks.insert(*digest.as_bytes(), Item::new(copy))?;
        Ok(())
    }
}

/// It is checked, and refuses an item only where it holds none of that digest.
impl BlockSource for MemoryBlocks {
    ghost use Rattle.std.specs.Prelude.{true, Contains};

    ghost may_give = { λ m item. Contains m.items item };

    ghost is_checked = { true };

    ghost failed = { λ m. m.failed };

    ghost use Rattle.sha2.specs.Sha256.{sha256};
    ghost use Rattle.su_block.specs.Memory.{HasItemOf};

    ghost follows = { λ a b. (s : List ℕ) → Contains a.items s → Contains b.items s };

    ghost puts = { λ a item b. HasItemOf b.items (sha256 item) };

    ghost follows_itself = { λ m s has. has };

    ghost follows_on = { λ a b c first second s has. second s (first s has) };

    fn get(&mut self, alloc: Global, digest: Digest) -> Result<Vec<u8>, Refusal>
        ensures given { IfOk result (λ item. Contains self.old.items item.items) }
        ensures checked { IfOk result (λ item. sha256 item.items ≡ digest) }
        ensures under { IfOk result (λ item.
            held_under self.old.items digest ≡ Some item.items) }
        // It is refused only where nothing is held under the digest, or there is no room.
        ensures none { (result ≡ Err MissingBlock) ↔ (held_under self.old.items digest ≡ None) }
        ensures missing { result ≡ Err MissingBlock → ¬ HasItemOf self.old.items digest }
        ensures refused { IfErr result (λ e. (e ≡ MissingBlock) ⊎ (e ≡ NoMemory)) }
        ensures kept { self.new.items ≡ self.old.items }
        ensures counted { self.new.failed ≡ failures_after result digest self.old.failed }
    {
        let Some(item) = self.blocks.get(digest.as_bytes()) else {
            self.failures.add(digest);
            return Err(Refusal::MissingBlock);
        };
        item.copy(alloc)
    }

    fn put(&mut self, alloc: Global, item: &[u8]) -> Result<Digest, Refusal>
        ensures digest { IfOk result (λ digest. digest ≡ sha256 item.now) }
        // From then on an item is held under the digest: this one, unless another one was.
        ensures held { IfOk result (λ digest. HasItemOf self.new.items digest) }
        // Under any other digest is held what was.
        ensures under { OnOk result (held_under self.new.items
            ≡ held_with (held_under self.old.items) item.now) }
        ensures kept { (s : List ℕ) → Contains self.old.items s → Contains self.new.items s }
        ensures more { (s : List ℕ) → Contains self.new.items s
            → Contains self.old.items s ⊎ (s ≡ item.now) }
        ensures too_big { (result ≡ Err TooBig) ↔ (is_item item.now ≡ false) }
        ensures refused { IfErr result (λ e. (e ≡ TooBig) ⊎ (e ≡ NoMemory)) }
        ensures err { OnErr result (self.new ≡ self.old) }
        ensures counted { self.new.failed ≡ self.old.failed }
    {
        if !is_item(item) {
            return Err(Refusal::TooBig);
        }
        let digest = digest_of(item);
        self.hold(alloc, digest, item)?;
        Ok(digest)
    }

    fn failures(&self) -> u64 {
        self.failures.count
    }

    fn failed_at(&self) -> Option<Digest> {
        self.failures.last
    }
}
