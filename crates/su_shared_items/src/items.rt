// Items, as they are held.
ghost use Rattle.std.specs.Prelude.{◌≡◌, IfOk, IfErr};
ghost use Rattle.su_bytes.specs.declared.refusals.Refusal.TheVariants.{NoMemory};
ghost use Rattle.su_shared_items.specs.Shard.{cost_of};

use std::alloc::Global;
use std::marker::Model;
use su_bytes::Refusal;

/// How many bytes of memory an item takes beside its own, for the place where it is held, what
/// finds it, and what tells which sessions pin it.
const ITEM_COST: usize = 256;

/// Returns how many bytes an item takes, which has these.
#[tactic(auto, unfolding(crate::specs::Shard::cost_of))]
pub(crate) fn cost_of(item: &[u8]) -> usize
    ensures { result ≡ cost_of item.now }
{
    item.len() + ITEM_COST
}

/// The bytes of an item that is held.
#[derive(Drop)]
pub(crate) struct Item {
    bytes: Vec<u8>,
}

impl Model for Item {
    ghost use Rattle.std.specs.Prelude.{ℕ, List};

    ghost Value = { List ℕ };

    ghost view = { λ item. item.bytes.items };
}

impl Item {
    /// Makes an item of these bytes. `NoMemory` where there is no room for them.
    pub(crate) fn copy_of(alloc: Global, bytes: &[u8]) -> Result<Item, Refusal>
        ensures bytes { IfOk result (λ item. item ≡ bytes.now) }
        ensures refused { IfErr result (λ e. e ≡ NoMemory) }
    {
        let bytes = Vec::from_slice(alloc, bytes)?;
        Ok(Item { bytes })
    }

    /// Returns how many bytes it takes.
    pub(crate) fn cost(&self) -> usize
        ensures { result ≡ cost_of self.now }
    {
        cost_of(self.bytes.as_slice())
    }

    /// Copies the bytes. `NoMemory` where there is no room for them.
    pub(crate) fn copy(&self, alloc: Global) -> Result<Vec<u8>, Refusal>
        ensures bytes { IfOk result (λ copy. copy.items ≡ self.now) }
        ensures refused { IfErr result (λ e. e ≡ NoMemory) }
    {
        Ok(Vec::from_slice(alloc, self.bytes.as_slice())?)
    }
}
