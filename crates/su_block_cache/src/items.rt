// Items, as they are kept.
ghost use Rattle.std.specs.Prelude.{◌≡◌, IfOk, IfErr};
ghost use Rattle.su_bytes.specs.declared.refusals.Refusal.TheVariants.{NoMemory};

use std::alloc::Global;
use std::marker::Model;
use su_bytes::Refusal;

/// The bytes of an item that is kept.
#[derive(Drop)]
pub(crate) struct Item {
    bytes: Vec<u8>,
}

impl Model for Item {
    ghost use Rattle.std.specs.Prelude.{ℕ, List};

    ghost Value = { List ℕ };

    ghost view = { λ item. item.bytes.items };
}

impl Item {
    /// Makes an item of these bytes. `NoMemory` where there is no room for them.
    pub(crate) fn copy_of(alloc: Global, bytes: &[u8]) -> Result<Item, Refusal>
        ensures bytes { IfOk result (λ item. item ≡ bytes.now) }
        ensures refused { IfErr result (λ e. e ≡ NoMemory) }
    {
        let bytes = Vec::from_slice(alloc, bytes)?;
        Ok(Item { bytes })
    }

    /// Copies the bytes. `NoMemory` where there is no room for them.
    pub(crate) fn copy(&self, alloc: Global) -> Result<Vec<u8>, Refusal>
        ensures bytes { IfOk result (λ copy. copy.items ≡ self.now) }
        ensures refused { IfErr result (λ e. e ≡ NoMemory) }
    {
        Ok(Vec::from_slice(alloc, self.bytes.as_slice())?)
    }
}
