// A source that never has an item.
ghost use Rattle.std.specs.Prelude.{◌≡◌, ◌⊎◌, ◌↔◌, true, false, Err, None};
ghost use Rattle.su_block.specs.Item.{is_item};
ghost use Rattle.su_block.specs.Failure.{one_more};
ghost use Rattle.su_bytes.specs.declared.refusals.Refusal.TheVariants.{MissingBlock, TooBig, NoMemory};

use std::alloc::Global;
use su_block::{BlockSource, Failures, is_item};
use su_bytes::{Digest, Refusal};

/// A source that never has an item, and takes none: by its type it gives nothing.
#[derive(Debug, Drop)]
pub struct NoBlocks {
    failures: Failures,
}

impl NoBlocks {
    /// Makes such a source. No call of it has failed.
    pub fn new() -> NoBlocks
        ensures { result.failures ≡ record { count = 0; last = None } }
    {
        NoBlocks {
            failures: Failures::none(),
        }
    }
}

/// It is checked, as it gives nothing.
impl BlockSource for NoBlocks {
    // Nothing.
    ghost may_give = { λ s item. ⊥ };

    ghost is_checked = { true };

    ghost failed = { λ s. s.failures };

    ghost follows = { λ s t. Unit {0} };

    // It takes none.
    ghost puts = { λ s item t. ⊥ };

    ghost follows_itself = { λ s. tt };

    ghost follows_on = { λ s t u first second. tt };

    /// `MissingBlock`, whatever is asked for.
    fn get(&mut self, _alloc: Global, digest: Digest) -> Result<Vec<u8>, Refusal>
        ensures none { result ≡ Err MissingBlock }
        ensures counted { self.new.failures ≡ one_more self.old.failures digest }
    {
        self.failures.add(digest);
        Err(Refusal::MissingBlock)
    }

    /// `TooBig` where the item has not 1 to 70,000 bytes, else `NoMemory`: there is no room for one.
    fn put(&mut self, _alloc: Global, item: &[u8]) -> Result<Digest, Refusal>
        ensures too_big { (result ≡ Err TooBig) ↔ (is_item item.now ≡ false) }
        ensures refused { (result ≡ Err TooBig) ⊎ (result ≡ Err NoMemory) }
        ensures same { self.new ≡ self.old }
    {
        if is_item(item) {
            Err(Refusal::NoMemory)
        } else {
            Err(Refusal::TooBig)
        }
    }

    fn failures(&self) -> u64 {
        self.failures.count
    }

    fn failed_at(&self) -> Option<Digest> {
        self.failures.last
    }
}
