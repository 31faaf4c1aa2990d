// What a source promises.
ghost use Rattle.std.specs.Prelude.{◌≡◌, ◌⊎◌, ◌↔◌, ℕ, Bool, List, true, false, IfOk, IfErr, OnOk, OnErr, Err};
ghost use Rattle.sha2.specs.Sha256.{sha256};
ghost use Rattle.su_block.specs.Item.{is_item};
ghost use Rattle.su_block.specs.Failure.{failures_after};
ghost use Rattle.su_block.specs.declared.failures.Failures.{Failures};
ghost use Rattle.su_bytes.specs.declared.refusals.Refusal.TheVariants.{MissingBlock, WrongBlock, SourceFailed, TooBig, NoMemory};

use crate::failures::Failures;
use std::alloc::Global;
use su_bytes::{Digest, Refusal};

/// A store of items, which is asked for them by their digests. It need not be trusted; whether it
/// is *checked*, so that what it gives has the digest that was asked for, is a matter of its type.
pub trait BlockSource {
    // The items that it may give from now on.
    ghost may_give: { Self → List ℕ → Type 0 };

    // Whether what it gives has the digest that was asked for.
    ghost is_checked: { Bool };

    // The calls so far in which it failed.
    ghost failed: { Self → Failures };

    // What may have become of it by some calls, one after another.
    ghost follows: { Self → Self → Type 0 };

    // It was handed this item, and took it.
    ghost puts: { Self → List ℕ → Self → Type 0 };

    /// Gets the item of a digest. `MissingBlock` where it has none, `WrongBlock` where it gave
    /// another one, `SourceFailed` where it could not be asked; `NoMemory` where there is no room
    /// for the item.
    fn get(&mut self, alloc: Global, digest: Digest) -> Result<Vec<u8>, Refusal>
        ensures given { IfOk result (λ item. may_give self.old item.items) }
        ensures checked { is_checked ≡ true → IfOk result (λ item. sha256 item.items ≡ digest) }
        ensures refused { IfErr result (λ e.
            (e ≡ MissingBlock) ⊎ (e ≡ WrongBlock) ⊎ (e ≡ SourceFailed) ⊎ (e ≡ NoMemory)) }
        ensures no_more { (s : List ℕ) → may_give self.new s → may_give self.old s }
        ensures follows { follows self.old self.new }
        ensures counted { failed self.new ≡ failures_after result digest (failed self.old) };

    /// Puts an item, and answers its digest. `TooBig` where it has not 1 to 70,000 bytes, and just
    /// there; then `SourceFailed` where the source could not be asked, `NoMemory` where there is no
    /// room for the item. Putting what is there changes nothing.
    fn put(&mut self, alloc: Global, item: &[u8]) -> Result<Digest, Refusal>
        ensures digest { IfOk result (λ digest. digest ≡ sha256 item.now) }
        ensures puts { OnOk result (puts self.old item.now self.new) }
        ensures follows { follows self.old self.new }
        ensures too_big { (result ≡ Err TooBig) ↔ (is_item item.now ≡ false) }
        ensures refused { IfErr result (λ e. (e ≡ TooBig) ⊎ (e ≡ SourceFailed) ⊎ (e ≡ NoMemory)) }
        // It may give the item as well from now on, and no other that it might not give before.
        ensures more { (s : List ℕ) → may_give self.new s → may_give self.old s ⊎ (s ≡ item.now) }
        ensures err { OnErr result ((s : List ℕ) → may_give self.new s → may_give self.old s) }
        ensures counted { failed self.new
            ≡ failures_after result (sha256 item.now) (failed self.old) };

    /// Returns how many calls have failed: were answered `MissingBlock`, `WrongBlock` or
    /// `SourceFailed`. At its last value it stays.
    fn failures(&self) -> u64
        ensures { result ≡ (failed self.now).count };

    /// Returns the digest that the newest of those calls was about: what was asked for, or what the
    /// item to be put has.
    fn failed_at(&self) -> Option<Digest>
        ensures { result ≡ (failed self.now).last };

    // No call is as well as some, and calls may come behind calls.
    ghost follows_itself: { (s : Self) → follows s s };

    ghost follows_on: { (a b c : Self) → follows a b → follows b c → follows a c };
}
