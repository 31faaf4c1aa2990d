// A client that only looks.
ghost use Rattle.std.specs.Prelude.{◌≡◌, ◌+◌, ◌-◌, ◌^◌, min, false, IfErr};
ghost use Rattle.su_bytes.specs.declared.refusals.Refusal.TheVariants.{NoMemory};

use std::alloc::Global;
use su_bytes::Refusal;
use su_lms::{KeyStore, Params, Signer};

/// Keeps no leaf: so a signer over it never signs. It stands in the place of a key where a command
/// only looks, and counts how often it was asked all the same.
#[derive(Debug, Drop)]
pub struct Keyless {
    failures: u64,
}

impl KeyStore for Keyless {
    ghost use Rattle.std.specs.Prelude.{◌≡◌, ◌+◌, ◌-◌, ◌^◌, min};

    ghost stores = { λ _ _ _. ⊥ };

    ghost misses = { λ before _ after.
        after ≡ record before { failures = min (before.failures + 1) (2 ^ 64 - 1) } };

    ghost failure_count = { λ store. store.failures };

    fn store_next(&mut self, _q: u32) -> bool {
        self.failures = self.failures.saturating_add(1);
        false
    }

    fn failures(&self) -> u64 {
        self.failures
    }
}

/// Makes a signer that never signs. Only `NoMemory` can come.
pub(crate) fn no_signer(alloc: Global) -> Result<Signer<Keyless>, Refusal>
    ensures { IfErr result (λ e. e ≡ NoMemory) }
{
    // the smallest key: it is made at each start of a command that only looks
    let params = Params { lms: 5, ots: 3 };
    Signer::generate(alloc, params, [0; 16], [0; 32], Keyless { failures: 0 })
}
