// Where a signer keeps the number of the leaf that signs next.
ghost use Rattle.std.specs.Prelude.{◌≡◌, ◌<◌, ◌≤◌, ◌-◌, ◌^◌, ℕ, true};
ghost use Rattle.std.specs.Bool.{OnTrue, OnFalse};

/// Keeps the number of the leaf that signs next, so that no leaf signs twice, not even after a
/// restart.
pub trait KeyStore: Drop {
    // Storing this number turns the one store into the other.
    ghost stores: { Self → ℕ → Self → Type 0 };

    // What a call that fails to store this number may make of the store.
    ghost misses: { Self → ℕ → Self → Type 0 };

    // How many calls have failed.
    ghost failure_count: { Self → ℕ };

    /// Stores the number of the leaf that signs next, and says whether it is kept. After a `false`,
    /// `failures` has risen, unless it was at its last value.
    fn store_next(&mut self, q: u32) -> bool
        ensures stored { OnTrue result (stores self.old q self.new) }
        ensures missed { OnFalse result (misses self.old q self.new) }
        ensures rises { failure_count self.old ≤ failure_count self.new }
        ensures failed { OnFalse result (failure_count self.old < 2 ^ 64 - 1
            → failure_count self.old < failure_count self.new) };

    /// How many calls have failed; at its last value it stays.
    fn failures(&self) -> u64
        ensures { result ≡ failure_count self.now };
}

/// Keeps nothing, and always succeeds: for a key that lives as long as the program.
#[derive(Clone, Copy, Debug, PartialEq, Eq)]
pub struct NoStore;

impl KeyStore for NoStore {
    ghost stores = { λ before _ after. after ≡ before };

    ghost misses = { λ before _ after. after ≡ before };

    ghost failure_count = { λ _. 0 };

    fn store_next(&mut self, _q: u32) -> bool
        ensures always { result ≡ true }
        ensures stored { self.new ≡ self.old }
    {
        true
    }

    fn failures(&self) -> u64 {
        u64::MIN
    }
}
