// What a scratch promises.
ghost use Rattle.std.specs.Prelude.{◌≡◌, ◌⊎◌, ◌++◌, ℕ, List, IfOk, IfErr, OnOk, OnErr, length};
ghost use Rattle.su_bytes.specs.declared.refusals.Refusal.TheVariants.{SourceFailed, NoMemory};
ghost use Rattle.su_scratch.specs.Written.{LiesAt};

use std::alloc::Global;
use su_bytes::Refusal;

/// A place for bytes that is written at its end and read anywhere, as a file is that nobody else has.
/// What it gives back need not be what was written.
pub trait Scratch {
    // The byte strings that it may give, whatever is appended from now on.
    ghost may_give: { Self → List ℕ → Type 0 };

    // It gives back what was written.
    ghost keeps: { Self → Type 0 };

    // All that was written, where it gives that back.
    ghost written: { Self → List ℕ };

    /// Returns where what is appended next begins.
    fn end(&self) -> u64
        ensures { keeps self.now → result ≡ length (written self.now) };

    /// Appends bytes. `SourceFailed` where it fails; then nothing is appended.
    fn append(&mut self, bytes: &[u8]) -> Result<(), Refusal>
        ensures refused { IfErr result (λ e. e ≡ SourceFailed) }
        ensures no_more { (s : List ℕ) → may_give self.new s → may_give self.old s }
        ensures keeps { keeps self.old → keeps self.new }
        ensures appended { keeps self.old
            → OnOk result (written self.new ≡ written self.old ++ bytes.now) }
        ensures err { keeps self.old → OnErr result (written self.new ≡ written self.old) };

    /// Reads so many bytes, from a place on. `SourceFailed` where it fails, `NoMemory`.
    fn read(&mut self, alloc: Global, place: u64, count: usize) -> Result<Vec<u8>, Refusal>
        ensures given { IfOk result (λ bytes. may_give self.old bytes.items) }
        ensures refused { IfErr result (λ e. (e ≡ SourceFailed) ⊎ (e ≡ NoMemory)) }
        ensures no_more { (s : List ℕ) → may_give self.new s → may_give self.old s }
        ensures keeps { keeps self.old → keeps self.new }
        ensures unchanged { keeps self.old → written self.new ≡ written self.old }
        ensures back { (s : List ℕ) → keeps self.old → LiesAt (written self.old) place s
            → length s ≡ count → IfOk result (λ bytes. bytes.items ≡ s) };
}
