// Laws of streams.
ghost use Rattle.std.specs.Prelude.{◌≡◌, ◌++◌, ℕ, List, Some};
ghost use Rattle.su_bytes.specs.declared.refusals.Refusal.{Refusal};
ghost use Rattle.su_frames.specs.Stream.{fault, stream, Splits, IsRest};

/// A stream has one list of messages: whoever took some messages from its front took the first of
/// them.
pub fn one_cut()
    ensures { (bytes rest last : List ℕ) (taken all : List (List ℕ))
        → Splits bytes taken rest → Splits bytes all last → IsRest last
        → (more : List (List ℕ)) × (all ≡ taken ++ more) × (rest ≡ stream more last) }
{}

/// A length that is refused is refused ever after, whatever follows.
pub fn refused_for_good()
    ensures { (bytes more : List ℕ) (e : Refusal)
        → fault bytes ≡ Some e → fault (bytes ++ more) ≡ Some e }
{}
