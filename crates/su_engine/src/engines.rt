// What an engine promises.
ghost use Rattle.std.specs.Prelude.{◌≡◌, ◌∷◌, ℕ, List, [], true, None, Contains, IfOk, IfSome};
ghost use Rattle.su_engine.specs.Pairs.{pairs_of};

use std::alloc::{AllocError, AllocFailed, Global};

/// An engine gave no answer, or one that doesn't fit, or there is no memory. What was asked of it may
/// be done or not.
#[derive(Clone, Copy, Debug, PartialEq, Eq)]
pub struct Unanswered;

impl From<AllocError> for Unanswered {
    fn from(_refused: AllocError) -> Unanswered {
        Unanswered
    }
}

impl<T: Drop> From<AllocFailed<T>> for Unanswered {
    fn from(_refused: AllocFailed<T>) -> Unanswered {
        Unanswered
    }
}

/// A key with what it is to hold.
#[derive(Drop)]
pub struct Pair {
    pub key: Vec<u8>,
    pub value: Vec<u8>,
}

/// Holds values under keys, each for good.
pub trait Engine: Drop {
    ghost use Rattle.su_engine.specs.Pairs.{pairs_of};

    // It told that it holds this value under this key, for good, whatever becomes of the process.
    ghost has: { Self → List ℕ → List ℕ → Type 0 };

    // It told once that it held nothing under this key.
    ghost lacked: { Self → List ℕ → Type 0 };

    /// Lets a key hold a value, and other keys theirs beside it, unless the first one holds something:
    /// all of them or none. True where they hold these then, as after an earlier call that got no
    /// answer.
    fn put_once(&mut self, alloc: Global, first: &Pair, beside: &[Pair]) -> Result<bool, Unanswered>
        ensures made { IfOk result (λ is. is ≡ true → (p : List ℕ × List ℕ)
            → Contains ((first.now.key.items, first.now.value.items) ∷ pairs_of beside.now) p
            → has self.new p.0 p.1) }
        ensures held { (k v : List ℕ) → has self.old k v → has self.new k v }
        ensures lacked { (k : List ℕ) → lacked self.old k → lacked self.new k };

    /// Reads what a key holds.
    fn read(&mut self, alloc: Global, key: &[u8]) -> Result<Option<Vec<u8>>, Unanswered>
        ensures found { IfOk result (λ o. IfSome o (λ value. has self.new key.now value.items)) }
        ensures none { IfOk result (λ o. o ≡ None → lacked self.new key.now) }
        ensures held { (k v : List ℕ) → has self.old k v → has self.new k v }
        ensures lacked { (k : List ℕ) → lacked self.old k → lacked self.new k };

    /// Reads what the keys hold from one on up to another one, which isn't read. Fails where that
    /// isn't behind the first.
    fn read_page(
        &mut self,
        alloc: Global,
        first: &[u8],
        end: &[u8],
    ) -> Result<Vec<Pair>, Unanswered>
        ensures found { IfOk result (λ pairs. (p : List ℕ × List ℕ)
            → Contains (pairs_of pairs.items) p → has self.new p.0 p.1) }
        ensures none { IfOk result (λ pairs. pairs.items ≡ [] → lacked self.new first.now) }
        ensures held { (k v : List ℕ) → has self.old k v → has self.new k v }
        ensures lacked { (k : List ℕ) → lacked self.old k → lacked self.new k };
}
