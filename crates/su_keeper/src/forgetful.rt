// A keeper for a server that serves from memory.
use crate::keepers::{Keeper, NotKept};
use std::alloc::Global;
use su_bytes::Digest;

/// Keeps nothing that outlasts the process, and never fails.
#[derive(Clone, Copy, Debug, Drop, PartialEq, Eq)]
pub struct Forgetful;

impl Keeper for Forgetful {
    ghost use Rattle.std.specs.Prelude.{◌≡◌, [], false};

    ghost holds = { λ _ _. Unit {0} };

    ghost found = { λ _ rest. rest ≡ [] };

    ghost is_at_end = { λ _. Unit {0} };

    ghost is_clean = { λ _. Unit {0} };

    ghost may_fail = { ⊥ };

    ghost reads_back = { false };

    fn keep(&mut self, _alloc: Global, _commit: &[u8], _items: &[Vec<u8>]) -> Result<(), NotKept> {
        Ok(())
    }

    fn next(&mut self, _alloc: Global) -> Result<Option<Vec<u8>>, NotKept> {
        Ok(None)
    }

    fn gives_back() -> bool {
        false
    }

    fn record(
        &mut self,
        _alloc: Global,
        _number: u64,
        _digest: Digest,
    ) -> Result<Option<Vec<u8>>, NotKept> {
        Ok(None)
    }

    fn item(&mut self, _alloc: Global, _digest: Digest) -> Result<Option<Vec<u8>>, NotKept> {
        Ok(None)
    }

    fn stop(&mut self) {}
}
