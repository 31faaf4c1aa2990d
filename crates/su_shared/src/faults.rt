// Why a book isn't opened, and why a step isn't made.
ghost use Rattle.std.specs.Prelude.{◌≡◌, None};
ghost use Rattle.su_bytes.specs.declared.refusals.Refusal.TheVariants.{NoMemory};
ghost use Rattle.su_shared.specs.declared.faults.BookFault.TheVariants.{Refused};

use crate::cells::BookName;
use crate::notes::Taken;
use std::alloc::AllocError;
use su_bytes::Refusal;
use su_keeper::Keeper;

/// Why no book is opened: it is refused; or the record of this number, from 1, is, of those that
/// its keeper found.
#[derive(Clone, Copy, Debug, PartialEq, Eq)]
pub enum BookFault {
    Refused(Refusal),
    Record(u64, Refusal),
}

impl From<Refusal> for BookFault {
    ghost from_gives = { λ r f. f ≡ Refused r };

    fn from(refusal: Refusal) -> BookFault {
        BookFault::Refused(refusal)
    }
}

impl From<AllocError> for BookFault {
    ghost from_gives = { λ _ f. f ≡ Refused NoMemory };

    fn from(_refused: AllocError) -> BookFault {
        BookFault::Refused(Refusal::NoMemory)
    }
}

/// Why a step isn't made. Where it is the cell of the record that the step makes which holds one
/// already, `taken` knows that.
#[derive(Drop)]
pub struct Unmade<N: BookName, K: Keeper> {
    pub refusal: Refusal,
    pub taken: Option<Taken<N, K>>,
}

impl<N: BookName, K: Keeper> From<Refusal> for Unmade<N, K> {
    ghost from_gives = { λ r u. (u.refusal ≡ r) × (u.taken ≡ None) };

    fn from(refusal: Refusal) -> Unmade<N, K> {
        Unmade {
            refusal,
            taken: None,
        }
    }
}

impl<N: BookName, K: Keeper> From<AllocError> for Unmade<N, K> {
    ghost from_gives = { λ _ u. (u.refusal ≡ NoMemory) × (u.taken ≡ None) };

    fn from(_refused: AllocError) -> Unmade<N, K> {
        Unmade {
            refusal: Refusal::NoMemory,
            taken: None,
        }
    }
}

impl<N: BookName, K: Keeper> From<Unmade<N, K>> for Refusal {
    ghost from_gives = { λ u r. r ≡ u.refusal };

    fn from(unmade: Unmade<N, K>) -> Refusal {
        unmade.refusal
    }
}
