// Why what a person asked for isn't done.
ghost use Rattle.std.specs.Prelude.{◌≡◌};
ghost use Rattle.su_bytes.specs.declared.refusals.Refusal.TheVariants.{NoMemory};
ghost use Rattle.su_view.specs.declared.refusals.ViewRefusal.TheVariants.{Plain};
ghost use Rattle.su_person.specs.declared.faults.Fault.TheVariants.{Refused};

use std::alloc::AllocError;
use su_bytes::{Refusal, User};
use su_view::ViewRefusal;

/// Why what a person asked for isn't done, or not to its end. What was committed before stays.
#[derive(Clone, Copy, Debug)]
pub enum Fault {
    /// The client, the tree or the server refuses it.
    Refused(ViewRefusal),
    /// The turn isn't granted, or the client refuses what the server shows before it makes a commit.
    Shown(ViewRefusal),
    /// Another user changed the file's bytes with the commit of that number, which the person hasn't
    /// seen yet.
    Changed { number: u64, author: User },
    /// The commits that the client holds couldn't be kept, which the program has told.
    Unkept,
}

impl From<ViewRefusal> for Fault {
    ghost from_gives = { λ refusal fault. fault ≡ Refused refusal };

    fn from(refusal: ViewRefusal) -> Fault {
        Fault::Refused(refusal)
    }
}

impl From<Refusal> for Fault {
    ghost from_gives = { λ refusal fault. fault ≡ Refused (Plain refusal) };

    fn from(refusal: Refusal) -> Fault {
        Fault::Refused(ViewRefusal::Plain(refusal))
    }
}

impl From<AllocError> for Fault {
    ghost from_gives = { λ _ fault. fault ≡ Refused (Plain NoMemory) };

    fn from(_refused: AllocError) -> Fault {
        Fault::Refused(ViewRefusal::Plain(Refusal::NoMemory))
    }
}
