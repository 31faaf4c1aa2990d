// Why a text isn't read.
ghost use Rattle.std.specs.Prelude.{◌≡◌};
ghost use Rattle.su_team.specs.declared.faults.TextFault.TheVariants.{NoMemory};

use std::alloc::{AllocError, AllocFailed};
use thiserror::Error;

/// Why a text of the state folder isn't read.
#[derive(Debug, Drop, Error)]
pub enum TextFault {
    /// The line with that number, from 1, is the first that is wrong.
    #[error("line {line}: {mistake}")]
    Line { line: usize, mistake: Mistake },
    /// Memory is refused.
    #[error("out of memory")]
    NoMemory,
}

/// What is wrong in a line. Which one is told rests on no clause.
#[derive(Clone, Copy, Debug, PartialEq, Eq, Error)]
pub enum Mistake {
    /// The first line of a team is another one.
    #[error("it is not `sundr team 1`")]
    FirstLine,
    /// The line begins with no name and a space.
    #[error("no name of 1 to 32 letters, digits, `-`, `_` and `.`, and a space behind it")]
    Name,
    /// An earlier line has the name.
    #[error("the name stands in an earlier line")]
    SameName,
    /// Behind the name is no key, or more than a key.
    #[error("no key of 112 digits, with `a` to `f` in lower case, and nothing else behind it")]
    Key,
    /// There are 64 users already.
    #[error("more than 64 users")]
    ManyUsers,
    /// The text ends before the first user.
    #[error("no user")]
    NoUser,
}

impl From<AllocError> for TextFault {
    ghost from_gives = { λ _ e. e ≡ NoMemory };

    fn from(_refused: AllocError) -> TextFault {
        TextFault::NoMemory
    }
}

impl<T: Drop> From<AllocFailed<T>> for TextFault {
    ghost from_gives = { λ _ e. e ≡ NoMemory };

    fn from(_refused: AllocFailed<T>) -> TextFault {
        TextFault::NoMemory
    }
}
