// Why words make no command line.
ghost use Rattle.std.specs.Prelude.{◌≡◌};
ghost use Rattle.su_line.specs.declared.faults.LineFault.TheVariants.{NoMemory};

use std::alloc::AllocError;
use thiserror::Error;

/// Why there is no line.
#[derive(Debug, Drop, Error)]
pub enum LineFault {
    /// The words make no command line; the text says why.
    #[error("{0}")]
    Usage(String),
    #[error("out of memory")]
    NoMemory,
}

impl From<AllocError> for LineFault {
    ghost from_gives = { λ _ e. e ≡ NoMemory };

    fn from(_refused: AllocError) -> LineFault {
        LineFault::NoMemory
    }
}
