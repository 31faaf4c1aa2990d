// Why a measurement stops.
use std::alloc::{AllocError, AllocFailed};
use std::io;
use su_bytes::Refusal;

/// Why a measurement stopped.
#[derive(Debug, Drop)]
pub enum Fault {
    /// The clock or the output failed.
    System(io::Error),
    /// An operation was refused, by the number of the refusal.
    Refused(u8),
}

impl From<io::Error> for Fault {
    fn from(error: io::Error) -> Fault {
        Fault::System(error)
    }
}

impl From<Refusal> for Fault {
    fn from(refusal: Refusal) -> Fault {
        Fault::Refused(refusal.number())
    }
}

impl From<AllocError> for Fault {
    fn from(_refused: AllocError) -> Fault {
        Fault::from(Refusal::NoMemory)
    }
}

impl<T: Drop> From<AllocFailed<T>> for Fault {
    fn from(_refused: AllocFailed<T>) -> Fault {
        Fault::from(Refusal::NoMemory)
    }
}
