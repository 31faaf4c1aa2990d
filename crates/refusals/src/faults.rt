// Why the rows stop.
use std::alloc::{AllocError, AllocFailed};
use std::io;
use su_bytes::{FileId, Principal, Refusal};
use su_view::ViewRefusal;

/// What isn't as a row says.
#[derive(Clone, Copy, Debug, PartialEq, Eq)]
pub(crate) enum Mistake {
    /// A call that was refused, or only looks, has changed something.
    Changed,
    /// A signature is none, or a spent key signs.
    Signature,
    /// Another number of leaves is left.
    Leaves,
    /// A list passes, or doesn't, or is refused otherwise.
    List,
    /// There is no such commit, or it has another number.
    Commit,
    /// Other operations are live.
    Live,
    /// A command is planned, or refused, otherwise.
    Plan,
    /// Other records are published.
    Record,
    /// A book isn't closed as it should be.
    Book,
    /// A session ends otherwise.
    End,
    /// Other messages are asked or answered.
    Message,
    /// Something else is written than replies.
    Reply,
    /// Another number of calls is made, or there is no end of them.
    Calls,
    /// A file has other bytes.
    Content,
    /// Something else is found, or nothing is.
    Found,
    /// Something else is read of a tree.
    Reading,
    /// Something else has to be undone before an operation.
    Reasons,
    /// An item is there, or isn't, otherwise.
    Item,
}

/// Why a row stops.
#[derive(Debug, Drop)]
pub(crate) enum Fault {
    /// Something was refused.
    Refused(Refusal),
    /// A view refused something that it alone refuses.
    View,
    /// A row isn't as it should be.
    Wrong(Mistake),
}

/// Why the program stops.
#[derive(Debug, Drop)]
pub(crate) enum Stop {
    /// The output failed.
    Output(io::Error),
    /// Something was refused, by the number of the refusal; of those of a view alone by 0.
    Refused(u8),
    /// A row isn't as it should be.
    Wrong(Mistake),
}

impl From<io::Error> for Stop {
    fn from(error: io::Error) -> Stop {
        Stop::Output(error)
    }
}

impl From<Fault> for Stop {
    fn from(fault: Fault) -> Stop {
        // names the types for the prover (docs/ARCHITECTURE.md, "Forms the kit wants")
        let _none: (Option<FileId>, Option<Refusal>) = (None, None);
        match fault {
            Fault::Refused(refusal) => Stop::Refused(refusal.number()),
            Fault::View => Stop::Refused(0),
            Fault::Wrong(mistake) => Stop::Wrong(mistake),
        }
    }
}

impl From<Refusal> for Fault {
    fn from(refusal: Refusal) -> Fault {
        Fault::Refused(refusal)
    }
}

impl From<ViewRefusal> for Fault {
    fn from(refusal: ViewRefusal) -> Fault {
        // names the types for the prover (docs/ARCHITECTURE.md, "Forms the kit wants")
        let _none: (Option<Principal>, Option<FileId>) = (None, None);
        match refusal {
            ViewRefusal::Plain(refusal) => Fault::Refused(refusal),
            _ => Fault::View,
        }
    }
}

impl From<AllocError> for Fault {
    fn from(_refused: AllocError) -> Fault {
        Fault::Refused(Refusal::NoMemory)
    }
}

impl<T: Drop> From<AllocFailed<T>> for Fault {
    fn from(_refused: AllocFailed<T>) -> Fault {
        Fault::Refused(Refusal::NoMemory)
    }
}

/// Fails with what isn't as it should be, unless it is.
pub(crate) fn check(is_right: bool, what: Mistake) -> Result<(), Fault> {
    if is_right {
        Ok(())
    } else {
        Err(Fault::Wrong(what))
    }
}
