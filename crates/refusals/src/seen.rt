// What was refused while a row was carried out.
use crate::faults::{Fault, Mistake};

/// What was refused while a row was carried out.
#[derive(Clone, Copy, Debug, PartialEq, Eq)]
pub(crate) enum Seen {
    /// Nothing.
    Nothing,
    /// Memory for the values with which it begins: they were made anew.
    Values,
    /// A call of it, which had changed nothing, and was made once more.
    Call,
}

impl Seen {
    /// Nothing was refused.
    pub(crate) fn none() -> Seen {
        Seen::Nothing
    }

    /// Notes that a call was refused. Fails where it has changed something.
    pub(crate) fn note_call(&mut self, is_same: bool) -> Result<(), Fault> {
        *self = Seen::Call;
        if is_same {
            Ok(())
        } else {
            Err(Fault::Wrong(Mistake::Changed))
        }
    }

    /// Returns what is told of a row that ended well.
    pub(crate) fn said(self) -> &'static str {
        match self {
            Seen::Nothing => "as it should be",
            Seen::Values => "as it should be, with values that were made anew",
            Seen::Call => "as it should be, with a call that was refused, and made once more",
        }
    }
}

/// Makes a call once more where memory was refused, if what is said to be the same still is. (A macro,
/// as a call takes what it works on by `&mut`, and so does who looks at it.)
macro_rules! again {
    ($seen:expr, $is_same:expr, $call:expr) => {
        match $call {
            Err(Refusal::NoMemory) => {
                $seen.note_call($is_same)?;
                $call
            }
            told => told,
        }
    };
}

/// The same for a view's calls.
macro_rules! viewed_again {
    ($seen:expr, $is_same:expr, $call:expr) => {
        match $call {
            Err(ViewRefusal::Plain(Refusal::NoMemory)) => {
                $seen.note_call($is_same)?;
                $call
            }
            told => told,
        }
    };
}

/// The same for a call that asks a source, also where it is refused as who meets the source's flaw.
macro_rules! asked_again {
    ($seen:expr, $flaw:expr, $is_same:expr, $call:expr) => {
        match $call {
            Err(refusal) => {
                if refusal == Refusal::NoMemory || refusal == $flaw {
                    $seen.note_call($is_same)?;
                    $call
                } else {
                    Err(refusal)
                }
            }
            told => told,
        }
    };
}

/// The same for a view's calls.
macro_rules! view_asked_again {
    ($seen:expr, $flaw:expr, $is_same:expr, $call:expr) => {
        match $call {
            Err(ViewRefusal::Plain(refusal)) => {
                if refusal == Refusal::NoMemory || refusal == $flaw {
                    $seen.note_call($is_same)?;
                    $call
                } else {
                    Err(ViewRefusal::Plain(refusal))
                }
            }
            told => told,
        }
    };
}

pub(crate) use again;
pub(crate) use asked_again;
pub(crate) use view_asked_again;
pub(crate) use viewed_again;
