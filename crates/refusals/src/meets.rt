// What a call of a row is refused with once.
use crate::faults::{Fault, Mistake, check};
use crate::seen::Seen;
use su_bytes::{FileId, Refusal};

/// What one call of a row is refused with at most, and whether one was.
#[derive(Clone, Copy, Debug)]
pub(crate) struct Meets {
    refusal: Refusal,
    seen: Seen,
}

impl Meets {
    /// One call is refused with this.
    pub(crate) fn once(refusal: Refusal) -> Meets {
        Meets {
            refusal,
            seen: Seen::none(),
        }
    }

    /// Tells whether a call was refused with it.
    pub(crate) fn is_met<T>(&self, told: &Result<T, Refusal>) -> bool {
        // names the types for the prover (docs/ARCHITECTURE.md, "Forms the kit wants")
        let _none: (Option<FileId>, Option<Refusal>) = (None, None);
        match told {
            Err(refusal) => *refusal == self.refusal,
            Ok(_) => false,
        }
    }

    /// Tells whether it is want of memory.
    pub(crate) fn is_of_memory(&self) -> bool {
        // names the types for the prover (docs/ARCHITECTURE.md, "Forms the kit wants")
        let _none: (Option<FileId>, Option<Refusal>) = (None, None);
        self.refusal == Refusal::NoMemory
    }

    /// Notes that a call was. Fails where it has changed something.
    pub(crate) fn note(&mut self, is_same: bool) -> Result<(), Fault> {
        self.seen.note_call(is_same)
    }

    /// Returns what was refused.
    pub(crate) fn seen(&self) -> Seen {
        self.seen
    }

    /// Tells whether nothing was. Fails where a source failed so often and no call was refused, or a
    /// call was and none failed.
    pub(crate) fn is_over(&self, failures: u64) -> Result<bool, Fault> {
        // names the types for the prover (docs/ARCHITECTURE.md, "Forms the kit wants")
        let _none: (Option<FileId>, Option<Refusal>) = (None, None);
        let is_over = self.seen == Seen::Nothing;
        check(is_over == (failures == 0), Mistake::Calls)?;
        Ok(is_over)
    }
}

/// Makes a call once more where it is refused with what the row meets, if what is said to be the same
/// still is. (A macro, as a call takes what it works on by `&mut`, and so does who looks at it.)
macro_rules! once_more {
    ($meets:expr, $is_same:expr, $call:expr) => {{
        let told = $call;
        if $meets.is_met(&told) {
            $meets.note($is_same)?;
            $call
        } else {
            told
        }
    }};
}

pub(crate) use once_more;
