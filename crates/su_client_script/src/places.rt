// Where a part stands in its command.
ghost use Rattle.std.specs.Prelude.{◌≡◌, false};
ghost use Rattle.su_client_script.specs.Step.{is_after_take, is_first};

use su_op::{Batch, Op};

/// Where a part stands in its command, of which it may be the only one.
#[derive(Clone, Copy)]
pub(crate) enum Place {
    /// It is the first one, for which the turn is held.
    First,
    /// It comes behind others, and takes a turn of its own.
    Later,
    /// So it does, and one of them has a take.
    AfterTake,
}

impl Place {
    /// Returns where the part stands that follows this one.
    pub(crate) fn after(self, part: &Batch) -> Place
        ensures { is_first result ≡ false }
    {
        match self {
            Place::First | Place::Later if !has_take(part) => Place::Later,
            _ => Place::AfterTake,
        }
    }

    /// Tells whether it is the first one.
    pub(crate) fn is_first(self) -> bool
        ensures { result ≡ is_first self }
    {
        matches!(self, Place::First)
    }

    /// Tells whether a part before it has a take.
    pub(crate) fn is_after_take(self) -> bool
        ensures { result ≡ is_after_take self }
    {
        matches!(self, Place::AfterTake)
    }
}

/// Tells whether one of its operations is a take.
fn has_take(part: &Batch) -> bool {
    let (first, more) = part.parts();
    matches!(first, Op::Take(_))
        || more
            .iter()
            .any(|operation| matches!(operation, Op::Take(_)))
}
