// Operations are accepted or refused, and what they need is loaded.
ghost use Rattle.std.specs.Prelude.{◌≡◌, Some, None};
ghost use Rattle.su_op.specs.Action.{action_by};
ghost use Rattle.su_op.specs.Operation.{why};
ghost use Rattle.su_perform.specs.Found.{Found};
ghost use Rattle.su_perform.specs.Loaded.{HasAreas};
ghost use Rattle.su_reading.specs.Reading.{Finds, Inquiry};

use crate::stored::StoredForest;
use std::alloc::Global;
use su_block::BlockSource;
use su_bytes::{Format, Refusal, Roster, User};
use su_op::{Area, Op};
use su_perform::{Accepted, fetch};

impl<S: BlockSource> StoredForest<S> {
    ghost use Rattle.su_stored_forest.specs.Shows.{Shows, Fails, Follows};

    /// Checks whether an operation by that author, made in that format, is accepted: loads what its
    /// check asks for, and says what that found. Refused by the first refusal of the check, or as a
    /// load is.
    pub fn accept<'a>(
        &mut self,
        alloc: Global,
        op: &'a Op,
        roster: &Roster,
        author: User,
        format: Format,
    ) -> Result<Accepted<'a>, Refusal>
        ensures finds { Inquiry (Shows S.may_give) (Fails S.failed) (Follows S.may_give S.follows)
            self.old self.new result
            (λ T x. (why roster.now T (action_by author format op.now) ≡ None)
            × Found T author op.now x)
            (λ T e. why roster.now T (action_by author format op.now) ≡ Some e) }
    {
        Accepted::load(
            alloc,
            op,
            &mut self.forest,
            roster,
            author,
            format,
            &mut self.source,
        )
    }

    /// Loads what stands in areas.
    pub fn load(&mut self, areas: &[Area]) -> Result<(), Refusal>
        ensures finds { Finds (Shows S.may_give) (Fails S.failed) (Follows S.may_give S.follows)
            self.old self.new result (λ T x. HasAreas T self.new.forest areas.now) }
    {
        fetch(&mut self.forest, areas, &mut self.source)
    }
}
