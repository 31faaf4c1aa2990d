// Operations that are made on trial one after another, and taken back.
ghost use Rattle.std.specs.Prelude.{◌≡◌, ◌⊎◌, ◌++◌, [], ◌∷◌, None, Some, IfErr, OnOk, OnErr};
ghost use Rattle.su_op.specs.Action.{action_by};
ghost use Rattle.su_op.specs.Operation.{why, effect};
ghost use Rattle.su_op.specs.Batch.{action_by as batch_by, effect as batch_effect, first_refusal};
ghost use Rattle.su_desk.specs.Trial.{nothing_ready, tree_of, tree_with_ready};
ghost use Rattle.su_part_tree.specs.Loading.{IsLoadRefusal};
ghost use Rattle.su_stored_desk.specs.Joined.{alone_by, each_alone, AllFit, Fits};

use super::TrialDesk;
use su_block::BlockSource;
use su_bytes::{Format, NEWEST_FORMAT, Refusal, User};
use su_op::{Change, Op};

impl<S: BlockSource> TrialDesk<S> {
    ghost use Rattle.su_stored_desk.specs.Asked.{Asks, IsClear};

    /// Finds whether the operations, made by that author in the newest format one after another,
    /// would all be accepted. They are made on trial and taken back, and so is before what stood
    /// ready. The error is the first refusal that they meet, or that of a load; then what isn't taken
    /// back still stands ready, and what is settled hasn't changed.
    pub fn rehearse(&mut self, author: User, operations: &[Op]) -> Result<(), Refusal>
        ensures accepted { let d = self.old.state.settled in IsClear S.may_give self.new
            → OnOk result (first_refusal d.roster (tree_of d) author NEWEST_FORMAT operations.now
            ≡ None) }
        ensures none_ready { OnOk result (self.new.state ≡ nothing_ready self.old.state.settled) }
        ensures refused { let d = self.old.state.settled in IsClear S.may_give self.new
            → IfErr result (λ e. IsLoadRefusal e
            ⊎ (first_refusal d.roster (tree_of d) author NEWEST_FORMAT operations.now ≡ Some e)) }
        ensures err { OnErr result (self.new.state.settled ≡ self.old.state.settled) }
        ensures asks { Asks S.may_give S.follows self.old self.new }
    {
        self.take_back()?;
        let answer = self.rehearse_on(author, operations);
        self.take_back()?;
        answer
    }

    /// Makes operations by that author in the newest format on trial, one after another, behind what
    /// stands ready. Where one is refused, with the first refusal that they meet or that of a load,
    /// those before it stand ready.
    pub fn rehearse_on(&mut self, author: User, operations: &[Op]) -> Result<(), Refusal>
        ensures accepted { let ro = self.old.state.settled.roster in IsClear S.may_give self.new
            → OnOk result (first_refusal ro (tree_with_ready self.old.state) author NEWEST_FORMAT
            operations.now ≡ None) }
        ensures effect { let ro = self.old.state.settled.roster in IsClear S.may_give self.new
            → OnOk result (tree_with_ready self.new.state
            ≡ batch_effect ro (tree_with_ready self.old.state)
            (batch_by author NEWEST_FORMAT operations.now)) }
        ensures ready { OnOk result (self.new.state.ready
            ≡ self.old.state.ready ++ each_alone author NEWEST_FORMAT operations.now) }
        ensures refused { let ro = self.old.state.settled.roster in IsClear S.may_give self.new
            → IfErr result (λ e. IsLoadRefusal e
            ⊎ (first_refusal ro (tree_with_ready self.old.state) author NEWEST_FORMAT
            operations.now ≡ Some e)) }
        ensures settled { self.new.state.settled ≡ self.old.state.settled }
        ensures asks { Asks S.may_give S.follows self.old self.new }
    {
        self.try_all(NEWEST_FORMAT, author, operations)
    }

    /// Makes operations on trial in that format, which has them, one after another, behind what
    /// stands ready. Those before a refusal, the first that they meet or that of a load, stand ready
    /// then.
    pub(super) fn try_all(
        &mut self,
        format: Format,
        author: User,
        operations: &[Op],
    ) -> Result<(), Refusal>
        requires { AllFit self.old.state format operations.now }
        ensures accepted { let ro = self.old.state.settled.roster in IsClear S.may_give self.new
            → OnOk result (first_refusal ro (tree_with_ready self.old.state) author format
            operations.now ≡ None) }
        ensures effect { let ro = self.old.state.settled.roster in IsClear S.may_give self.new
            → OnOk result (tree_with_ready self.new.state
            ≡ batch_effect ro (tree_with_ready self.old.state)
            (batch_by author format operations.now)) }
        ensures ready { OnOk result (self.new.state.ready
            ≡ self.old.state.ready ++ each_alone author format operations.now) }
        ensures refused { let ro = self.old.state.settled.roster in IsClear S.may_give self.new
            → IfErr result (λ e. IsLoadRefusal e
            ⊎ (first_refusal ro (tree_with_ready self.old.state) author format operations.now
            ≡ Some e)) }
        ensures settled { self.new.state.settled ≡ self.old.state.settled }
        ensures asks { Asks S.may_give S.follows self.old self.new }
    {
        for operation in operations {
            self.try_next(format, author, operation)?;
        }
        Ok(())
    }

    /// Makes an operation on trial in that format, which has it, behind what stands ready. A refusal,
    /// the first in order or that of a load, changes nothing of what stands ready.
    pub(super) fn try_next(
        &mut self,
        format: Format,
        author: User,
        operation: &Op,
    ) -> Result<(), Refusal>
        requires { Fits self.old.state format operation.now }
        ensures accepted { let ro = self.old.state.settled.roster in IsClear S.may_give self.new
            → OnOk result (why ro (tree_with_ready self.old.state)
            (action_by author format operation.now) ≡ None) }
        ensures effect { let ro = self.old.state.settled.roster in IsClear S.may_give self.new
            → OnOk result (tree_with_ready self.new.state
            ≡ effect ro (tree_with_ready self.old.state) (action_by author format operation.now)) }
        ensures ready { OnOk result (self.new.state.ready
            ≡ self.old.state.ready ++ alone_by author format operation.now ∷ []) }
        ensures settled { self.new.state.settled ≡ self.old.state.settled }
        ensures refused { let ro = self.old.state.settled.roster in IsClear S.may_give self.new
            → IfErr result (λ e. IsLoadRefusal e
            ⊎ (why ro (tree_with_ready self.old.state) (action_by author format operation.now)
            ≡ Some e)) }
        ensures err { OnErr result (self.new.state ≡ self.old.state) }
        ensures asks { Asks S.may_give S.follows self.old self.new }
    {
        let change = Change::of(self.desk.alloc, operation.clone()?);
        self.tried.reserve(1)?;
        self.asked = self
            .asked
            .and(self.desk.stored.source(), &self.desk.entries);
        let tried = self.desk.attempt(format, author, change)?;
        self.tried.push_reserved(tried);
        Ok(())
    }
}
