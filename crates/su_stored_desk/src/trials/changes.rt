// Changes are made on trial, and for good.
ghost use Rattle.std.specs.Prelude.{◌≡◌, ◌⊎◌, [], false, Ok, Err, IfOk, IfErr, OnOk, OnErr};
ghost use Rattle.su_bytes.specs.declared.refusals.Refusal.TheVariants.{NoMemory};
ghost use Rattle.su_desk.specs.Answer.{answer};
ghost use Rattle.su_desk.specs.Desk.{result_of};
ghost use Rattle.su_desk.specs.History.{entry_by, undo_by, last_live};
ghost use Rattle.su_desk.specs.Trial.{ready_with, Tells};
ghost use Rattle.su_op.specs.Action.{is_many};
ghost use Rattle.su_part_tree.specs.Loading.{IsLoadRefusal};
ghost use Rattle.su_stored_desk.specs.Asked.{Answers, Runs};
ghost use Rattle.su_stored_desk.specs.Right.{HasShape};

use super::TrialDesk;
use su_block::BlockSource;
use su_bytes::{Format, NEWEST_FORMAT, Refusal, User};
use su_desk::{DeskReply, Prepared};
use su_op::Change;

impl<S: BlockSource> TrialDesk<S> {
    ghost use Rattle.su_stored_desk.specs.Asked.{Asks, IsClear};

    /// Makes a change in the newest format on trial, and tells what then holds. What stood ready is
    /// taken back before, and stays so where the change is refused: by the first refusal in order,
    /// or as a load is.
    pub fn prepare(&mut self, author: User, change: Change) -> Result<Prepared, Refusal>
        ensures accepted { let d = self.old.state.settled in IsClear S.may_give self.new
            → IfOk result (λ prepared. answer d.roster d.history
            (entry_by author NEWEST_FORMAT change) ≡ Ok prepared.number) }
        ensures told { IsClear S.may_give self.new → IfOk result
            (Tells self.old.state.settled (entry_by author NEWEST_FORMAT change)) }
        ensures shape { IfOk result (HasShape self.old.state.settled.roster) }
        ensures ready { OnOk result (self.new.state
            ≡ ready_with self.old.state.settled (entry_by author NEWEST_FORMAT change)) }
        ensures refused { let d = self.old.state.settled in IsClear S.may_give self.new
            → IfErr result (λ e. IsLoadRefusal e
            ⊎ (answer d.roster d.history (entry_by author NEWEST_FORMAT change) ≡ Err e)) }
        ensures err { OnErr result (self.new.state.settled ≡ self.old.state.settled) }
        ensures asks { Asks S.may_give S.follows self.old self.new }
    {
        self.prepare_as(NEWEST_FORMAT, author, change)
    }

    /// Makes a change in that format on trial, and tells what then holds. What stood ready is taken
    /// back before, and stays so where the change is refused: by the first refusal in order, or as a
    /// load is.
    pub fn prepare_as(
        &mut self,
        format: Format,
        author: User,
        change: Change,
    ) -> Result<Prepared, Refusal>
        ensures accepted { let d = self.old.state.settled in IsClear S.may_give self.new
            → IfOk result (λ prepared. answer d.roster d.history
            (entry_by author format change) ≡ Ok prepared.number) }
        ensures told { IsClear S.may_give self.new
            → IfOk result (Tells self.old.state.settled (entry_by author format change)) }
        ensures shape { IfOk result (HasShape self.old.state.settled.roster) }
        ensures ready { OnOk result (self.new.state
            ≡ ready_with self.old.state.settled (entry_by author format change)) }
        ensures refused { let d = self.old.state.settled in IsClear S.may_give self.new
            → IfErr result (λ e. IsLoadRefusal e
            ⊎ (answer d.roster d.history (entry_by author format change) ≡ Err e)) }
        ensures err { OnErr result (self.new.state.settled ≡ self.old.state.settled) }
        ensures asks { Asks S.may_give S.follows self.old self.new }
    {
        self.take_back()?;
        match change {
            Change::Do(batch) => {
                if batch.count() == 1 {
                    self.prepare_one(format, author, Change::Do(batch))
                } else {
                    self.prepare_batch(format, author, batch)
                }
            }
            change => self.prepare_one(format, author, change),
        }
    }

    /// Makes a change of no more than one operation on trial in that format, and tells what then
    /// holds, where nothing stood ready.
    fn prepare_one(
        &mut self,
        format: Format,
        author: User,
        change: Change,
    ) -> Result<Prepared, Refusal>
        requires one { is_many change ≡ false }
        requires none_ready { self.old.state.ready ≡ [] }
        ensures accepted { let d = self.old.state.settled in IsClear S.may_give self.new
            → IfOk result (λ prepared. answer d.roster d.history
            (entry_by author format change) ≡ Ok prepared.number) }
        ensures told { IsClear S.may_give self.new
            → IfOk result (Tells self.old.state.settled (entry_by author format change)) }
        ensures shape { IfOk result (HasShape self.old.state.settled.roster) }
        ensures ready { OnOk result (self.new.state
            ≡ ready_with self.old.state.settled (entry_by author format change)) }
        ensures refused { let d = self.old.state.settled in IsClear S.may_give self.new
            → IfErr result (λ e. IsLoadRefusal e
            ⊎ (answer d.roster d.history (entry_by author format change) ≡ Err e)) }
        ensures err { OnErr result (self.new.state.settled ≡ self.old.state.settled) }
        ensures asks { Asks S.may_give S.follows self.old self.new }
    {
        self.tried.reserve(1)?;
        self.asked = self
            .asked
            .and(self.desk.stored.source(), &self.desk.entries);
        let tried = self.desk.attempt(format, author, change)?;
        let prepared = self.desk.tell(author, &tried);
        self.tried.push_reserved(tried);
        prepared
    }

    /// Makes a change in the newest format for good, and returns the number of its entry, as
    /// `apply_as` does.
    pub fn apply(&mut self, author: User, change: Change) -> Result<u64, Refusal>
        ensures answered { IsClear S.may_give self.new → Answers self.old.state.settled
            (entry_by author NEWEST_FORMAT change) result self.new.state.settled }
        ensures none_ready { OnOk result (self.new.state.ready ≡ []) }
        ensures asks { Asks S.may_give S.follows self.old self.new }
    {
        self.apply_as(NEWEST_FORMAT, author, change)
    }

    /// Makes a change in that format for good: prepares it, and settles it. What stood ready is taken
    /// back before; a refusal changes nothing that is settled: `OldFormat` where the format is older
    /// than that of the last entry, or has no such change; the first one in the order of the change;
    /// or as a load is refused.
    pub fn apply_as(&mut self, format: Format, author: User, change: Change) -> Result<u64, Refusal>
        ensures answered { IsClear S.may_give self.new → Answers self.old.state.settled
            (entry_by author format change) result self.new.state.settled }
        ensures none_ready { OnOk result (self.new.state.ready ≡ []) }
        ensures asks { Asks S.may_give S.follows self.old self.new }
    {
        let prepared = self.prepare_as(format, author, change)?;
        Ok(self.settle(prepared))
    }

    /// Undoes the last live operation, in the newest format. Fails with `NoOperation` of 0 where
    /// there is none.
    pub fn undo_last(&mut self, author: User) -> Result<u64, Refusal>
        ensures answered { let d = self.old.state.settled in IsClear S.may_give self.new
            → Answers d (undo_by author NEWEST_FORMAT (last_live d.history)) result
            self.new.state.settled }
        ensures none_ready { OnOk result (self.new.state.ready ≡ []) }
        ensures asks { Asks S.may_give S.follows self.old self.new }
    {
        self.undo_last_as(NEWEST_FORMAT, author)
    }

    /// Undoes the last live operation in that format, as `apply_as` does. Fails with `NoOperation`
    /// of 0 where there is none.
    pub fn undo_last_as(&mut self, format: Format, author: User) -> Result<u64, Refusal>
        ensures answered { let d = self.old.state.settled in IsClear S.may_give self.new
            → Answers d (undo_by author format (last_live d.history)) result
            self.new.state.settled }
        ensures none_ready { OnOk result (self.new.state.ready ≡ []) }
        ensures asks { Asks S.may_give S.follows self.old self.new }
    {
        self.take_back()?;
        let number = self.desk.last();
        self.apply_as(format, author, Change::Undo(number))
    }

    /// Makes the changes one after another in the newest format, and returns a reply to each. Fails
    /// only with `NoMemory`, where there is no room for the replies, and then nothing is changed;
    /// what can't be loaded for a single change, or want of memory for it, is the reply to it.
    pub fn run(&mut self, changes: &[(User, Change)]) -> Result<Vec<DeskReply>, Refusal>
        ensures replies { IsClear S.may_give self.new → IfOk result (λ r.
            Runs self.old.state.settled changes.now r.items self.new.state.settled) }
        ensures refused { IfErr result (λ e. e ≡ NoMemory) }
        ensures err { OnErr result (self.new ≡ self.old) }
        ensures asks { Asks S.may_give S.follows self.old self.new }
    {
        let mut replies = Vec::with_capacity(self.desk.alloc, changes.len())?;
        for change in changes {
            let reply = self.reply(change);
            replies.push_reserved(reply);
        }
        Ok(replies)
    }

    /// Makes one of several changes in the newest format, and returns the reply to it.
    fn reply(&mut self, change: &(User, Change)) -> DeskReply
        ensures answered { IsClear S.may_give self.new → Answers self.old.state.settled
            (entry_by change.now.0 NEWEST_FORMAT change.now.1) (result_of result)
            self.new.state.settled }
        ensures asks { Asks S.may_give S.follows self.old self.new }
    {
        let Ok(copy) = change.1.clone() else {
            return DeskReply::Refused(Refusal::NoMemory);
        };
        match self.apply(change.0, copy) {
            Ok(number) => DeskReply::Done(number),
            Err(refusal) => DeskReply::Refused(refusal),
        }
    }
}
