// A batch is made on trial: its operations one by one, which are then joined.
ghost use Rattle.std.specs.Prelude.{◌≡◌, ◌⊎◌, ℕ, List, [], ◌∷◌, true, None, Some, Ok, Err, IfOk, IfErr, OnOk, OnErr};
ghost use Rattle.su_bytes.specs.declared.formats.Format.{Format as TheFormat};
ghost use Rattle.su_op.specs.declared.operations.Op.{Op as TheOp};
ghost use Rattle.su_bytes.specs.declared.refusals.Refusal.TheVariants.{NoMemory};
ghost use Rattle.su_op.specs.Action.{is_many};
ghost use Rattle.su_op.specs.Batch.{first_refusal};
ghost use Rattle.su_op.specs.declared.operations.Change.TheVariants.{Do};
ghost use Rattle.su_desk.specs.declared.entries.Entry.{Entry as TheEntry};
ghost use Rattle.su_desk.specs.Answer.{answer, format_refusal};
ghost use Rattle.su_desk.specs.History.{entry_by};
ghost use Rattle.su_desk.specs.Trial.{nothing_ready, ready_with, tree_of, Tells};
ghost use Rattle.su_part_tree.specs.Loading.{IsLoadRefusal};
ghost use Rattle.su_stored_desk.specs.Joined.{each_alone, IsJoined, IsKeptBefore};
ghost use Rattle.su_stored_desk.specs.Right.{HasShape};

use super::TrialDesk;
use su_block::BlockSource;
use su_bytes::{Format, Refusal, User};
use su_desk::{Entry, Prepared};
use su_op::{Batch, Change, Footprint};
use su_part_inverse::Inverse;

impl<S: BlockSource> TrialDesk<S> {
    ghost use Rattle.su_stored_desk.specs.Asked.{Asks, IsClear};

    /// Makes a batch of more than one operation on trial in that format, and tells what then holds.
    /// Nothing stood ready; where the batch is refused, what isn't taken back still does.
    pub(super) fn prepare_batch(
        &mut self,
        format: Format,
        author: User,
        batch: Batch,
    ) -> Result<Prepared, Refusal>
        requires many { is_many (Do batch) ≡ true }
        requires none_ready { self.old.state.ready ≡ [] }
        ensures accepted { let d = self.old.state.settled in IsClear S.may_give self.new
            → IfOk result (λ prepared. answer d.roster d.history
            (entry_by author format (Do batch)) ≡ Ok prepared.number) }
        ensures told { IsClear S.may_give self.new
            → IfOk result (Tells self.old.state.settled (entry_by author format (Do batch))) }
        ensures shape { IfOk result (HasShape self.old.state.settled.roster) }
        ensures ready { OnOk result (self.new.state
            ≡ ready_with self.old.state.settled (entry_by author format (Do batch))) }
        ensures refused { let d = self.old.state.settled in IsClear S.may_give self.new
            → IfErr result (λ e. IsLoadRefusal e
            ⊎ (answer d.roster d.history (entry_by author format (Do batch)) ≡ Err e)) }
        ensures err { OnErr result (self.new.state.settled ≡ self.old.state.settled) }
        ensures asks { Asks S.may_give S.follows self.old self.new }
    {
        if let Some(refusal) = self.desk.format_refusal(format, batch.oldest_format()) {
            return Err(refusal);
        }
        let footprint = self.footprint_of(format, author, &batch)?;
        let inverse = self.keep_settled(&footprint)?;
        self.try_batch(format, author, &batch)?;
        self.join(format, author, batch, footprint, inverse)?;
        self.tell_last(author)
    }

    /// Returns the cells of a batch in that format, which has it, where nothing stands ready: its
    /// operations are made on trial and taken back. The error is the first refusal that they meet,
    /// or that of a load; then what isn't taken back still stands ready.
    fn footprint_of(
        &mut self,
        format: Format,
        author: User,
        batch: &Batch,
    ) -> Result<Footprint, Refusal>
        requires fits { format_refusal self.old.state.settled.history format (Do batch.now) ≡ None }
        requires many { is_many (Do batch.now) ≡ true }
        requires none_ready { self.old.state.ready ≡ [] }
        ensures accepted { let d = self.old.state.settled in IsClear S.may_give self.new
            → OnOk result (first_refusal d.roster (tree_of d) author format batch.now ≡ None) }
        ensures joined { IsClear S.may_give self.new
            → IfOk result (IsJoined self.old.state.settled author format batch.now) }
        ensures none_ready { OnOk result (self.new.state ≡ nothing_ready self.old.state.settled) }
        ensures refused { let d = self.old.state.settled in IsClear S.may_give self.new
            → IfErr result (λ e. IsLoadRefusal e
            ⊎ (first_refusal d.roster (tree_of d) author format batch.now ≡ Some e)) }
        ensures err { self.new.state.settled ≡ self.old.state.settled }
        ensures asks { Asks S.may_give S.follows self.old self.new }
    {
        let answer = match self.try_batch(format, author, batch) {
            Ok(()) => self.desk.joined(batch.count()),
            Err(refusal) => Err(refusal),
        };
        self.take_back()?;
        answer
    }

    /// Keeps what the cells hold that a batch writes, where nothing stands ready. Refused as a load is.
    fn keep_settled(&mut self, footprint: &Footprint) -> Result<Inverse, Refusal>
        requires { self.old.state.ready ≡ [] }
        ensures kept { let d = self.old.state.settled in (a : ℕ) (f : TheFormat) (ops : List TheOp)
            → IsClear S.may_give self.new → is_many (Do ops) ≡ true
            → first_refusal d.roster (tree_of d) a f ops ≡ None → IsJoined d a f ops footprint.now
            → IfOk result (IsKeptBefore d footprint.now) }
        ensures state { self.new.state ≡ self.old.state }
        ensures refused { IsClear S.may_give self.new → IfErr result IsLoadRefusal }
        ensures asks { Asks S.may_give S.follows self.old self.new }
    {
        self.asked = self
            .asked
            .and(self.desk.stored.source(), &self.desk.entries);
        self.desk.keep_whole(footprint.writes.as_slice())
    }

    /// Makes the operations of a batch on trial one by one, in that format, which has the batch,
    /// where nothing stands ready. Those before a refusal stand ready then.
    fn try_batch(&mut self, format: Format, author: User, batch: &Batch) -> Result<(), Refusal>
        requires fits { format_refusal self.old.state.settled.history format (Do batch.now) ≡ None }
        requires many { is_many (Do batch.now) ≡ true }
        requires none_ready { self.old.state.ready ≡ [] }
        ensures accepted { let d = self.old.state.settled in IsClear S.may_give self.new
            → OnOk result (first_refusal d.roster (tree_of d) author format batch.now ≡ None) }
        ensures ready { OnOk result (self.new.state.ready ≡ each_alone author format batch.now) }
        ensures refused { let d = self.old.state.settled in IsClear S.may_give self.new
            → IfErr result (λ e. IsLoadRefusal e
            ⊎ (first_refusal d.roster (tree_of d) author format batch.now ≡ Some e)) }
        ensures settled { self.new.state.settled ≡ self.old.state.settled }
        ensures asks { Asks S.may_give S.follows self.old self.new }
    {
        let (first, more) = batch.parts();
        self.try_next(format, author, first)?;
        self.try_all(format, author, more)
    }

    /// Joins what stands ready, the operations of a batch one by one, into the entry of the batch.
    /// Fails only with `NoMemory`, and then changes nothing.
    fn join(
        &mut self,
        format: Format,
        author: User,
        batch: Batch,
        footprint: Footprint,
        inverse: Inverse,
    ) -> Result<(), Refusal>
        requires fits { format_refusal self.old.state.settled.history format (Do batch) ≡ None }
        requires many { is_many (Do batch) ≡ true }
        requires ready { self.old.state.ready ≡ each_alone author format batch }
        requires joined { IsClear S.may_give self.old
            → IsJoined self.old.state.settled author format batch footprint }
        requires kept { IsClear S.may_give self.old
            → IsKeptBefore self.old.state.settled footprint inverse }
        ensures done { OnOk result (self.new.state
            ≡ ready_with self.old.state.settled (entry_by author format (Do batch))) }
        ensures asked { self.new.asked ≡ self.old.asked }
        ensures source { self.new.source ≡ self.old.source }
        ensures refused { IfErr result (λ e. e ≡ NoMemory) }
        ensures err { OnErr result (self.new.state ≡ self.old.state) }
    {
        let count = batch.count();
        let entry = Entry {
            author,
            format,
            change: Change::Do(batch),
        };
        let Some(first) = self.tried.first() else {
            unreachable!()
        };
        let numbers = first.versions.as_slice();
        self.desk.join(numbers, entry, count, footprint, inverse)?;
        self.tried.truncate(1);
        Ok(())
    }

    /// Tells what holds with the one entry that stands ready, a change of that author. Fails only
    /// with `NoMemory`.
    fn tell_last(&self, author: User) -> Result<Prepared, Refusal>
        requires { (e : TheEntry) × (e.author ≡ author) × (self.now.state.ready ≡ e ∷ []) }
        ensures told { IsClear S.may_give self.now → IfOk result (λ prepared.
            (e : TheEntry) → self.now.state.ready ≡ e ∷ []
            → Tells self.now.state.settled e prepared) }
        ensures shape { IfOk result (HasShape self.now.state.settled.roster) }
        ensures refused { IfErr result (λ e. e ≡ NoMemory) }
    {
        self.desk.tell(author, &self.tried[0])
    }
}
