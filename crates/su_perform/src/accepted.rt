// The accepted operations by cases.
ghost use Rattle.std.specs.Prelude.{◌≡◌, ◌⊎◌, ℕ, List, true, Some, None, IfOk, IfErr, OnOk, OnErr};
ghost use Rattle.su_table.specs.Edit.{edits};
ghost use Rattle.su_table.specs.Tree.{Tree};
ghost use Rattle.su_op.specs.Action.{action_by};
ghost use Rattle.su_op.specs.Operation.{rule_by_user, why};
ghost use Rattle.su_op.specs.Rule.{plan_reads, plan_writes, refusal};
ghost use Rattle.su_part.specs.Bytes.{NoneClash};
ghost use Rattle.su_part.specs.Loads.{FailedAt};
ghost use Rattle.su_part_tree.specs.Loading.{IsLoadRefusal};
ghost use Rattle.su_part_forest.specs.Forest.{IsSound, Stands};
ghost use Rattle.su_part_forest.specs.Loading.{HashedFor, KeepsLoaded};
ghost use Rattle.su_part_forest.specs.Seen.{seen};
ghost use Rattle.su_perform.specs.Accepted.{FitsIn, planned};
ghost use Rattle.su_perform.specs.Found.{Found};
ghost use Rattle.su_perform.specs.Loaded.{HasAreas};
ghost use Rattle.su_bytes.specs.declared.refusals.Refusal.TheVariants.{MissingBlock, NoMemory};

use crate::create::AcceptedCreate;
use crate::drop_body::AcceptedDrop;
use crate::link::AcceptedLink;
use crate::loading::load_asked;
use crate::rename::AcceptedRename;
use crate::take::AcceptedTake;
use crate::truncate::AcceptedTruncate;
use crate::unlink::AcceptedUnlink;
use crate::write::AcceptedWrite;
use std::alloc::Global;
use su_block::BlockSource;
use su_bytes::{Format, Refusal, Roster, User};
use su_op::{Footprint, Op};
use su_part_forest::PartForest;

/// An operation that its check accepted, with what the check found, so that nothing is looked up
/// again.
#[derive(Clone, Copy)]
pub enum Accepted<'a> {
    Create(AcceptedCreate<'a>),
    Unlink(AcceptedUnlink<'a>),
    Write(AcceptedWrite<'a>),
    Truncate(AcceptedTruncate<'a>),
    Take(AcceptedTake<'a>),
    Link(AcceptedLink<'a>),
    Rename(AcceptedRename<'a>),
    Drop(AcceptedDrop<'a>),
}

impl<'a> Accepted<'a> {
    /// Loads what the check of an operation by that author asks for, and checks whether the
    /// operation, made in that format, is accepted. Refused by the source, for want of memory or
    /// with `Malformed(0)` where an item spells nothing that belongs there, as `fetch` is; and then
    /// by the first refusal of the check. A failure of the source is about an item of the tree. What
    /// was loaded is loaded.
    pub fn load<S: BlockSource>(
        alloc: Global,
        op: &'a Op,
        forest: &mut PartForest,
        roster: &Roster,
        author: User,
        format: Format,
        source: &mut S,
    ) -> Result<Accepted<'a>, Refusal>
        requires { S.is_checked ≡ true }
        ensures stands { (T : Tree) → Stands forest.old T
            → NoneClash (HashedFor T) (S.may_give source.old) → Stands forest.new T }
        ensures accepted { (T : Tree) → Stands forest.old T
            → NoneClash (HashedFor T) (S.may_give source.old)
            → OnOk result (why roster.now T (action_by author format op.now) ≡ None) }
        ensures found { (T : Tree) → Stands forest.old T
            → NoneClash (HashedFor T) (S.may_give source.old)
            → IfOk result (Found T author op.now) }
        ensures refused { (T : Tree) → Stands forest.old T
            → NoneClash (HashedFor T) (S.may_give source.old) → IfErr result (λ e.
            IsLoadRefusal e ⊎ (why roster.now T (action_by author format op.now) ≡ Some e)) }
        ensures failed { (T : Tree) → Stands forest.old T
            → NoneClash (HashedFor T) (S.may_give source.old) → IfErr result (λ e.
            FailedAt (HashedFor T) (S.failed source.new) e
            ⊎ (why roster.now T (action_by author format op.now) ≡ Some e)) }
        ensures keeps { KeepsLoaded forest.old forest.new }
        ensures no_more { (i : List ℕ) → S.may_give source.new i → S.may_give source.old i }
        ensures follows { S.follows source.old source.new }
    {
        // no `?`, for the prover (docs/ARCHITECTURE.md, "Forms the kit wants")
        match load_asked(alloc, forest, author, op, source) {
            Ok(()) => Accepted::check(op, forest, roster, author, format),
            Err(refusal) => Err(refusal),
        }
    }

    #[tactic(auto, unfolding(su_op::specs::Operation::why))]
    /// Checks whether an operation by that author, made in that format, is accepted in what is
    /// loaded. The error is the first refusal. Takes no memory.
    pub fn check(
        op: &'a Op,
        forest: &PartForest,
        roster: &Roster,
        author: User,
        format: Format,
    ) -> Result<Accepted<'a>, Refusal>
        ensures accepted { IsSound forest.now → OnOk result
            (why roster.now (seen forest.now) (action_by author format op.now) ≡ None) }
        ensures found { IsSound forest.now → IfOk result (Found (seen forest.now) author op.now) }
        ensures refused { IsSound forest.now → IfErr result (λ e.
            why roster.now (seen forest.now) (action_by author format op.now) ≡ Some e) }
    {
        if !roster.has_user(author) {
            return Err(Refusal::NoUser(author));
        }
        Accepted::check_by_user(op, forest, roster, author, format)
    }

    /// Checks an operation by one of the users.
    fn check_by_user(
        op: &'a Op,
        forest: &PartForest,
        roster: &Roster,
        author: User,
        format: Format,
    ) -> Result<Accepted<'a>, Refusal>
        ensures accepted { IsSound forest.now → OnOk result
            (refusal (rule_by_user roster.now (seen forest.now)
            (action_by author format op.now) op.now) ≡ None) }
        ensures found { IsSound forest.now → IfOk result (Found (seen forest.now) author op.now) }
        ensures refused { IsSound forest.now → IfErr result (λ e.
            refusal (rule_by_user roster.now (seen forest.now)
            (action_by author format op.now) op.now) ≡ Some e) }
    {
        // no `?`, for the prover (docs/ARCHITECTURE.md, "Forms the kit wants")
        match op {
            Op::Create(create) => match AcceptedCreate::check(create, forest, roster, author) {
                Ok(accepted) => Ok(Accepted::Create(accepted)),
                Err(refusal) => Err(refusal),
            },
            Op::Unlink(unlink) => match AcceptedUnlink::check(unlink, forest, roster, author) {
                Ok(accepted) => Ok(Accepted::Unlink(accepted)),
                Err(refusal) => Err(refusal),
            },
            Op::Write(write) => match AcceptedWrite::check(write, forest, roster, author, format) {
                Ok(accepted) => Ok(Accepted::Write(accepted)),
                Err(refusal) => Err(refusal),
            },
            Op::Truncate(truncate) => {
                match AcceptedTruncate::check(truncate, forest, roster, author, format) {
                    Ok(accepted) => Ok(Accepted::Truncate(accepted)),
                    Err(refusal) => Err(refusal),
                }
            }
            Op::Take(take) => match AcceptedTake::check(take, forest, roster, author) {
                Ok(accepted) => Ok(Accepted::Take(accepted)),
                Err(refusal) => Err(refusal),
            },
            Op::Link(link) => match AcceptedLink::check(link, forest, roster, author) {
                Ok(accepted) => Ok(Accepted::Link(accepted)),
                Err(refusal) => Err(refusal),
            },
            Op::Rename(rename) => match AcceptedRename::check(rename, forest, roster, author) {
                Ok(accepted) => Ok(Accepted::Rename(accepted)),
                Err(refusal) => Err(refusal),
            },
            Op::Drop(dropped) => match AcceptedDrop::check(dropped, forest, author) {
                Ok(accepted) => Ok(Accepted::Drop(accepted)),
                Err(refusal) => Err(refusal),
            },
        }
    }

    /// Returns the cells that it reads, and those that it writes. Fails only with `NoMemory`.
    pub fn footprint(&self, alloc: Global) -> Result<Footprint, Refusal>
        ensures reads { IfOk result (λ f.
            (T : Tree) → f.reads.items ≡ plan_reads (planned T self.now)) }
        ensures writes { IfOk result (λ f.
            (T : Tree) → f.writes.items ≡ plan_writes (planned T self.now)) }
        ensures refused { IfErr result (λ e. e ≡ NoMemory) }
    {
        match self {
            Accepted::Create(create) => create.footprint(alloc),
            Accepted::Unlink(unlink) => unlink.footprint(alloc),
            Accepted::Write(write) => write.footprint(alloc),
            Accepted::Truncate(truncate) => truncate.footprint(alloc),
            Accepted::Take(take) => take.footprint(alloc),
            Accepted::Link(link) => link.footprint(alloc),
            Accepted::Rename(rename) => rename.footprint(alloc),
            Accepted::Drop(dropped) => dropped.footprint(alloc),
        }
    }

    /// Performs the operation, on a forest of which what it reads is loaded, and which stands for a
    /// tree where what its check found still holds. Refused with `MissingBlock` where what it
    /// writes isn't loaded, and with `NoMemory` where memory is wanting; then the forest stands for
    /// what it stood for.
    pub fn perform(&self, forest: &mut PartForest) -> Result<(), Refusal>
        ensures ok { (T : Tree) → Stands forest.old T → FitsIn T self.now
            → HasAreas T forest.old (plan_reads (planned T self.now))
            → OnOk result (Stands forest.new (edits T (planned T self.now).edits)) }
        ensures refused { IfErr result (λ e. (e ≡ NoMemory) ⊎ (e ≡ MissingBlock)) }
        ensures loaded { (T : Tree) → Stands forest.old T → FitsIn T self.now
            → HasAreas T forest.old (plan_reads (planned T self.now))
            → IfErr result (λ e. e ≡ NoMemory) }
        ensures err { (T : Tree) → Stands forest.old T → FitsIn T self.now
            → HasAreas T forest.old (plan_reads (planned T self.now))
            → OnErr result (Stands forest.new T) }
    {
        match self {
            Accepted::Create(create) => create.perform(forest),
            Accepted::Unlink(unlink) => {
                unlink.perform(forest);
                Ok(())
            }
            Accepted::Write(write) => write.perform(forest),
            Accepted::Truncate(truncate) => truncate.perform(forest),
            Accepted::Take(take) => take.perform(forest),
            Accepted::Link(link) => link.perform(forest),
            Accepted::Rename(rename) => rename.perform(forest),
            Accepted::Drop(dropped) => {
                dropped.perform(forest);
                Ok(())
            }
        }
    }
}
