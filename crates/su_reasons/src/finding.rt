// What has to be undone before an operation can be.
ghost use Rattle.std.specs.Prelude.{◌≡◌, ◌⊎◌, ◌≤◌, ◌<◌, ◌++◌, ℕ, List, [], All, Contains, None, Some, map, length, IfOk, OnOk, IfErr, MatchOption};
ghost use Rattle.su_desk.specs.Answer.{live_refusal, refusal_of};
ghost use Rattle.su_desk.specs.Blocker.{blocker};
ghost use Rattle.su_desk.specs.Desk.{with_entry};
ghost use Rattle.su_desk.specs.History.{live};
ghost use Rattle.su_part_tree.specs.Loading.{IsLoadRefusal};
ghost use Rattle.su_reasons.specs.Reasons.{AreReasons, IsInTheWay, IsLive, undo_of, undos_of};
ghost use Rattle.su_stored_desk.specs.Asked.{Asks, IsClear};

use std::alloc::Global;
use su_block::BlockSource;
use su_bytes::{FileId, Refusal, User};
use su_op::Change;
use su_stored_desk::TrialDesk;

/// Finds the operations that have to be undone before that one can be, in an order in which they can
/// be, and undoes them for good on the desk, where nothing stands ready. `authors` are those of its
/// entries. `NoOperation`, `NotOperation`, `AlreadyUndone` where the number isn't that of a live
/// operation; else as a load is refused. (`Blocked` and `NoOperation` also where the desk tells what
/// can't be so, as it may once its store has mixed items up.)
pub fn reasons<S: BlockSource>(
    alloc: Global,
    desk: &mut TrialDesk<S>,
    authors: &[User],
    number: u64,
) -> Result<Vec<u64>, Refusal>
    requires known { authors.now ≡ map (λ e. e.author) desk.old.state.settled.history }
    requires none_ready { desk.old.state.ready ≡ [] }
    ensures reasons { let d = desk.old.state.settled in IsClear S.may_give desk.new
        → IfOk result (λ ms. AreReasons d.roster d.history number ms.items) }
    ensures undone { let d = desk.old.state.settled in IsClear S.may_give desk.new
        → IfOk result (λ ms. desk.new.state.settled
        ≡ record d { history = d.history ++ undos_of d.history ms.items }) }
    ensures still_none_ready { OnOk result (desk.new.state.ready ≡ []) }
    ensures refused { let d = desk.old.state.settled in IsClear S.may_give desk.new
        → IfErr result (λ e. IsLoadRefusal e ⊎ (live_refusal d.history number ≡ Some e)) }
    ensures asks { Asks S.may_give S.follows desk.old desk.new }
{
    // names the type for the prover (docs/ARCHITECTURE.md, "Forms the kit wants")
    let _file: Option<FileId> = None;
    let mut undone = Vec::new(alloc);
    desk.blocker(number)?;
    while let Some(first) = first_in_the_way(desk, number)? {
        if undone.len() >= authors.len() {
            return Err(Refusal::Blocked(first));
        }
        undo(desk, authors, first)?;
        undone.push(first)?;
    }
    Ok(undone)
}

/// Finds an operation that stands in the way of an undo, and that nothing blocks: what blocks it, or
/// what blocks that, and so on, where nothing stands ready. None where the undo isn't blocked. The
/// refusals are those of `TrialDesk::blocker`. (`Blocked` where an operation is told to block one that
/// isn't earlier, as a desk may once its store has mixed items up.)
fn first_in_the_way<S: BlockSource>(
    desk: &TrialDesk<S>,
    number: u64,
) -> Result<Option<u64>, Refusal>
    requires { desk.now.state.ready ≡ [] }
    ensures found { let d = desk.now.state.settled in IsClear S.may_give desk.now
        → IfOk result (λ first.
        MatchOption first (blocker d.roster d.history number ≡ None)
        (λ m. IsInTheWay d.roster d.history number m × (blocker d.roster d.history m ≡ None))) }
    ensures refused { let d = desk.now.state.settled in IsClear S.may_give desk.now
        → IfErr result (λ e. live_refusal d.history number ≡ Some e) }
{
    // names the type for the prover (docs/ARCHITECTURE.md, "Forms the kit wants")
    let _file: Option<FileId> = None;
    let _history = desk.history();
    let mut first = None;
    let mut at = number;
    while let Some(blocker) = desk.blocker(at)? {
        if blocker <= at {
            return Err(Refusal::Blocked(blocker));
        }
        at = blocker;
        first = Some(blocker);
    }
    Ok(first)
}

/// Undoes a live operation that nothing blocks, by its author, where nothing stands ready. `authors`
/// are those of the first entries, that one's among them. Refused as a load is. (`NoOperation` where
/// the author isn't among them, as it may be once the desk's store has mixed items up.)
fn undo<S: BlockSource>(
    desk: &mut TrialDesk<S>,
    authors: &[User],
    number: u64,
) -> Result<(), Refusal>
    requires known { IsClear S.may_give desk.old → (others : List ℕ)
        × (map (λ e. e.author) desk.old.state.settled.history ≡ authors.now ++ others) }
    requires among { IsClear S.may_give desk.old → number ≤ length authors.now }
    requires is_live { IsClear S.may_give desk.old
        → IsLive desk.old.state.settled.history number }
    requires free { let d = desk.old.state.settled in IsClear S.may_give desk.old
        → blocker d.roster d.history number ≡ None }
    requires none_ready { desk.old.state.ready ≡ [] }
    ensures undone { let d = desk.old.state.settled in IsClear S.may_give desk.new
        → OnOk result (desk.new.state.settled ≡ with_entry d (undo_of d.history number)) }
    ensures accepted { let d = desk.old.state.settled in IsClear S.may_give desk.new
        → OnOk result (refusal_of d.roster d.history (undo_of d.history number) ≡ None) }
    // Of the live operations there is one less, and none is new.
    ensures fewer { IsClear S.may_give desk.new
        → OnOk result (length (live desk.new.state.settled.history)
        < length (live desk.old.state.settled.history)) }
    ensures none_new { IsClear S.may_give desk.new
        → OnOk result (All (Contains (live desk.old.state.settled.history))
        (live desk.new.state.settled.history)) }
    ensures still_none_ready { OnOk result (desk.new.state.ready ≡ []) }
    ensures refused { IsClear S.may_give desk.new → IfErr result IsLoadRefusal }
    ensures asks { Asks S.may_give S.follows desk.old desk.new }
{
    let _history = desk.history();
    let index = number.saturating_sub(1) as usize;
    let Some(author) = authors.get(index) else {
        return Err(Refusal::NoOperation(number));
    };
    desk.apply(*author, Change::Undo(number))?;
    Ok(())
}
