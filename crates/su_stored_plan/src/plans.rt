// The plan of a command, and of several, and the file of a path, on a tree that may lie on a store.
ghost use Rattle.std.specs.Prelude.{◌≡◌, ◌⊎◌, None, Some, Ok, Err, IfOk, IfErr, OnOk, OnErr};
ghost use Rattle.su_desk.specs.Trial.{nothing_ready, tree_of, tree_with_ready};
ghost use Rattle.su_draft.specs.Command.{draft};
ghost use Rattle.su_draft.specs.Walk.{found};
ghost use Rattle.su_op.specs.Batch.{action_by, effect, first_refusal};
ghost use Rattle.su_part_tree.specs.Loading.{IsLoadRefusal};
ghost use Rattle.su_plan.specs.Plan.{plan, plan_all};
ghost use Rattle.su_stored_desk.specs.Asked.{Asks, IsClear};

use std::alloc::Global;
use su_block::BlockSource;
use su_bytes::{FileId, NEWEST_FORMAT, Refusal, User};
use su_draft::Command;
use su_op::Op;
use su_read_draft::draft_of_member;
use su_stored_desk::TrialDesk;

/// Plans a command: returns operations by the user that carry it out, each of which is accepted,
/// in the newest format, after those before it. What stands ready on the desk is taken back before,
/// and nothing is settled.
///
/// The first refusal in order: those of `su_draft::Command::draft`; then the first refusal that the
/// operations meet. Or as a load is refused.
#[tactic(auto, unfolding(su_plan::specs::Plan::plan))]
pub fn plan<S: BlockSource>(
    alloc: Global,
    desk: &mut TrialDesk<S>,
    user: User,
    command: &Command,
) -> Result<Vec<Op>, Refusal>
    ensures planned { let d = desk.old.state.settled in IsClear S.may_give desk.new
        → IfOk result (λ operations.
        plan d.roster (tree_of d) user command.now ≡ Ok operations.items) }
    ensures accepted { let d = desk.old.state.settled in IsClear S.may_give desk.new
        → IfOk result (λ operations.
        first_refusal d.roster (tree_of d) user NEWEST_FORMAT operations.items ≡ None) }
    ensures none_ready { OnOk result (desk.new.state ≡ nothing_ready desk.old.state.settled) }
    ensures refused { let d = desk.old.state.settled in IsClear S.may_give desk.new
        → IfErr result (λ e. IsLoadRefusal e
        ⊎ (plan d.roster (tree_of d) user command.now ≡ Err e)) }
    ensures err { OnErr result (desk.new.state.settled ≡ desk.old.state.settled) }
    ensures asks { Asks S.may_give S.follows desk.old desk.new }
{
    desk.take_back()?;
    let operations = draft_ready(alloc, desk, user, command)?;
    desk.rehearse(user, operations.as_slice())?;
    Ok(operations)
}

/// Drafts a command on the tree with what stands ready. Refused as `su_draft::Command::draft` is, or
/// as a load is.
fn draft_ready<S: BlockSource>(
    alloc: Global,
    desk: &mut TrialDesk<S>,
    user: User,
    command: &Command,
) -> Result<Vec<Op>, Refusal>
    ensures drafted { let d = desk.old.state in IsClear S.may_give desk.new
        → IfOk result (λ operations.
        draft d.settled.roster (tree_with_ready d) user command.now ≡ Ok operations.items) }
    ensures refused { let d = desk.old.state in IsClear S.may_give desk.new
        → IfErr result (λ e. IsLoadRefusal e
        ⊎ (draft d.settled.roster (tree_with_ready d) user command.now ≡ Err e)) }
    ensures state { desk.new.state ≡ desk.old.state }
    ensures asks { Asks S.may_give S.follows desk.old desk.new }
{
    if !desk.roster().has_user(user) {
        return Err(Refusal::NoUser(user));
    }
    desk.note_asked();
    draft_of_member(command, alloc, desk, user)
}

/// Plans commands one after another, as one: returns operations by the user that carry out the first,
/// and behind them those that carry out each other command on the tree that the operations before
/// them leave. Each is accepted, in the newest format, after those before it. What stands ready on
/// the desk is taken back before, and nothing is settled. The refusals are those of `plan`, of the
/// first command that meets one.
pub fn plan_all<S: BlockSource>(
    alloc: Global,
    desk: &mut TrialDesk<S>,
    user: User,
    commands: &[Command],
) -> Result<Vec<Op>, Refusal>
    ensures planned { let d = desk.old.state.settled in IsClear S.may_give desk.new
        → IfOk result (λ operations.
        plan_all d.roster (tree_of d) user commands.now ≡ Ok operations.items) }
    ensures none_ready { OnOk result (desk.new.state ≡ nothing_ready desk.old.state.settled) }
    ensures refused { let d = desk.old.state.settled in IsClear S.may_give desk.new
        → IfErr result (λ e. IsLoadRefusal e
        ⊎ (plan_all d.roster (tree_of d) user commands.now ≡ Err e)) }
    ensures err { OnErr result (desk.new.state.settled ≡ desk.old.state.settled) }
    ensures asks { Asks S.may_give S.follows desk.old desk.new }
{
    desk.take_back()?;
    let planned = plan_on(alloc, desk, user, commands)?;
    desk.take_back()?;
    Ok(planned)
}

/// Plans commands one after another on the tree with what stands ready, behind which their
/// operations stand ready then. Refused as `plan_all` is: then what isn't taken back stands ready.
fn plan_on<S: BlockSource>(
    alloc: Global,
    desk: &mut TrialDesk<S>,
    user: User,
    commands: &[Command],
) -> Result<Vec<Op>, Refusal>
    ensures planned { let d = desk.old.state in IsClear S.may_give desk.new
        → IfOk result (λ operations.
        plan_all d.settled.roster (tree_with_ready d) user commands.now ≡ Ok operations.items) }
    ensures refused { let d = desk.old.state in IsClear S.may_give desk.new
        → IfErr result (λ e. IsLoadRefusal e
        ⊎ (plan_all d.settled.roster (tree_with_ready d) user commands.now ≡ Err e)) }
    ensures settled { desk.new.state.settled ≡ desk.old.state.settled }
    ensures asks { Asks S.may_give S.follows desk.old desk.new }
{
    let mut planned = Vec::new(alloc);
    for command in commands {
        let mut next = plan_next(alloc, desk, user, command)?;
        planned.append(&mut next)?;
    }
    Ok(planned)
}

/// Plans a command on the tree with what stands ready, behind which its operations stand ready then.
/// Refused as `plan` is.
#[tactic(auto, unfolding(su_plan::specs::Plan::plan))]
fn plan_next<S: BlockSource>(
    alloc: Global,
    desk: &mut TrialDesk<S>,
    user: User,
    command: &Command,
) -> Result<Vec<Op>, Refusal>
    ensures planned { let d = desk.old.state in IsClear S.may_give desk.new
        → IfOk result (λ operations.
        plan d.settled.roster (tree_with_ready d) user command.now ≡ Ok operations.items) }
    ensures effect { let d = desk.old.state in IsClear S.may_give desk.new
        → IfOk result (λ operations. tree_with_ready desk.new.state
        ≡ effect d.settled.roster (tree_with_ready d)
        (action_by user NEWEST_FORMAT operations.items)) }
    ensures refused { let d = desk.old.state in IsClear S.may_give desk.new
        → IfErr result (λ e. IsLoadRefusal e
        ⊎ (plan d.settled.roster (tree_with_ready d) user command.now ≡ Err e)) }
    ensures settled { desk.new.state.settled ≡ desk.old.state.settled }
    ensures asks { Asks S.may_give S.follows desk.old desk.new }
{
    let planned = draft_ready(alloc, desk, user, command)?;
    desk.rehearse_on(user, planned.as_slice())?;
    Ok(planned)
}

/// Returns the file that a path leads to, as the store is settled. What stands ready is taken back
/// before. `BadPath` where the bytes are no path; on the way from the root `NoName` where a name is
/// missing, and `WrongKind` of a file in the middle. Or as a load is refused.
pub fn find<S: BlockSource>(
    alloc: Global,
    desk: &mut TrialDesk<S>,
    path: &[u8],
) -> Result<FileId, Refusal>
    ensures found { let d = desk.old.state.settled in IsClear S.may_give desk.new
        → IfOk result (λ file. found (tree_of d) path.now ≡ Ok file) }
    ensures none_ready { OnOk result (desk.new.state ≡ nothing_ready desk.old.state.settled) }
    ensures refused { let d = desk.old.state.settled in IsClear S.may_give desk.new
        → IfErr result (λ e. IsLoadRefusal e ⊎ (found (tree_of d) path.now ≡ Err e)) }
    ensures err { OnErr result (desk.new.state.settled ≡ desk.old.state.settled) }
    ensures asks { Asks S.may_give S.follows desk.old desk.new }
{
    desk.take_back()?;
    desk.note_asked();
    su_read_draft::find(alloc, desk, path)
}
