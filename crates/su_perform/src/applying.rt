// Operations on a forest of parts: what they need is loaded, and then they are performed.
ghost use Rattle.std.specs.Prelude.{◌≡◌, ◌⊎◌, ℕ, List, true, Some, None, IfErr, OnOk, OnErr};
ghost use Rattle.su_table.specs.Edit.{edits};
ghost use Rattle.su_table.specs.Tree.{Tree};
ghost use Rattle.su_op.specs.Action.{action_by};
ghost use Rattle.su_op.specs.Operation.{effect, why};
ghost use Rattle.su_part.specs.Bytes.{NoneClash};
ghost use Rattle.su_part.specs.Loads.{FailedAt};
ghost use Rattle.su_part_tree.specs.Loading.{IsLoadRefusal};
ghost use Rattle.su_part_forest.specs.Forest.{Stands};
ghost use Rattle.su_part_forest.specs.Loading.{HashedFor};
ghost use Rattle.su_perform.specs.Accepted.{FitsIn, planned};

use crate::accepted::Accepted;
use crate::loading::fetch;
use std::alloc::Global;
use su_block::BlockSource;
use su_bytes::{Format, Refusal, Roster, User};
use su_op::Op;
use su_part_forest::PartForest;

/// Performs an operation of that author, made in that format, on a forest of which parts may be
/// left on the source: loads what its check asks for, checks it, loads what it reads, and performs
/// it. Refused by the source, for want of memory or with `Malformed(0)` where an item spells
/// nothing that belongs there, as `fetch` is; and by the first refusal of its check. Then the
/// forest stands for what it stood for. A failure of the source is about an item of the tree.
pub fn apply<S: BlockSource>(
    alloc: Global,
    forest: &mut PartForest,
    roster: &Roster,
    author: User,
    format: Format,
    op: &Op,
    source: &mut S,
) -> Result<(), Refusal>
    requires { S.is_checked ≡ true }
    ensures accepted { (T : Tree) → Stands forest.old T
        → NoneClash (HashedFor T) (S.may_give source.old)
        → OnOk result (why roster.now T (action_by author format op.now) ≡ None) }
    ensures done { (T : Tree) → Stands forest.old T
        → NoneClash (HashedFor T) (S.may_give source.old) → OnOk result
        (Stands forest.new (effect roster.now T (action_by author format op.now))) }
    ensures refused { (T : Tree) → Stands forest.old T
        → NoneClash (HashedFor T) (S.may_give source.old) → IfErr result (λ e.
        IsLoadRefusal e ⊎ (why roster.now T (action_by author format op.now) ≡ Some e)) }
    ensures failed { (T : Tree) → Stands forest.old T
        → NoneClash (HashedFor T) (S.may_give source.old) → IfErr result (λ e.
        FailedAt (HashedFor T) (S.failed source.new) e
        ⊎ (why roster.now T (action_by author format op.now) ≡ Some e)) }
    ensures err { (T : Tree) → Stands forest.old T
        → NoneClash (HashedFor T) (S.may_give source.old) → OnErr result (Stands forest.new T) }
    ensures no_more { (i : List ℕ) → S.may_give source.new i → S.may_give source.old i }
    ensures follows { S.follows source.old source.new }
{
    // no `?`, for the prover (docs/ARCHITECTURE.md, "Forms the kit wants")
    match Accepted::load(alloc, op, forest, roster, author, format, source) {
        Ok(accepted) => perform_loading(alloc, &accepted, forest, source),
        Err(refusal) => Err(refusal),
    }
}

/// Loads what an accepted operation reads, and performs it. Refused as `fetch` is; then the forest
/// stands for what it stood for.
fn perform_loading<S: BlockSource>(
    alloc: Global,
    accepted: &Accepted<'_>,
    forest: &mut PartForest,
    source: &mut S,
) -> Result<(), Refusal>
    requires { S.is_checked ≡ true }
    ensures done { (T : Tree) → Stands forest.old T
        → NoneClash (HashedFor T) (S.may_give source.old) → FitsIn T accepted.now
        → OnOk result (Stands forest.new (edits T (planned T accepted.now).edits)) }
    ensures refused { (T : Tree) → Stands forest.old T
        → NoneClash (HashedFor T) (S.may_give source.old) → FitsIn T accepted.now
        → IfErr result IsLoadRefusal }
    ensures failed { (T : Tree) → Stands forest.old T
        → NoneClash (HashedFor T) (S.may_give source.old) → FitsIn T accepted.now
        → IfErr result (FailedAt (HashedFor T) (S.failed source.new)) }
    ensures err { (T : Tree) → Stands forest.old T
        → NoneClash (HashedFor T) (S.may_give source.old) → FitsIn T accepted.now
        → OnErr result (Stands forest.new T) }
    ensures no_more { (i : List ℕ) → S.may_give source.new i → S.may_give source.old i }
    ensures follows { S.follows source.old source.new }
{
    let footprint = accepted.footprint(alloc)?;
    fetch(forest, footprint.reads.as_slice(), source)?;
    accepted.perform(forest)
}
