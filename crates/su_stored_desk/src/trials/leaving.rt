// Leaving what is kept of live operations on the store.
ghost use Rattle.std.specs.Prelude.{◌≡◌, ◌⊎◌, ℕ, List, IfErr};
ghost use Rattle.su_bytes.specs.Membership.{Membership};
ghost use Rattle.su_bytes.specs.declared.refusals.Refusal.TheVariants.{NoMemory, SourceFailed};
ghost use Rattle.su_desk.specs.History.{NumberedAction};
ghost use Rattle.su_table.specs.Tree.{Tree};
ghost use Rattle.su_part_inverse.specs.Lefts.{Leaves};
ghost use Rattle.su_stored_desk.specs.Hashed.{IsHashedAlong, WasHashed};
ghost use Rattle.su_stored_desk.specs.Keeping.{Leads};

use super::TrialDesk;
use std::alloc::Global;
use su_block::BlockSource;
use su_bytes::Refusal;
use su_live::LiveOperations;
use su_part_inverse::KeptInverse;

impl<S: BlockSource> TrialDesk<S> {
    ghost use Rattle.su_stored_desk.specs.Asked.{IsClear};

    /// Leaves the bytes that are kept of live operations on the store, also of those that stand
    /// ready, one operation after another: what stays of them in memory is, of each block, its
    /// digest. An undo then looks at each operation that came later. Refused with `SourceFailed` where the store could not be asked, and with `NoMemory`;
    /// then what wasn't put is still in memory.
    pub fn leave_kept(&mut self) -> Result<(), Refusal>
        ensures state { self.new.state ≡ self.old.state }
        ensures asked { self.new.asked ≡ self.old.asked }
        ensures follows { S.follows self.old.source self.new.source }
        // The store may give items of the trees in which live operations come as well from now on,
        // and no other that it might not give before.
        ensures more { IsClear S.may_give self.old → (i : List ℕ) → S.may_give self.new.source i
            → S.may_give self.old.source i ⊎ WasHashed self.old.state i }
        ensures refused { IfErr result (λ e. (e ≡ SourceFailed) ⊎ (e ≡ NoMemory)) }
    {
        self.desk.kept.forget_readers(self.desk.alloc);
        let last = self.desk.entries.len() as u64;
        leave_each(
            self.desk.alloc,
            &mut self.desk.kept,
            self.desk.left,
            last,
            self.desk.stored.source_mut(),
        )?;
        self.desk.left = last.saturating_sub(self.tried.len() as u64);
        Ok(())
    }
}

/// Leaves the bytes that are kept of the operations whose numbers are above the one and up to the
/// other, one after another. Refused as `TrialDesk::leave_kept` is.
fn leave_each<S: BlockSource>(
    alloc: Global,
    kept: &mut LiveOperations<KeptInverse>,
    before: u64,
    last: u64,
    source: &mut S,
) -> Result<(), Refusal>
    // What is kept fits the operations that it fitted, which lead where they led.
    ensures leads { (ro : Membership) (F T : Tree) (ts : List NumberedAction)
        → Leads ro F ts kept.old T → Leads ro F ts kept.new T }
    ensures more { (ro : Membership) (F T : Tree) (ts : List NumberedAction)
        → Leads ro F ts kept.old T → (i : List ℕ) → S.may_give source.new i
        → S.may_give source.old i ⊎ IsHashedAlong ro F ts i }
    ensures refused { IfErr result (λ e. (e ≡ SourceFailed) ⊎ (e ≡ NoMemory)) }
    ensures follows { S.follows source.old source.new }
{
    for earlier in before..last {
        leave_one(alloc, kept, earlier + 1, source)?;
    }
    Ok(())
}

/// Leaves the bytes that are kept of the operation of that number, where it is live. Refused as
/// `TrialDesk::leave_kept` is.
fn leave_one<S: BlockSource>(
    alloc: Global,
    kept: &mut LiveOperations<KeptInverse>,
    number: u64,
    source: &mut S,
) -> Result<(), Refusal>
    ensures leads { (ro : Membership) (F T : Tree) (ts : List NumberedAction)
        → Leads ro F ts kept.old T → Leads ro F ts kept.new T }
    ensures more { (ro : Membership) (F T : Tree) (ts : List NumberedAction)
        → Leads ro F ts kept.old T → (i : List ℕ) → S.may_give source.new i
        → S.may_give source.old i ⊎ IsHashedAlong ro F ts i }
    ensures refused { IfErr result (λ e. (e ≡ SourceFailed) ⊎ (e ≡ NoMemory)) }
    ensures follows { S.follows source.old source.new }
{
    let nothing = KeptInverse::nothing(alloc);
    let Some(mut inverse) = kept.replace_inverse(number, nothing) else {
        return Ok(());
    };
    let answer = leave_and_pack(alloc, &mut inverse, source);
    kept.replace_inverse(number, inverse);
    answer
}

/// Leaves the bytes that an inverse keeps, and packs what is small of it. Refused as
/// `TrialDesk::leave_kept` is.
fn leave_and_pack<S: BlockSource>(
    alloc: Global,
    inverse: &mut KeptInverse,
    source: &mut S,
) -> Result<(), Refusal>
    ensures { Leaves S.may_give S.follows inverse.old inverse.new source.old source.new result }
{
    inverse.leave(alloc, source)?;
    inverse.pack(alloc)
}
