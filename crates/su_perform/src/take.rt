// A group file is taken over from the user who holds it.
ghost use Rattle.std.specs.Prelude.{◌≡◌, ◌⊎◌, true, Some, None, IfOk, IfErr, OnOk, OnErr};
ghost use Rattle.std.specs.FinMap.{get};
ghost use Rattle.su_bytes.specs.declared.refusals.Refusal.TheVariants.{MissingBlock, NoMemory};
ghost use Rattle.su_table.specs.Edit.{Edit.Inodes, edit, edits};
ghost use Rattle.su_table.specs.Query.{is_free_at};
ghost use Rattle.su_table.specs.Tree.{Tree};
ghost use Rattle.su_op.specs.Take.{copy_of, take_rule};
ghost use Rattle.su_op.specs.Rule.{refusal, plan_reads, plan_writes};
ghost use Rattle.su_part.specs.Known.{Want.AnInode};
ghost use Rattle.su_part_forest.specs.Known.{Want.OfUser, Knows};
ghost use Rattle.su_part_forest.specs.Loading.{KeepsLoaded};
ghost use Rattle.su_part_forest.specs.Forest.{IsSound, Stands};
ghost use Rattle.su_part_forest.specs.Seen.{seen};
ghost use Rattle.su_perform.specs.Performed.{CanCopy};
ghost use Rattle.su_perform.specs.Loaded.{HasAreas};
ghost use Rattle.su_perform.specs.Accepted.{planned_take};
ghost use Rattle.su_perform.specs.Found.{FoundTake};

use crate::pointers::set_pointer;
use std::alloc::Global;
use su_bytes::{FileId, Place, Refusal, Roster, User};
use su_op::{Area, Footprint, Part, Take, closed_group, push_file, push_pointer};
use su_part_forest::PartForest;

/// A take that is accepted, and where the file stands.
#[derive(Clone, Copy)]
pub struct AcceptedTake<'a> {
    pub(crate) take: &'a Take,
    pub(crate) author: User,
    pub(crate) place: Place,
}

impl<'a> AcceptedTake<'a> {
    /// Checks whether the author may take the file over. The error is the first refusal.
    pub(crate) fn check(
        take: &'a Take,
        forest: &PartForest,
        roster: &Roster,
        author: User,
    ) -> Result<AcceptedTake<'a>, Refusal>
        ensures accepted { IsSound forest.now → OnOk result
            (refusal (take_rule roster.now (seen forest.now) author take.now) ≡ None) }
        ensures found { IsSound forest.now
            → IfOk result (FoundTake (seen forest.now) author take.now) }
        ensures refused { IsSound forest.now → IfErr result (λ e.
            refusal (take_rule roster.now (seen forest.now) author take.now) ≡ Some e) }
    {
        if let FileId::User(..) = take.file {
            return Err(Refusal::BadNumber);
        }
        if let Some(group) = closed_group(roster, author, take.file) {
            return Err(Refusal::NotMember(group));
        }
        let Some(place) = forest.body(take.file) else {
            return Err(Refusal::NoFile(take.file));
        };
        if place.0 == author || !forest.is_free((author, take.body)) {
            return Err(Refusal::Held);
        }
        Ok(AcceptedTake {
            take,
            author,
            place,
        })
    }

    /// Returns what it reads and writes, which doesn't depend on the inode. Fails only with
    /// `NoMemory`.
    pub(crate) fn footprint(&self, alloc: Global) -> Result<Footprint, Refusal>
        ensures reads { IfOk result (λ f.
            (T : Tree) → f.reads.items ≡ plan_reads (planned_take T self.now)) }
        ensures writes { IfOk result (λ f.
            (T : Tree) → f.writes.items ≡ plan_writes (planned_take T self.now)) }
        ensures refused { IfErr result (λ e. e ≡ NoMemory) }
    {
        let take = self.take;
        let mut besides = Vec::new(alloc);
        besides.push(Area::Inode(self.place, Part::Whole))?;
        push_file(&mut besides, take.file, self.place)?;
        let mut writes = Vec::new(alloc);
        writes.push(Area::Inode((self.author, take.body), Part::Whole))?;
        push_pointer(&mut writes, take.file)?;
        Footprint::new(besides, writes)
    }

    /// Copies the inode, and lets the group's pointer point at the copy. Refused with
    /// `MissingBlock` where what it writes isn't loaded, and with `NoMemory` where memory is
    /// wanting; then the forest stands for what it stood for.
    pub(crate) fn perform(&self, forest: &mut PartForest) -> Result<(), Refusal>
        ensures ok { (T : Tree) → Stands forest.old T
            → is_free_at T (self.now.author, self.now.take.now.body) ≡ true
            → HasAreas T forest.old (plan_reads (planned_take T self.now))
            → OnOk result (Stands forest.new (edits T (planned_take T self.now).edits)) }
        ensures refused { IfErr result (λ e. (e ≡ NoMemory) ⊎ (e ≡ MissingBlock)) }
        ensures loaded { (T : Tree) → Stands forest.old T
            → is_free_at T (self.now.author, self.now.take.now.body) ≡ true
            → HasAreas T forest.old (plan_reads (planned_take T self.now))
            → IfErr result (λ e. e ≡ NoMemory) }
        ensures err { (T : Tree) → Stands forest.old T
            → is_free_at T (self.now.author, self.now.take.now.body) ≡ true
            → HasAreas T forest.old (plan_reads (planned_take T self.now))
            → OnErr result (Stands forest.new T) }
    {
        let take = self.take;
        copy_inode(forest, &self.place, (self.author, take.body))?;
        if let Err(refusal) = set_pointer(forest, take.file, (self.author, take.body)) {
            forest.remove_inode((self.author, take.body));
            return Err(refusal);
        }
        Ok(())
    }
}

/// Copies the inode at `place` to `other`, where none stands. Refused with `MissingBlock` where
/// what stands at `other` isn't loaded, and with `NoMemory` where memory is wanting; then the
/// forest stands for what it stood for.
fn copy_inode(forest: &mut PartForest, place: &Place, other: Place) -> Result<(), Refusal>
    ensures ok { (T : Tree) → Stands forest.old T → CanCopy T forest.old place.now other
        → OnOk result
        (Stands forest.new (edit T (Inodes other (copy_of (get T.inodes place.now))))) }
    ensures added { (T : Tree) → Stands forest.old T → CanCopy T forest.old place.now other
        → OnOk result (Knows (edit T (Inodes other (copy_of (get T.inodes place.now))))
        (OfUser other.0 (AnInode other.1)) forest.new) }
    ensures refused { IfErr result (λ e. (e ≡ NoMemory) ⊎ (e ≡ MissingBlock)) }
    ensures loaded { (T : Tree) → Stands forest.old T → CanCopy T forest.old place.now other
        → IfErr result (λ e. e ≡ NoMemory) }
    ensures err { (T : Tree) → Stands forest.old T → CanCopy T forest.old place.now other
        → OnErr result (Stands forest.new T) }
    ensures keeps { (T : Tree) → Stands forest.old T → CanCopy T forest.old place.now other
        → KeepsLoaded forest.old forest.new }
{
    // names the number's range for the prover (docs/ARCHITECTURE.md, "Forms the kit wants")
    let _number = other.1.number();
    match forest.copy_inode(*place)? {
        Some(inode) => {
            forest.exchange_inode(other, inode)?;
            Ok(())
        }
        None => Ok(()),
    }
}
