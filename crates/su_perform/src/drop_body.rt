// A body goes that no file id leads to any more.
ghost use Rattle.std.specs.Prelude.{◌≡◌, Some, None, IfOk, IfErr, OnOk};
ghost use Rattle.su_bytes.specs.declared.refusals.Refusal.TheVariants.{NoMemory};
ghost use Rattle.su_node.specs.Field.{Field.KindOf};
ghost use Rattle.su_table.specs.Edit.{edits};
ghost use Rattle.su_table.specs.Tree.{Tree};
ghost use Rattle.su_table.specs.Cell.{Cell.At, Cell.Pointer, val};
ghost use Rattle.su_op.specs.DropBody.{group_home, leads_here, stale_home, drop_rule};
ghost use Rattle.su_op.specs.Rule.{refusal, plan_reads, plan_writes};
ghost use Rattle.su_part_forest.specs.Forest.{IsSound, Stands};
ghost use Rattle.su_part_forest.specs.Seen.{seen};
ghost use Rattle.su_perform.specs.Loaded.{HasAreas};
ghost use Rattle.su_perform.specs.Accepted.{planned_drop};
ghost use Rattle.su_perform.specs.Found.{FoundDrop};

use std::alloc::Global;
use su_bytes::{FileId, GroupFile, Place, Refusal, User};
use su_op::{Area, DropBody, Footprint, Part};
use su_part_forest::PartForest;

/// A drop that is accepted, and the group file that the body was made for.
#[derive(Clone, Copy)]
pub struct AcceptedDrop<'a> {
    pub(crate) dropped: &'a DropBody,
    pub(crate) author: User,
    pub(crate) home: GroupFile,
}

impl<'a> AcceptedDrop<'a> {
    /// Checks whether the author may drop the body. The error is the first refusal.
    pub(crate) fn check(
        dropped: &'a DropBody,
        forest: &PartForest,
        author: User,
    ) -> Result<AcceptedDrop<'a>, Refusal>
        ensures accepted { IsSound forest.now → OnOk result
            (refusal (drop_rule (seen forest.now) author dropped.now) ≡ None) }
        ensures found { IsSound forest.now
            → IfOk result (FoundDrop (seen forest.now) author dropped.now) }
        ensures refused { IsSound forest.now → IfErr result (λ e.
            refusal (drop_rule (seen forest.now) author dropped.now) ≡ Some e) }
    {
        if forest.is_free((author, dropped.body)) {
            return Err(Refusal::NoFile(FileId::User(author, dropped.body)));
        }
        let Some(home) = stale_home(forest, (author, dropped.body)) else {
            return Err(Refusal::Held);
        };
        Ok(AcceptedDrop {
            dropped,
            author,
            home,
        })
    }

    /// Returns what it reads and writes. Fails only with `NoMemory`.
    pub(crate) fn footprint(&self, alloc: Global) -> Result<Footprint, Refusal>
        ensures reads { IfOk result (λ f. f.reads.items ≡ plan_reads (planned_drop self.now)) }
        ensures writes { IfOk result (λ f. f.writes.items ≡ plan_writes (planned_drop self.now)) }
        ensures refused { IfErr result (λ e. e ≡ NoMemory) }
    {
        let mut besides = Vec::new(alloc);
        besides.push(Area::Pointer(self.home))?;
        let mut writes = Vec::new(alloc);
        writes.push(Area::Inode((self.author, self.dropped.body), Part::Whole))?;
        Footprint::new(besides, writes)
    }

    /// Removes the inode. What it writes is loaded. Nothing grows, so nothing is refused.
    pub(crate) fn perform(&self, forest: &mut PartForest)
        ensures stands { (T : Tree) → Stands forest.old T
            → HasAreas T forest.old (plan_writes (planned_drop self.now))
            → Stands forest.new (edits T (planned_drop self.now).edits) }
    {
        // names the number's range for the prover (docs/ARCHITECTURE.md, "Forms the kit wants")
        let _number = self.dropped.body.number();
        forest.remove_inode((self.author, self.dropped.body));
    }
}

/// Returns the group file that the body at `place` was made for, where the group's pointer is gone
/// or leads elsewhere, so that no file id leads to the body; else none.
fn stale_home(forest: &PartForest, place: Place) -> Option<GroupFile>
    ensures { IsSound forest.now → result ≡ stale_home (seen forest.now) place }
{
    let home = group_home(forest, &place)?;
    if leads_here(forest, &home, &place) {
        None
    } else {
        Some(home)
    }
}

/// Returns the group file that what stands at `place` was made for, if it was made for one.
#[tactic(auto, unfolding(su_table::specs::Cell::val))]
fn group_home(forest: &PartForest, place: &Place) -> Option<GroupFile>
    ensures { IsSound forest.now
        → result ≡ group_home (val (seen forest.now) (At place.now KindOf)) }
{
    match forest.home(*place)? {
        FileId::User(..) => None,
        FileId::Group(group, file) => Some((group, file)),
    }
}

/// Tells whether the pointer of a group file leads to `place`.
fn leads_here(forest: &PartForest, file: &GroupFile, place: &Place) -> bool
    ensures { IsSound forest.now
        → result ≡ leads_here (val (seen forest.now) (Pointer file.now)) place.now }
{
    let (group, number) = *file;
    match forest.body(FileId::Group(group, number)) {
        Some(body) => body == *place,
        None => false,
    }
}
