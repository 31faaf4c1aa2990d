// A file gets another size.
ghost use Rattle.std.specs.Prelude.{◌≡◌, ◌⊎◌, Some, None, IfOk, IfErr, OnOk, OnErr};
ghost use Rattle.su_bytes.specs.declared.refusals.Refusal.TheVariants.{MissingBlock, NoMemory};
ghost use Rattle.su_table.specs.Edit.{edits};
ghost use Rattle.su_table.specs.Tree.{Tree};
ghost use Rattle.su_table.specs.Query.{size_at};
ghost use Rattle.su_op.specs.Truncate.{truncate_rule};
ghost use Rattle.su_op.specs.Rule.{refusal, plan_reads, plan_writes};
ghost use Rattle.su_part_forest.specs.Forest.{IsSound, Stands};
ghost use Rattle.su_part_forest.specs.Seen.{seen};
ghost use Rattle.su_perform.specs.Loaded.{HasAreas};
ghost use Rattle.su_perform.specs.Accepted.{planned_truncate};
ghost use Rattle.su_perform.specs.Found.{FoundTruncate};

use std::alloc::Global;
use su_bytes::{Format, Place, Refusal, Roster, User};
use su_op::{
    Area, Footprint, Part, Truncate, blocks_between, closed_group, largest_file, push_file,
};
use su_part_forest::PartForest;

/// A truncate that is accepted, and where the file stands.
#[derive(Clone, Copy)]
pub struct AcceptedTruncate<'a> {
    pub(crate) truncate: &'a Truncate,
    pub(crate) place: Place,
    /// How many bytes the file has.
    pub(crate) size: u32,
}

impl<'a> AcceptedTruncate<'a> {
    /// Checks whether the author may truncate the file, in that format. The error is the first
    /// refusal.
    pub(crate) fn check(
        truncate: &'a Truncate,
        forest: &PartForest,
        roster: &Roster,
        author: User,
        format: Format,
    ) -> Result<AcceptedTruncate<'a>, Refusal>
        ensures accepted { IsSound forest.now → OnOk result
            (refusal (truncate_rule roster.now (seen forest.now) author format truncate.now)
            ≡ None) }
        ensures found { IsSound forest.now
            → IfOk result (FoundTruncate (seen forest.now) truncate.now) }
        ensures refused { IsSound forest.now → IfErr result (λ e.
            refusal (truncate_rule roster.now (seen forest.now) author format truncate.now)
            ≡ Some e) }
    {
        if let Some(group) = closed_group(roster, author, truncate.file) {
            return Err(Refusal::NotMember(group));
        }
        let Some(place) = forest.body(truncate.file) else {
            return Err(Refusal::NoFile(truncate.file));
        };
        if !forest.is_file(place) {
            return Err(Refusal::WrongKind(truncate.file));
        }
        if place.0 != author {
            return Err(Refusal::NotHolder(place.0));
        }
        if largest_file(format) < truncate.size {
            return Err(Refusal::TooBig);
        }
        Ok(AcceptedTruncate {
            truncate,
            place,
            size: forest.size(place),
        })
    }

    /// Returns what it reads and writes. Fails only with `NoMemory`.
    pub(crate) fn footprint(&self, alloc: Global) -> Result<Footprint, Refusal>
        ensures reads { IfOk result (λ f.
            f.reads.items ≡ plan_reads (planned_truncate self.now)) }
        ensures writes { IfOk result (λ f.
            f.writes.items ≡ plan_writes (planned_truncate self.now)) }
        ensures refused { IfErr result (λ e. e ≡ NoMemory) }
    {
        let (old_size, new_size) = (self.size, self.truncate.size);
        let mut besides = Vec::new(alloc);
        besides.push(Area::Inode(self.place, Part::Size))?;
        push_file(&mut besides, self.truncate.file, self.place)?;
        let mut writes = Vec::new(alloc);
        if old_size != new_size {
            writes.push(Area::Inode(self.place, Part::Size))?;
            let blocks = blocks_between(old_size.min(new_size), old_size.max(new_size));
            writes.push(Area::Inode(self.place, Part::Blocks(blocks)))?;
        }
        Footprint::new(besides, writes)
    }

    /// Gives the file the size. Refused with `MissingBlock` where the file grows and what it writes
    /// isn't loaded, and with `NoMemory` where memory is wanting; then the forest stands for what
    /// it stood for.
    pub(crate) fn perform(&self, forest: &mut PartForest) -> Result<(), Refusal>
        ensures ok { (T : Tree) → Stands forest.old T
            → size_at T self.now.place ≡ self.now.size
            → HasAreas T forest.old (plan_writes (planned_truncate self.now))
            → OnOk result (Stands forest.new (edits T (planned_truncate self.now).edits)) }
        ensures refused { IfErr result (λ e. (e ≡ NoMemory) ⊎ (e ≡ MissingBlock)) }
        ensures loaded { (T : Tree) → Stands forest.old T
            → size_at T self.now.place ≡ self.now.size
            → HasAreas T forest.old (plan_writes (planned_truncate self.now))
            → IfErr result (λ e. e ≡ NoMemory) }
        ensures err { (T : Tree) → Stands forest.old T
            → size_at T self.now.place ≡ self.now.size
            → HasAreas T forest.old (plan_writes (planned_truncate self.now))
            → OnErr result (Stands forest.new T) }
    {
        let (old_size, new_size) = (self.size, self.truncate.size);
        if old_size < new_size {
            forest.grow(self.place, new_size)
        } else if new_size < old_size {
            forest.cut(self.place, new_size);
            Ok(())
        } else {
            Ok(())
        }
    }
}
