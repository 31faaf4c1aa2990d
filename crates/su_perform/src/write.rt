// Bytes are written to a file.
ghost use Rattle.std.specs.Prelude.{◌≡◌, ◌⊎◌, ◌+◌, ◌<◌, ◌^◌, length, Some, None, IfOk, IfErr, OnOk, OnErr};
ghost use Rattle.su_bytes.specs.declared.refusals.Refusal.TheVariants.{MissingBlock, NoMemory};
ghost use Rattle.su_table.specs.Edit.{edits};
ghost use Rattle.su_table.specs.Tree.{Tree};
ghost use Rattle.su_table.specs.Query.{size_at};
ghost use Rattle.su_op.specs.Write.{write_rule};
ghost use Rattle.su_op.specs.Rule.{refusal, plan_reads, plan_writes};
ghost use Rattle.su_perform.specs.Loaded.{HasAreas};

use std::alloc::Global;
use su_bytes::{Format, Place, Refusal, Roster, User};
use su_op::{
    Area, Footprint, LARGEST_WRITE, Part, Write, blocks_between, closed_group, largest_file,
    push_file,
};
use su_part_forest::PartForest;

/// A write that is accepted, and where the file stands.
#[derive(Clone, Copy)]
pub struct AcceptedWrite<'a> {
    pub(crate) write: &'a Write,
    pub(crate) place: Place,
    /// How many bytes the file has.
    pub(crate) size: u32,
    ghost ends_in_range: { write.now.off + length write.now.bytes < 2 ^ 32 },
}

impl<'a> AcceptedWrite<'a> {
    ghost use Rattle.su_part_forest.specs.Forest.{IsSound, Stands};
    ghost use Rattle.su_part_forest.specs.Seen.{seen};
    ghost use Rattle.su_perform.specs.Accepted.{planned_write};
    ghost use Rattle.su_perform.specs.Found.{FoundWrite};

    /// Checks whether the author may write to the file, in that format. The error is the first
    /// refusal.
    pub(crate) fn check(
        write: &'a Write,
        forest: &PartForest,
        roster: &Roster,
        author: User,
        format: Format,
    ) -> Result<AcceptedWrite<'a>, Refusal>
        ensures accepted { IsSound forest.now → OnOk result
            (refusal (write_rule roster.now (seen forest.now) author format write.now) ≡ None) }
        ensures found { IsSound forest.now → IfOk result (FoundWrite (seen forest.now) write.now) }
        ensures refused { IsSound forest.now → IfErr result (λ e.
            refusal (write_rule roster.now (seen forest.now) author format write.now) ≡ Some e) }
    {
        let count = write.bytes.len();
        if count < 1 || LARGEST_WRITE < count {
            return Err(Refusal::BadNumber);
        }
        if let Some(group) = closed_group(roster, author, write.file) {
            return Err(Refusal::NotMember(group));
        }
        let Some(place) = forest.body(write.file) else {
            return Err(Refusal::NoFile(write.file));
        };
        if !forest.is_file(place) {
            return Err(Refusal::WrongKind(write.file));
        }
        if place.0 != author {
            return Err(Refusal::NotHolder(place.0));
        }
        if (largest_file(format) as usize) < write.off as usize + count {
            return Err(Refusal::TooBig);
        }
        Ok(AcceptedWrite {
            write,
            place,
            size: forest.size(place),
        })
    }

    /// Returns what it reads and writes. Fails only with `NoMemory`.
    pub(crate) fn footprint(&self, alloc: Global) -> Result<Footprint, Refusal>
        ensures reads { IfOk result (λ f. f.reads.items ≡ plan_reads (planned_write self.now)) }
        ensures writes { IfOk result (λ f. f.writes.items ≡ plan_writes (planned_write self.now)) }
        ensures refused { IfErr result (λ e. e ≡ NoMemory) }
    {
        let write = self.write;
        let mut besides = Vec::new(alloc);
        besides.push(Area::Inode(self.place, Part::Size))?;
        push_file(&mut besides, write.file, self.place)?;
        let end_ = write.off + write.bytes.len() as u32;
        let mut writes = Vec::new(alloc);
        let mut first = write.off;
        if self.size < end_ {
            writes.push(Area::Inode(self.place, Part::Size))?;
            first = first.min(self.size);
        }
        let blocks = blocks_between(first, end_);
        writes.push(Area::Inode(self.place, Part::Blocks(blocks)))?;
        Footprint::new(besides, writes)
    }

    /// Writes the bytes. Refused with `MissingBlock` where what it writes isn't loaded, and with
    /// `NoMemory` where memory is wanting; then the forest stands for what it stood for.
    pub(crate) fn perform(&self, forest: &mut PartForest) -> Result<(), Refusal>
        ensures ok { (T : Tree) → Stands forest.old T
            → size_at T self.now.place ≡ self.now.size
            → HasAreas T forest.old (plan_writes (planned_write self.now))
            → OnOk result (Stands forest.new (edits T (planned_write self.now).edits)) }
        ensures refused { IfErr result (λ e. (e ≡ NoMemory) ⊎ (e ≡ MissingBlock)) }
        ensures loaded { (T : Tree) → Stands forest.old T
            → size_at T self.now.place ≡ self.now.size
            → HasAreas T forest.old (plan_writes (planned_write self.now))
            → IfErr result (λ e. e ≡ NoMemory) }
        ensures err { (T : Tree) → Stands forest.old T
            → size_at T self.now.place ≡ self.now.size
            → HasAreas T forest.old (plan_writes (planned_write self.now))
            → OnErr result (Stands forest.new T) }
    {
        let write = self.write;
        forest.write_at(self.place, write.off, write.bytes.as_slice())
    }
}
