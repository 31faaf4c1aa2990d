// Taking a name away, and the file with its last one.
ghost use Rattle.std.specs.Prelude.{◌≡◌, Some, None, IfOk, IfErr, OnOk};
ghost use Rattle.su_bytes.specs.declared.refusals.Refusal.TheVariants.{NoMemory};
ghost use Rattle.su_table.specs.Edit.{edits};
ghost use Rattle.su_table.specs.Tree.{Tree};
ghost use Rattle.su_op.specs.Unlink.{file_goes};
ghost use Rattle.su_op.specs.Unlink.{unlink_rule};
ghost use Rattle.su_op.specs.Rule.{refusal, plan_reads, plan_writes};
ghost use Rattle.su_part.specs.Known.{Want.AnInode};
ghost use Rattle.su_part_forest.specs.Known.{Want.OfUser, Knows};
ghost use Rattle.su_part_forest.specs.Forest.{IsSound, Stands};
ghost use Rattle.su_part_forest.specs.Seen.{seen};
ghost use Rattle.su_perform.specs.Performed.{KnowsPointerOf};
ghost use Rattle.su_perform.specs.Loaded.{HasAreas};
ghost use Rattle.su_perform.specs.Accepted.{planned_unlink};
ghost use Rattle.su_perform.specs.Found.{FoundUnlink};

use crate::pointers::remove_pointer;
use std::alloc::Global;
use su_bytes::{Place, Refusal, Roster, User};
use su_op::{Area, Footprint, Part, Unlink, closed_group, push_file, push_pointer};
use su_part_forest::PartForest;
use su_tree::TreeKey;

/// An unlink that is accepted, and where the directory and the file stand.
#[derive(Clone, Copy)]
pub struct AcceptedUnlink<'a> {
    pub(crate) unlink: &'a Unlink,
    pub(crate) directory: Place,
    pub(crate) place: Place,
    /// How many links the file has.
    pub(crate) links: u8,
}

impl<'a> AcceptedUnlink<'a> {
    /// Checks whether the author may unlink. The error is the first refusal.
    pub(crate) fn check(
        unlink: &'a Unlink,
        forest: &PartForest,
        roster: &Roster,
        author: User,
    ) -> Result<AcceptedUnlink<'a>, Refusal>
        ensures accepted { IsSound forest.now → OnOk result
            (refusal (unlink_rule roster.now (seen forest.now) author unlink.now) ≡ None) }
        ensures found { IsSound forest.now
            → IfOk result (FoundUnlink (seen forest.now) unlink.now) }
        ensures refused { IsSound forest.now → IfErr result (λ e.
            refusal (unlink_rule roster.now (seen forest.now) author unlink.now) ≡ Some e) }
    {
        if let Some(group) = closed_group(roster, author, unlink.dir) {
            return Err(Refusal::NotMember(group));
        }
        if let Some(group) = closed_group(roster, author, unlink.file) {
            return Err(Refusal::NotMember(group));
        }
        let Some(directory) = forest.body(unlink.dir) else {
            return Err(Refusal::NoFile(unlink.dir));
        };
        let Some(place) = forest.body(unlink.file) else {
            return Err(Refusal::NoFile(unlink.file));
        };
        if !forest.is_directory(directory) {
            return Err(Refusal::WrongKind(unlink.dir));
        }
        if directory.0 != author {
            return Err(Refusal::NotHolder(directory.0));
        }
        if place.0 != author {
            return Err(Refusal::NotHolder(place.0));
        }
        if !forest.leads_to(directory, &unlink.name, unlink.file) {
            return Err(Refusal::NoName);
        }
        if !forest.is_bare(place) {
            return Err(Refusal::NotEmpty);
        }
        Ok(AcceptedUnlink {
            unlink,
            directory,
            place,
            links: forest.links(place),
        })
    }

    /// Returns what it reads and writes. Fails only with `NoMemory`.
    pub(crate) fn footprint(&self, alloc: Global) -> Result<Footprint, Refusal>
        ensures reads { IfOk result (λ f. f.reads.items ≡ plan_reads (planned_unlink self.now)) }
        ensures writes { IfOk result (λ f.
            f.writes.items ≡ plan_writes (planned_unlink self.now)) }
        ensures refused { IfErr result (λ e. e ≡ NoMemory) }
    {
        let unlink = self.unlink;
        let mut besides = Vec::new(alloc);
        push_file(&mut besides, unlink.dir, self.directory)?;
        push_file(&mut besides, unlink.file, self.place)?;
        let mut writes = Vec::new(alloc);
        writes.push(Area::Inode(self.directory, Part::Name(unlink.name.clone()?)))?;
        if self.links < 2 {
            push_pointer(&mut writes, unlink.file)?;
            writes.push(Area::Inode(self.place, Part::Whole))?;
        } else {
            writes.push(Area::Inode(self.place, Part::Links))?;
        }
        Footprint::new(besides, writes)
    }

    /// Removes the name, and a link or the file. What it writes is loaded. Nothing grows, so
    /// nothing is refused.
    pub(crate) fn perform(&self, forest: &mut PartForest)
        ensures stands { (T : Tree) → Stands forest.old T
            → HasAreas T forest.old (plan_writes (planned_unlink self.now))
            → Stands forest.new (edits T (planned_unlink self.now).edits) }
    {
        // names the ranges for the prover (docs/ARCHITECTURE.md, "Forms the kit wants")
        let _bytes = self.unlink.name.byte_count();
        let (_directory, _place) = (self.directory.1.number(), self.place.1.number());
        forest.remove_name(self.directory, &self.unlink.name);
        if 2 <= self.links {
            forest.set_links(self.place, self.links - 1);
        } else {
            self.remove_file(forest);
        }
    }

    /// Removes the inode and a group file's pointer, both of which are known.
    fn remove_file(&self, forest: &mut PartForest)
        ensures { (T : Tree) → Stands forest.old T
            → Knows T (OfUser self.now.place.0 (AnInode self.now.place.1)) forest.old
            → KnowsPointerOf T self.now.unlink.now.file forest.old
            → Stands forest.new (edits T (file_goes self.now.unlink.now.file self.now.place)) }
    {
        remove_pointer(forest, self.unlink.file);
        forest.remove_inode(self.place);
    }
}
