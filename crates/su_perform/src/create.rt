// A new file or directory.
ghost use Rattle.std.specs.Prelude.{◌≡◌, ◌⊎◌, true, Some, None, IfOk, IfErr, OnOk, OnErr};
ghost use Rattle.su_bytes.specs.declared.refusals.Refusal.TheVariants.{MissingBlock, NoMemory};
ghost use Rattle.su_table.specs.Edit.{edits};
ghost use Rattle.su_table.specs.Tree.{Tree};
ghost use Rattle.su_op.specs.Growth.{AreFreeFor};
ghost use Rattle.su_op.specs.Create.{create_rule, is_own_number};
ghost use Rattle.su_op.specs.Rule.{refusal, plan_reads, plan_writes};
ghost use Rattle.su_part_forest.specs.Known.{StaysKnown};
ghost use Rattle.su_part_forest.specs.Forest.{IsSound, Stands};
ghost use Rattle.su_part_forest.specs.Seen.{seen};
ghost use Rattle.su_perform.specs.Performed.{IsReady, added_edits};
ghost use Rattle.su_perform.specs.Loaded.{HasAreas};
ghost use Rattle.su_perform.specs.Accepted.{planned_create};
ghost use Rattle.su_perform.specs.Found.{FoundCreate};

use crate::pointers::set_pointer;
use std::alloc::Global;
use su_bytes::{FileId, Place, Refusal, Roster, User};
use su_op::{Area, Create, Footprint, Part, closed_group, push_file, push_pointer};
use su_part_forest::PartForest;

/// A create that is accepted, and where the directory stands.
#[derive(Clone, Copy)]
pub struct AcceptedCreate<'a> {
    pub(crate) create: &'a Create,
    pub(crate) author: User,
    pub(crate) directory: Place,
}

impl<'a> AcceptedCreate<'a> {
    /// Checks whether the author may create. The error is the first refusal.
    pub(crate) fn check(
        create: &'a Create,
        forest: &PartForest,
        roster: &Roster,
        author: User,
    ) -> Result<AcceptedCreate<'a>, Refusal>
        ensures accepted { IsSound forest.now → OnOk result
            (refusal (create_rule roster.now (seen forest.now) author create.now) ≡ None) }
        ensures found { IsSound forest.now
            → IfOk result (FoundCreate (seen forest.now) author create.now) }
        ensures refused { IsSound forest.now → IfErr result (λ e.
            refusal (create_rule roster.now (seen forest.now) author create.now) ≡ Some e) }
    {
        if !has_own_number(create, author) {
            return Err(Refusal::BadNumber);
        }
        if let Some(group) = closed_group(roster, author, create.dir) {
            return Err(Refusal::NotMember(group));
        }
        if let Some(group) = closed_group(roster, author, create.file) {
            return Err(Refusal::NotMember(group));
        }
        let Some(directory) = forest.body(create.dir) else {
            return Err(Refusal::NoFile(create.dir));
        };
        if !forest.is_directory(directory) {
            return Err(Refusal::WrongKind(create.dir));
        }
        if directory.0 != author {
            return Err(Refusal::NotHolder(directory.0));
        }
        if !forest.is_pointer_free(create.file) || !forest.is_free((author, create.body)) {
            return Err(Refusal::Held);
        }
        if !forest.is_name_free(directory, &create.name) {
            return Err(Refusal::Exists);
        }
        Ok(AcceptedCreate {
            create,
            author,
            directory,
        })
    }

    /// Returns what it reads and writes. Fails only with `NoMemory`.
    pub(crate) fn footprint(&self, alloc: Global) -> Result<Footprint, Refusal>
        ensures reads { IfOk result (λ f. f.reads.items ≡ plan_reads (planned_create self.now)) }
        ensures writes { IfOk result (λ f.
            f.writes.items ≡ plan_writes (planned_create self.now)) }
        ensures refused { IfErr result (λ e. e ≡ NoMemory) }
    {
        let create = self.create;
        let mut besides = Vec::new(alloc);
        push_file(&mut besides, create.dir, self.directory)?;
        let mut writes = Vec::new(alloc);
        writes.push(Area::Inode(self.directory, Part::Name(create.name.clone()?)))?;
        writes.push(Area::Inode((self.author, create.body), Part::Kind))?;
        writes.push(Area::Inode((self.author, create.body), Part::Links))?;
        writes.push(Area::Inode((self.author, create.body), Part::Size))?;
        push_pointer(&mut writes, create.file)?;
        Footprint::new(besides, writes)
    }

    /// Gives the directory the name, and adds the file. Refused with `MissingBlock` where what it
    /// writes isn't loaded, and with `NoMemory` where memory is wanting; then the forest stands for
    /// what it stood for.
    pub(crate) fn perform(&self, forest: &mut PartForest) -> Result<(), Refusal>
        ensures ok { (T : Tree) → Stands forest.old T
            → AreFreeFor T (planned_create self.now).edits
            → HasAreas T forest.old (plan_writes (planned_create self.now))
            → OnOk result (Stands forest.new (edits T (planned_create self.now).edits)) }
        ensures refused { IfErr result (λ e. (e ≡ NoMemory) ⊎ (e ≡ MissingBlock)) }
        ensures loaded { (T : Tree) → Stands forest.old T
            → AreFreeFor T (planned_create self.now).edits
            → HasAreas T forest.old (plan_writes (planned_create self.now))
            → IfErr result (λ e. e ≡ NoMemory) }
        ensures err { (T : Tree) → Stands forest.old T
            → AreFreeFor T (planned_create self.now).edits
            → HasAreas T forest.old (plan_writes (planned_create self.now))
            → OnErr result (Stands forest.new T) }
    {
        let create = self.create;
        // names the number's range for the prover (docs/ARCHITECTURE.md, "Forms the kit wants")
        let _number = create.body.number();
        forest.add_name(self.directory, create.name.clone()?, create.file)?;
        if let Err(refusal) = self.add_file(forest) {
            forest.remove_name(self.directory, &create.name);
            return Err(refusal);
        }
        Ok(())
    }

    /// Adds the new inode, and a group file's pointer that points at it. Nothing stands there.
    /// Refused as `perform` is; then what was known stays known.
    fn add_file(&self, forest: &mut PartForest) -> Result<(), Refusal>
        ensures ok { (T : Tree) → Stands forest.old T → IsReady T forest.old self.now
            → OnOk result (Stands forest.new (edits T (added_edits self.now))) }
        ensures refused { IfErr result (λ e. (e ≡ NoMemory) ⊎ (e ≡ MissingBlock)) }
        ensures loaded { (T : Tree) → Stands forest.old T → IsReady T forest.old self.now
            → IfErr result (λ e. e ≡ NoMemory) }
        ensures err { (T : Tree) → Stands forest.old T → IsReady T forest.old self.now
            → OnErr result (Stands forest.new T) }
        ensures err_known { (T : Tree) → Stands forest.old T → IsReady T forest.old self.now
            → OnErr result (StaysKnown T T forest.old forest.new) }
    {
        let create = self.create;
        forest.make_inode((self.author, create.body), create.file, create.kind)?;
        if let Err(refusal) = set_pointer(forest, create.file, (self.author, create.body)) {
            forest.remove_inode((self.author, create.body));
            return Err(refusal);
        }
        Ok(())
    }
}

/// Tells whether the file id is one that the author can make at that number.
fn has_own_number(create: &Create, author: User) -> bool
    ensures { result ≡ is_own_number author create.now.body create.now.file }
{
    match create.file {
        FileId::User(user, number) => user == author && number == create.body,
        FileId::Group(..) => true,
    }
}
