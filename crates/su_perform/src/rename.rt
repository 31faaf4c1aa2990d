// A file gets another name.
ghost use Rattle.std.specs.Prelude.{◌≡◌, ◌⊎◌, ◌||◌, true, false, Some, None, is_some, IfOk, IfErr, OnOk, OnErr};
ghost use Rattle.su_bytes.specs.declared.refusals.Refusal.TheVariants.{MissingBlock, NoMemory, NoFile};
ghost use Rattle.su_table.specs.Edit.{edits};
ghost use Rattle.su_table.specs.Tree.{Tree};
ghost use Rattle.su_table.specs.Query.{body};
ghost use Rattle.su_op.specs.Rename.{stays, moved, moves_directory, rename_rule, rename_rule_at};
ghost use Rattle.su_op.specs.Rule.{refusal, plan_reads, plan_writes};
ghost use Rattle.su_part_forest.specs.Forest.{IsSound, Stands};
ghost use Rattle.su_part_forest.specs.Seen.{seen};
ghost use Rattle.su_perform.specs.Loaded.{HasAreas};
ghost use Rattle.su_perform.specs.Accepted.{planned_rename};
ghost use Rattle.su_perform.specs.Found.{FoundRename, FoundPlaces};

use std::alloc::Global;
use su_bytes::{Place, Refusal, Roster, User};
use su_op::{Area, Footprint, Part, Rename, closed_group, push_file};
use su_part_forest::PartForest;
use su_tree::TreeKey;

/// A rename that is accepted, and where the directories stand, and the file if it goes from one to
/// the other.
#[derive(Clone, Copy)]
pub struct AcceptedRename<'a> {
    pub(crate) rename: &'a Rename,
    pub(crate) source: Place,
    pub(crate) target: Place,
    pub(crate) moved: Option<Place>,
}

impl<'a> AcceptedRename<'a> {
    /// Checks whether the author may rename. The error is the first refusal.
    pub(crate) fn check(
        rename: &'a Rename,
        forest: &PartForest,
        roster: &Roster,
        author: User,
    ) -> Result<AcceptedRename<'a>, Refusal>
        ensures accepted { IsSound forest.now → OnOk result
            (refusal (rename_rule roster.now (seen forest.now) author rename.now) ≡ None) }
        ensures found { IsSound forest.now
            → IfOk result (FoundRename (seen forest.now) rename.now) }
        ensures refused { IsSound forest.now → IfErr result (λ e.
            refusal (rename_rule roster.now (seen forest.now) author rename.now) ≡ Some e) }
    {
        let (source, target, moved) = places(rename, forest, roster, author)?;
        if !forest.is_directory(source) {
            return Err(Refusal::WrongKind(rename.from_));
        }
        if !forest.is_directory(target) {
            return Err(Refusal::WrongKind(rename.to_));
        }
        if source.0 != author {
            return Err(Refusal::NotHolder(source.0));
        }
        if target.0 != author {
            return Err(Refusal::NotHolder(target.0));
        }
        if !forest.leads_to(source, &rename.old_, rename.file) {
            return Err(Refusal::NoName);
        }
        if !forest.is_name_free(target, &rename.new_) {
            return Err(Refusal::Exists);
        }
        if moves_directory(forest, &moved) {
            return Err(Refusal::DirMove);
        }
        Ok(AcceptedRename {
            rename,
            source,
            target,
            moved,
        })
    }

    /// Returns what it reads and writes. Fails only with `NoMemory`.
    pub(crate) fn footprint(&self, alloc: Global) -> Result<Footprint, Refusal>
        ensures reads { IfOk result (λ f. f.reads.items ≡ plan_reads (planned_rename self.now)) }
        ensures writes { IfOk result (λ f.
            f.writes.items ≡ plan_writes (planned_rename self.now)) }
        ensures refused { IfErr result (λ e. e ≡ NoMemory) }
    {
        let rename = self.rename;
        let mut besides = Vec::new(alloc);
        push_file(&mut besides, rename.from_, self.source)?;
        push_file(&mut besides, rename.to_, self.target)?;
        if let Some(moved) = self.moved {
            push_file(&mut besides, rename.file, moved)?;
        }
        let mut writes = Vec::new(alloc);
        writes.push(Area::Inode(self.target, Part::Name(rename.new_.clone()?)))?;
        writes.push(Area::Inode(self.source, Part::Name(rename.old_.clone()?)))?;
        Footprint::new(besides, writes)
    }

    /// Gives the file the new name, and takes the old one away. Refused with `MissingBlock` where
    /// what it writes isn't loaded, and with `NoMemory` where memory is wanting; then the forest
    /// stands for what it stood for.
    pub(crate) fn perform(&self, forest: &mut PartForest) -> Result<(), Refusal>
        ensures ok { (T : Tree) → Stands forest.old T
            → HasAreas T forest.old (plan_writes (planned_rename self.now))
            → OnOk result (Stands forest.new (edits T (planned_rename self.now).edits)) }
        ensures refused { IfErr result (λ e. (e ≡ NoMemory) ⊎ (e ≡ MissingBlock)) }
        ensures loaded { (T : Tree) → Stands forest.old T
            → HasAreas T forest.old (plan_writes (planned_rename self.now))
            → IfErr result (λ e. e ≡ NoMemory) }
        ensures err { (T : Tree) → Stands forest.old T
            → HasAreas T forest.old (plan_writes (planned_rename self.now))
            → OnErr result (Stands forest.new T) }
    {
        let rename = self.rename;
        // names the ranges for the prover (docs/ARCHITECTURE.md, "Forms the kit wants")
        let _number = self.source.1.number();
        let _bytes = rename.old_.byte_count();
        forest.add_name(self.target, rename.new_.clone()?, rename.file)?;
        forest.remove_name(self.source, &rename.old_);
        Ok(())
    }
}

/// Finds where the directories stand, and the file if it goes from one to the other. The error is
/// the first refusal of the checks for users, groups and bodies.
fn places(
    rename: &Rename,
    forest: &PartForest,
    roster: &Roster,
    author: User,
) -> Result<(Place, Place, Option<Place>), Refusal>
    ensures found { IsSound forest.now
        → IfOk result (λ p. FoundPlaces (seen forest.now) rename.now p.0 p.1 p.2) }
    ensures refusal { IsSound forest.now → IfOk result (λ p.
        refusal (rename_rule roster.now (seen forest.now) author rename.now)
        ≡ refusal (rename_rule_at (seen forest.now) author rename.now p.2 p.0 p.1)) }
    ensures refused { IsSound forest.now → IfErr result (λ e.
        refusal (rename_rule roster.now (seen forest.now) author rename.now) ≡ Some e) }
{
    if let Some(group) = closed_group(roster, author, rename.from_) {
        return Err(Refusal::NotMember(group));
    }
    if let Some(group) = closed_group(roster, author, rename.to_) {
        return Err(Refusal::NotMember(group));
    }
    let Some(source) = forest.body(rename.from_) else {
        return Err(Refusal::NoFile(rename.from_));
    };
    let Some(target) = forest.body(rename.to_) else {
        return Err(Refusal::NoFile(rename.to_));
    };
    let moved = moved(rename, forest)?;
    Ok((source, target, moved))
}

/// Finds where the file stands, if it goes from one directory to another. Fails with `NoFile` where
/// it has no body.
fn moved(rename: &Rename, forest: &PartForest) -> Result<Option<Place>, Refusal>
    ensures value { IsSound forest.now
        → IfOk result (λ place. place ≡ moved (seen forest.now) rename.now) }
    ensures found { IsSound forest.now → OnOk result
        ((stays rename.now || is_some (moved (seen forest.now) rename.now)) ≡ true) }
    ensures refused { IsSound forest.now → IfErr result (λ e. (e ≡ NoFile rename.now.file)
        × ((stays rename.now || is_some (moved (seen forest.now) rename.now)) ≡ false)) }
{
    if rename.from_ == rename.to_ {
        return Ok(None);
    }
    match forest.body(rename.file) {
        Some(place) => Ok(Some(place)),
        None => Err(Refusal::NoFile(rename.file)),
    }
}

/// Tells whether what goes to another directory is a directory.
fn moves_directory(forest: &PartForest, moved: &Option<Place>) -> bool
    ensures { IsSound forest.now → result ≡ moves_directory (seen forest.now) moved.now }
{
    match moved {
        Some(place) => forest.is_directory(*place),
        None => false,
    }
}
