// A file gets a further name.
ghost use Rattle.std.specs.Prelude.{◌≡◌, ◌⊎◌, ◌<◌, Some, None, IfOk, IfErr, OnOk, OnErr};
ghost use Rattle.su_bytes.specs.declared.refusals.Refusal.TheVariants.{MissingBlock, NoMemory};
ghost use Rattle.su_table.specs.Edit.{edits};
ghost use Rattle.su_table.specs.Tree.{Tree};
ghost use Rattle.su_op.specs.Limits.{most_links};
ghost use Rattle.su_op.specs.Link.{link_rule};
ghost use Rattle.su_op.specs.Rule.{refusal, plan_reads, plan_writes};
ghost use Rattle.su_perform.specs.Loaded.{HasAreas};

use std::alloc::Global;
use su_bytes::{Place, Refusal, Roster, User};
use su_op::{Area, Footprint, Link, MOST_LINKS, Part, closed_group, push_file};
use su_part_forest::PartForest;

/// A link that is accepted, and where the directory and the file stand.
#[derive(Clone, Copy)]
pub struct AcceptedLink<'a> {
    pub(crate) link: &'a Link,
    pub(crate) directory: Place,
    pub(crate) place: Place,
    /// How many links the file has.
    pub(crate) links: u8,
    ghost room: { links < most_links },
}

impl<'a> AcceptedLink<'a> {
    ghost use Rattle.su_part_forest.specs.Forest.{IsSound, Stands};
    ghost use Rattle.su_part_forest.specs.Seen.{seen};
    ghost use Rattle.su_perform.specs.Accepted.{planned_link};
    ghost use Rattle.su_perform.specs.Found.{FoundLink};

    /// Checks whether the author may link. The error is the first refusal.
    pub(crate) fn check(
        link: &'a Link,
        forest: &PartForest,
        roster: &Roster,
        author: User,
    ) -> Result<AcceptedLink<'a>, Refusal>
        ensures accepted { IsSound forest.now → OnOk result
            (refusal (link_rule roster.now (seen forest.now) author link.now) ≡ None) }
        ensures found { IsSound forest.now → IfOk result (FoundLink (seen forest.now) link.now) }
        ensures refused { IsSound forest.now → IfErr result (λ e.
            refusal (link_rule roster.now (seen forest.now) author link.now) ≡ Some e) }
    {
        if let Some(group) = closed_group(roster, author, link.dir) {
            return Err(Refusal::NotMember(group));
        }
        if let Some(group) = closed_group(roster, author, link.file) {
            return Err(Refusal::NotMember(group));
        }
        let Some(directory) = forest.body(link.dir) else {
            return Err(Refusal::NoFile(link.dir));
        };
        let Some(place) = forest.body(link.file) else {
            return Err(Refusal::NoFile(link.file));
        };
        if !forest.is_directory(directory) {
            return Err(Refusal::WrongKind(link.dir));
        }
        if !forest.is_file(place) {
            return Err(Refusal::WrongKind(link.file));
        }
        if directory.0 != author {
            return Err(Refusal::NotHolder(directory.0));
        }
        if place.0 != author {
            return Err(Refusal::NotHolder(place.0));
        }
        if !forest.is_name_free(directory, &link.name) {
            return Err(Refusal::Exists);
        }
        let links = forest.links(place);
        if MOST_LINKS <= links {
            return Err(Refusal::TooManyLinks);
        }
        Ok(AcceptedLink {
            link,
            directory,
            place,
            links,
        })
    }

    /// Returns what it reads and writes. Fails only with `NoMemory`.
    pub(crate) fn footprint(&self, alloc: Global) -> Result<Footprint, Refusal>
        ensures reads { IfOk result (λ f. f.reads.items ≡ plan_reads (planned_link self.now)) }
        ensures writes { IfOk result (λ f. f.writes.items ≡ plan_writes (planned_link self.now)) }
        ensures refused { IfErr result (λ e. e ≡ NoMemory) }
    {
        let link = self.link;
        let mut besides = Vec::new(alloc);
        push_file(&mut besides, link.dir, self.directory)?;
        push_file(&mut besides, link.file, self.place)?;
        let mut writes = Vec::new(alloc);
        writes.push(Area::Inode(self.directory, Part::Name(link.name.clone()?)))?;
        writes.push(Area::Inode(self.place, Part::Links))?;
        Footprint::new(besides, writes)
    }

    /// Gives the directory the name, and the file a link more. Refused with `MissingBlock` where
    /// what it writes isn't loaded, and with `NoMemory` where memory is wanting; then the forest
    /// stands for what it stood for.
    pub(crate) fn perform(&self, forest: &mut PartForest) -> Result<(), Refusal>
        ensures ok { (T : Tree) → Stands forest.old T
            → HasAreas T forest.old (plan_writes (planned_link self.now))
            → OnOk result (Stands forest.new (edits T (planned_link self.now).edits)) }
        ensures refused { IfErr result (λ e. (e ≡ NoMemory) ⊎ (e ≡ MissingBlock)) }
        ensures loaded { (T : Tree) → Stands forest.old T
            → HasAreas T forest.old (plan_writes (planned_link self.now))
            → IfErr result (λ e. e ≡ NoMemory) }
        ensures err { (T : Tree) → Stands forest.old T
            → HasAreas T forest.old (plan_writes (planned_link self.now))
            → OnErr result (Stands forest.new T) }
    {
        let link = self.link;
        // names the number's range for the prover (docs/ARCHITECTURE.md, "Forms the kit wants")
        let _number = self.place.1.number();
        forest.add_name(self.directory, link.name.clone()?, link.file)?;
        forest.set_links(self.place, self.links + 1);
        Ok(())
    }
}
