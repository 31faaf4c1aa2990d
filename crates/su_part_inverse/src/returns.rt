// What is brought back to where it stood. This may take memory, and is rolled back if a later step
// fails.
ghost use Rattle.std.specs.Prelude.{◌≡◌, ◌⊎◌, IfOk, IfErr, OnOk, OnErr, true, false};
ghost use Rattle.std.specs.FinMap.{get};
ghost use Rattle.std.specs.Option.{is_some};
ghost use Rattle.su_bytes.specs.declared.refusals.Refusal.TheVariants.{MissingBlock, NoMemory};
ghost use Rattle.su_node.specs.Field.{Field.NameOf, file_value};
ghost use Rattle.su_node.specs.InodeChange.{InodeChange.Named};
ghost use Rattle.su_table.specs.Cell.{Cell.At, Cell.Pointer, val};
ghost use Rattle.su_table.specs.Edit.{Edit.Inodes, Edit.Pointers, back, edit, restoring};
ghost use Rattle.su_table.specs.Query.{is_free_at, is_name_free_at, is_nothing};
ghost use Rattle.su_table.specs.Tree.{Tree};
ghost use Rattle.su_part.specs.Known.{Want.AnInode, Want.AName};
ghost use Rattle.su_part.specs.Part.{MeantAt, StandsJust};
ghost use Rattle.su_part_forest.specs.Forest.{Stands, HasNameAt};
ghost use Rattle.su_part_forest.specs.Known.{Want.OfUser, Want.OfGroup, Knows, StaysKnown, StaysKnownBeside};
ghost use Rattle.su_part_inverse.specs.Ready.{stood_at};

use su_bytes::{FileId, GroupFile, Name, Place, Refusal};
use su_part::PartInode;
use su_part_forest::PartForest;

/// An inode that stood at a place; what of it was left on a store is left there.
#[derive(Drop)]
pub(crate) struct KeptInode {
    pub(crate) place: Place,
    pub(crate) inode: PartInode,
}

/// Something smaller that stood in an area.
#[derive(Drop)]
pub(crate) enum Return {
    /// In the directory there the name led to the file.
    Name(Place, Name, FileId),
    /// The group file's pointer led there.
    Pointer(GroupFile, Place),
}

/// What was overwritten by something that was brought back.
#[derive(Drop)]
pub(crate) enum Overwritten {
    Name(Place, Name, Option<FileId>),
    Pointer(GroupFile, Option<Place>),
}

impl KeptInode {
    ghost use Rattle.su_part_forest.specs.Loading.{KeepsBeside};
    ghost use Rattle.su_perform.specs.Loaded.{HasArea};
    ghost use Rattle.su_part_inverse.specs.Kept.{HoldsInode, inode_area};
    ghost use Rattle.su_part_inverse.specs.Steps.{inode_edit};

    /// Puts a copy of it in the place of what stands there, which it returns. Refused with
    /// `MissingBlock` where that isn't loaded, and with `NoMemory` where memory is wanting; then
    /// the forest stands for what it stood for.
    pub(crate) fn bring_back(&self, forest: &mut PartForest) -> Result<Option<PartInode>, Refusal>
        ensures ok { (F T : Tree) → Stands forest.old F → HoldsInode T self.now
            → OnOk result (Stands forest.new (edit F (inode_edit T self.now))) }
        ensures known { (F T : Tree) → Stands forest.old F → HoldsInode T self.now
            → OnOk result (StaysKnownBeside self.now.place F (edit F (inode_edit T self.now))
            forest.old forest.new) }
        ensures added { (F T : Tree) → Stands forest.old F → HoldsInode T self.now
            → OnOk result (Knows (edit F (inode_edit T self.now))
            (OfUser self.now.place.0 (AnInode self.now.place.1)) forest.new) }
        ensures was { (F : Tree) → Stands forest.old F
            → IfOk result (λ o. StandsJust o (get F.inodes self.now.place)) }
        ensures beside { OnOk result (KeepsBeside self.now.place forest.old forest.new) }
        ensures refused { IfErr result (λ e. (e ≡ NoMemory) ⊎ (e ≡ MissingBlock)) }
        ensures loaded { (F : Tree) → Stands forest.old F
            → HasArea F forest.old (inode_area self.now) → IfErr result (λ e. e ≡ NoMemory) }
        ensures err { (F : Tree) → Stands forest.old F → OnErr result (Stands forest.new F) }
        ensures err_known { (F : Tree) → Stands forest.old F
            → OnErr result (StaysKnown F F forest.old forest.new) }
    {
        forest.exchange_inode(self.place, self.inode.copy()?)
    }
}

impl Return {
    ghost use Rattle.su_part_forest.specs.Loading.{KeepsLoaded};
    ghost use Rattle.su_perform.specs.Loaded.{HasArea};
    ghost use Rattle.su_part_inverse.specs.Kept.{return_area};
    ghost use Rattle.su_part_inverse.specs.Ready.{HasRoom, comes_with, overwritten_area, want_of};
    ghost use Rattle.su_part_inverse.specs.Steps.{name_edit, overwritten_edit};

    /// Tells whether it is a name of a place at which one of the inodes stood, and so is back once
    /// they are. Looks at each of them.
    pub(crate) fn comes_with(&self, inodes: &[KeptInode]) -> bool
        ensures { result ≡ comes_with inodes.now self.now }
    {
        match self {
            Return::Name(place, _, _) => stood_at(inodes, place),
            Return::Pointer(_, _) => false,
        }
    }

    /// Brings it back, and returns what that overwrote. Refused with `MissingBlock` where its path
    /// isn't loaded, and with `NoMemory` where memory is wanting; then the forest stands for what
    /// it stood for.
    pub(crate) fn bring_back(&self, forest: &mut PartForest) -> Result<Overwritten, Refusal>
        ensures ok { (F : Tree) → Stands forest.old F
            → OnOk result (Stands forest.new (edit F (name_edit self.now))) }
        ensures known { (F : Tree) → Stands forest.old F → OnOk result
            (StaysKnown F (edit F (name_edit self.now)) forest.old forest.new) }
        ensures added { (F : Tree) → Stands forest.old F → IfOk result (λ overwritten.
            Knows (edit F (name_edit self.now)) (want_of (overwritten_area overwritten))
            forest.new) }
        ensures overwritten { (F : Tree) → Stands forest.old F → IfOk result (λ overwritten.
            overwritten_edit overwritten ≡ back F (name_edit self.now)) }
        ensures room { (F : Tree) → Stands forest.old F → IfOk result (λ overwritten.
            HasRoom overwritten (edit F (name_edit self.now))) }
        ensures keeps { OnOk result (KeepsLoaded forest.old forest.new) }
        ensures refused { IfErr result (λ e. (e ≡ NoMemory) ⊎ (e ≡ MissingBlock)) }
        ensures loaded { (F : Tree) → Stands forest.old F
            → HasArea F forest.old (return_area self.now) → IfErr result (λ e. e ≡ NoMemory) }
        ensures err { (F : Tree) → Stands forest.old F → OnErr result (Stands forest.new F) }
        ensures err_known { (F : Tree) → Stands forest.old F
            → OnErr result (StaysKnown F F forest.old forest.new) }
    {
        match self {
            Return::Name(place, name, file) => {
                if !forest.has_name(*place, name) {
                    return Err(Refusal::MissingBlock);
                }
                let was = name_at(forest, place, name);
                let overwritten = name.clone()?;
                forest.add_name(*place, name.clone()?, *file)?;
                Ok(Overwritten::Name(*place, overwritten, was))
            }
            Return::Pointer(file, place) => {
                if !forest.has_pointer(*file) {
                    return Err(Refusal::MissingBlock);
                }
                let was = forest.body(FileId::Group(file.0, file.1));
                forest.put_pointer(*file, *place)?;
                Ok(Overwritten::Pointer(*file, was))
            }
        }
    }
}

impl Overwritten {
    ghost use Rattle.su_part_inverse.specs.Ready.{HasRoom, overwritten_area, want_of};
    ghost use Rattle.su_part_inverse.specs.Steps.{overwritten_edit};

    /// Puts it back in place of what overwrote it, which is known. Takes no memory.
    pub(crate) fn take_back(self, forest: &mut PartForest)
        ensures stands { (F : Tree) → Stands forest.old F
            → Knows F (want_of (overwritten_area self)) forest.old → HasRoom self F
            → Stands forest.new (edit F (overwritten_edit self)) }
        ensures known { (F : Tree) → Stands forest.old F
            → Knows F (want_of (overwritten_area self)) forest.old → HasRoom self F
            → StaysKnown F (edit F (overwritten_edit self)) forest.old forest.new }
    {
        match self {
            Overwritten::Name(place, name, was) => give_back_name(forest, place, name, was),
            Overwritten::Pointer(file, was) => give_back_pointer(forest, file, was),
        }
    }
}

/// Puts back what stood at `place`: an inode, or none. The inode that stands there is known. Takes
/// no memory.
pub(crate) fn give_back_inode(forest: &mut PartForest, place: Place, was: Option<PartInode>)
    ensures stands { (F G : Tree) → Stands forest.old G
        → Knows G (OfUser place.0 (AnInode place.1)) forest.old
        → StandsJust was (get F.inodes place) → MeantAt (get F.inodes place)
        → is_free_at G place ≡ false
        → Stands forest.new (edit G (Inodes place (restoring (get F.inodes place)))) }
    ensures known { (F G : Tree) → Stands forest.old G
        → Knows G (OfUser place.0 (AnInode place.1)) forest.old
        → StandsJust was (get F.inodes place) → MeantAt (get F.inodes place)
        → is_free_at G place ≡ false
        → StaysKnownBeside place G (edit G (Inodes place (restoring (get F.inodes place))))
        forest.old forest.new }
{
    match was {
        Some(inode) => {
            // an inode stands there, so without memory
            let _done = forest.exchange_inode(place, inode);
        }
        None => forest.remove_inode(place),
    }
}

/// Puts back where the name led, or removes it. The name is known. Takes no memory.
fn give_back_name(forest: &mut PartForest, place: Place, name: Name, was: Option<FileId>)
    ensures stands { (F : Tree) → Stands forest.old F
        → Knows F (OfUser place.0 (AName place.1 name)) forest.old
        → (is_some was ≡ true → is_name_free_at F place name ≡ false)
        → Stands forest.new (edit F (Inodes place (Named name was))) }
    ensures known { (F : Tree) → Stands forest.old F
        → Knows F (OfUser place.0 (AName place.1 name)) forest.old
        → (is_some was ≡ true → is_name_free_at F place name ≡ false)
        → StaysKnown F (edit F (Inodes place (Named name was))) forest.old forest.new }
{
    match was {
        Some(file) => {
            // the name is there, so without memory
            let _done = forest.add_name(place, name, file);
        }
        None => forest.remove_name(place, &name),
    }
}

/// Puts back where the pointer of the group file led, or removes it. The pointer is known. Takes no
/// memory.
fn give_back_pointer(forest: &mut PartForest, file: GroupFile, was: Option<Place>)
    ensures stands { (F : Tree) → Stands forest.old F → Knows F (OfGroup file) forest.old
        → (is_some was ≡ true → is_nothing (val F (Pointer file)) ≡ false)
        → Stands forest.new (edit F (Pointers file was)) }
    ensures known { (F : Tree) → Stands forest.old F → Knows F (OfGroup file) forest.old
        → (is_some was ≡ true → is_nothing (val F (Pointer file)) ≡ false)
        → StaysKnown F (edit F (Pointers file was)) forest.old forest.new }
{
    match was {
        Some(place) => {
            // the pointer is there, so without memory
            let _done = forest.put_pointer(file, place);
        }
        None => forest.remove_pointer(file),
    }
}

/// Tells whether one of the inodes stood at the place.
fn stood_at(inodes: &[KeptInode], place: &Place) -> bool
    ensures { result ≡ stood_at inodes.now place.now }
{
    for kept in inodes {
        if *place == kept.place {
            return true;
        }
    }
    false
}

/// Looks up where the name leads, in the directory at `place`. The name's path is loaded.
pub(crate) fn name_at(forest: &PartForest, place: &Place, name: &Name) -> Option<FileId>
    ensures { (T : Tree) → Stands forest.now T → HasNameAt place.now name.now forest.now
        → file_value result ≡ val T (At place.now (NameOf name.now)) }
{
    match forest.inode(*place) {
        Some(inode) => inode.name_find(name),
        None => None,
    }
}
