// Single edits, of which operations and undos are made.
ghost use Rattle.std.specs.Prelude.{◌≡◌, ◌⊎◌, ◌+◌, ◌*◌, ◌<◌, ◌≤◌, ◌^◌, ℕ, List, IsOk, length, Some, None, true, false, OnOk, OnErr, IfOk, IfErr};
ghost use Rattle.std.specs.FinMap.{get};
ghost use Rattle.su_bytes.specs.FileId.{is_file_id};
ghost use Rattle.su_bytes.specs.declared.refusals.Refusal.TheVariants.{MissingBlock, NoMemory};
ghost use Rattle.su_node.specs.Inode.{Inode};
ghost use Rattle.su_node.specs.InodeChange.{InodeChange.Made, InodeChange.Named, InodeChange.Linked, InodeChange.Written, InodeChange.Resized, InodeChange.Copied, InodeChange.Gone};
ghost use Rattle.su_table.specs.Cell.{Cell.Pointer, val};
ghost use Rattle.su_table.specs.Edit.{Edit.Inodes, Edit.Pointers, edit};
ghost use Rattle.su_table.specs.Query.{is_free_at, is_name_free_at, is_nothing, size_at};
ghost use Rattle.su_table.specs.Tree.{Tree};
ghost use Rattle.su_part.specs.Item.{MeantInode};
ghost use Rattle.su_part.specs.Known.{Want.AnInode, Want.AName};
ghost use Rattle.su_part.specs.Left.{AreDigestsOf};
ghost use Rattle.su_part.specs.Part.{StandsInode, StandsJust};
ghost use Rattle.su_part.specs.declared.fetches.Wanted.TheVariants.{Name as NameOf, Nothing, Write};
ghost use Rattle.su_part_forest.specs.Forest.{Stands, HasPointerAt};
ghost use Rattle.su_part_forest.specs.Known.{Want.OfUser, Want.OfGroup, HasCutAt, HasPathsAt, Knows, StaysKnown, StaysKnownBeside, StaysKnownBut};
ghost use Rattle.su_part_forest.specs.Loading.{HasAt, KeepsBeside, KeepsLoaded};

use crate::forests::PartForest;
use su_bytes::{Digest, FileId, GroupFile, Kind, Name, Place, Refusal};
use su_node::BLOCK_SIZE;
use su_part::PartInode;
use su_tree::TreeKey;

/// Edits of names and links.
impl PartForest {
    /// Makes a name of the directory at `place` lead to the file. Does nothing where no directory
    /// stands. Refused with `MissingBlock` where the inode or the name's path isn't loaded, and
    /// with `NoMemory` where memory is wanting, which only a name takes that isn't there; then the
    /// forest stands for what it stood for. What was loaded is loaded, what was known stays known,
    /// and the name is known then.
    pub fn add_name(&mut self, place: Place, name: Name, file: FileId) -> Result<(), Refusal>
        ensures ok { (T : Tree) → Stands self.old T
            → OnOk result (Stands self.new (edit T (Inodes place (Named name (Some file))))) }
        ensures known { (T : Tree) → Stands self.old T → OnOk result (StaysKnown T
            (edit T (Inodes place (Named name (Some file)))) self.old self.new) }
        ensures added { (T : Tree) → Stands self.old T → OnOk result
            (Knows (edit T (Inodes place (Named name (Some file))))
            (OfUser place.0 (AName place.1 name)) self.new) }
        ensures succeeds { (T : Tree) → Stands self.old T
            → Knows T (OfUser place.0 (AName place.1 name)) self.old
            → is_name_free_at T place name ≡ false → IsOk result }
        ensures refused { IfErr result (λ e. (e ≡ NoMemory) ⊎ (e ≡ MissingBlock)) }
        ensures loaded { (T : Tree) → Stands self.old T → HasAt place (NameOf name) self.old
            → IfErr result (λ e. e ≡ NoMemory) }
        ensures absent { (T : Tree) → Stands self.old T → HasAt place (NameOf name) self.old
            → OnErr result (is_name_free_at T place name ≡ true) }
        ensures err { (T : Tree) → Stands self.old T → OnErr result (Stands self.new T) }
        ensures err_known { (T : Tree) → Stands self.old T
            → OnErr result (StaysKnown T T self.old self.new) }
        ensures keeps { KeepsLoaded self.old self.new }
    {
        let (user, number) = place;
        // names the ranges for the prover (docs/ARCHITECTURE.md, "Forms the kit wants")
        let _number = number.number();
        let _bytes = name.byte_count();
        name_range(&file);
        match self.users.get_mut(usize::from(user.number())) {
            Some(part) => {
                if !part.has_name(number, &name) {
                    return Err(Refusal::MissingBlock);
                }
                part.add_name(number, name, file)
            }
            None => Ok(()),
        }
    }

    /// Takes a name away from the directory at `place`. The name is known. Does nothing where no
    /// directory stands. What was known stays known. It takes no memory.
    pub fn remove_name(&mut self, place: Place, name: &Name)
        ensures stands { (T : Tree) → Stands self.old T
            → Knows T (OfUser place.0 (AName place.1 name.now)) self.old
            → Stands self.new (edit T (Inodes place (Named name.now None))) }
        ensures known { (T : Tree) → Stands self.old T
            → Knows T (OfUser place.0 (AName place.1 name.now)) self.old
            → StaysKnown T (edit T (Inodes place (Named name.now None))) self.old self.new }
    {
        let (user, number) = place;
        match self.users.get_mut(usize::from(user.number())) {
            Some(part) => part.remove_name(number, name),
            None => {}
        }
    }

    /// Sets how many names lead to the inode at `place`, which is known. Does nothing where none
    /// stands. What was known stays known, and what was loaded is loaded. It takes no memory.
    pub fn set_links(&mut self, place: Place, links: u8)
        ensures stands { (T : Tree) → Stands self.old T
            → Knows T (OfUser place.0 (AnInode place.1)) self.old
            → Stands self.new (edit T (Inodes place (Linked links))) }
        ensures known { (T : Tree) → Stands self.old T
            → Knows T (OfUser place.0 (AnInode place.1)) self.old
            → StaysKnown T (edit T (Inodes place (Linked links))) self.old self.new }
        ensures keeps { KeepsLoaded self.old self.new }
    {
        let (user, number) = place;
        match self.users.get_mut(usize::from(user.number())) {
            Some(part) => part.set_links(number, links),
            None => {}
        }
    }
}

/// Edits of whole inodes.
impl PartForest {
    /// Makes a new inode at `place` in the place of what stands there: empty, with one link.
    /// Refused with `MissingBlock` where what stands there isn't loaded, and with `NoMemory` where
    /// memory is wanting, which only an inode takes where none stands; then the forest stands for
    /// what it stood for. What was known stays known, and the inode is known then; where none stood
    /// there, what was loaded is loaded.
    pub fn make_inode(&mut self, place: Place, home: FileId, kind: Kind) -> Result<(), Refusal>
        ensures ok { (T : Tree) → Stands self.old T
            → OnOk result (Stands self.new (edit T (Inodes place (Made home kind)))) }
        ensures known { (T : Tree) → Stands self.old T → OnOk result
            (StaysKnown T (edit T (Inodes place (Made home kind))) self.old self.new) }
        ensures added { (T : Tree) → Stands self.old T → OnOk result
            (Knows (edit T (Inodes place (Made home kind)))
            (OfUser place.0 (AnInode place.1)) self.new) }
        ensures refused { IfErr result (λ e. (e ≡ NoMemory) ⊎ (e ≡ MissingBlock)) }
        ensures loaded { (T : Tree) → Stands self.old T → HasAt place Nothing self.old
            → IfErr result (λ e. e ≡ NoMemory) }
        ensures absent { (T : Tree) → Stands self.old T → HasAt place Nothing self.old
            → OnErr result (is_free_at T place ≡ true) }
        ensures err { (T : Tree) → Stands self.old T → OnErr result (Stands self.new T) }
        ensures err_known { (T : Tree) → Stands self.old T
            → OnErr result (StaysKnown T T self.old self.new) }
        ensures err_keeps { OnErr result (KeepsLoaded self.old self.new) }
        ensures keeps { (T : Tree) → Stands self.old T → is_free_at T place ≡ true
            → KeepsLoaded self.old self.new }
    {
        let (user, number) = place;
        // names the ranges for the prover (docs/ARCHITECTURE.md, "Forms the kit wants")
        let _number = number.number();
        name_range(&home);
        match self.users.get_mut(usize::from(user.number())) {
            Some(part) => {
                if !part.has_inode(number) {
                    return Err(Refusal::MissingBlock);
                }
                part.make_inode(number, home, kind)
            }
            None => Ok(()),
        }
    }

    /// Puts an inode at `place`, and returns what stood there. Refused with `MissingBlock` where
    /// what stands there isn't loaded, and with `NoMemory` where memory is wanting, which only an
    /// inode takes where none stands; then the forest stands for what it stood for. What was known
    /// stays known, but for the names and the blocks of what stood there, and the inode is known
    /// then; what was loaded is loaded, but for the content of what stood there.
    pub fn exchange_inode(
        &mut self,
        place: Place,
        inode: PartInode,
    ) -> Result<Option<PartInode>, Refusal>
        ensures ok { (T : Tree) (i : Inode) → Stands self.old T → StandsInode inode i
            → MeantInode i
            → OnOk result (Stands self.new (edit T (Inodes place (Copied i)))) }
        ensures known { (T : Tree) (i : Inode) → Stands self.old T → StandsInode inode i
            → MeantInode i → OnOk result
            (StaysKnownBeside place T (edit T (Inodes place (Copied i))) self.old self.new) }
        ensures added { (T : Tree) (i : Inode) → Stands self.old T → StandsInode inode i
            → MeantInode i → OnOk result
            (Knows (edit T (Inodes place (Copied i))) (OfUser place.0 (AnInode place.1))
            self.new) }
        ensures succeeds { (T : Tree) → Stands self.old T
            → Knows T (OfUser place.0 (AnInode place.1)) self.old
            → is_free_at T place ≡ false → IsOk result }
        ensures was { (T : Tree) → Stands self.old T
            → IfOk result (λ o. StandsJust o (get T.inodes place)) }
        ensures refused { IfErr result (λ e. (e ≡ NoMemory) ⊎ (e ≡ MissingBlock)) }
        ensures loaded { (T : Tree) → Stands self.old T → HasAt place Nothing self.old
            → IfErr result (λ e. e ≡ NoMemory) }
        ensures absent { (T : Tree) → Stands self.old T → HasAt place Nothing self.old
            → OnErr result (is_free_at T place ≡ true) }
        ensures err { (T : Tree) → Stands self.old T → OnErr result (Stands self.new T) }
        ensures err_known { (T : Tree) → Stands self.old T
            → OnErr result (StaysKnown T T self.old self.new) }
        ensures err_keeps { OnErr result (KeepsLoaded self.old self.new) }
        ensures keeps { (T : Tree) → Stands self.old T → is_free_at T place ≡ true
            → KeepsLoaded self.old self.new }
        ensures beside { OnOk result (KeepsBeside place self.old self.new) }
    {
        let (user, number) = place;
        // names the number's range for the prover (docs/ARCHITECTURE.md, "Forms the kit wants")
        let _number = number.number();
        match self.users.get_mut(usize::from(user.number())) {
            Some(part) => {
                if !part.has_inode(number) {
                    return Err(Refusal::MissingBlock);
                }
                part.exchange_inode(number, inode)
            }
            None => Ok(None),
        }
    }

    /// Takes away the inode at `place`, which is known, if one stands there. What was known stays
    /// known. It takes no memory.
    pub fn remove_inode(&mut self, place: Place)
        ensures stands { (T : Tree) → Stands self.old T
            → Knows T (OfUser place.0 (AnInode place.1)) self.old
            → Stands self.new (edit T (Inodes place Gone)) }
        ensures known { (T : Tree) → Stands self.old T
            → Knows T (OfUser place.0 (AnInode place.1)) self.old
            → StaysKnown T (edit T (Inodes place Gone)) self.old self.new }
    {
        let (user, number) = place;
        match self.users.get_mut(usize::from(user.number())) {
            Some(part) => {
                let _removed = part.take_inode(number);
            }
            None => {}
        }
    }
}

/// Edits of pointers.
impl PartForest {
    /// Points a group file at a place. Refused with `MissingBlock` where the pointer's path isn't
    /// loaded, and with `NoMemory` where memory is wanting, which only a pointer takes that isn't
    /// there; then the forest stands for what it stood for. What was loaded is loaded, what was
    /// known stays known, and the pointer is known then.
    pub fn put_pointer(&mut self, file: GroupFile, place: Place) -> Result<(), Refusal>
        ensures ok { (T : Tree) → Stands self.old T
            → OnOk result (Stands self.new (edit T (Pointers file (Some place)))) }
        ensures known { (T : Tree) → Stands self.old T → OnOk result
            (StaysKnown T (edit T (Pointers file (Some place))) self.old self.new) }
        ensures added { (T : Tree) → Stands self.old T → OnOk result
            (Knows (edit T (Pointers file (Some place))) (OfGroup file) self.new) }
        ensures succeeds { (T : Tree) → Stands self.old T → Knows T (OfGroup file) self.old
            → is_nothing (val T (Pointer file)) ≡ false → IsOk result }
        ensures refused { IfErr result (λ e. (e ≡ NoMemory) ⊎ (e ≡ MissingBlock)) }
        ensures loaded { HasPointerAt file self.old → IfErr result (λ e. e ≡ NoMemory) }
        ensures absent { (T : Tree) → Stands self.old T → HasPointerAt file self.old
            → OnErr result (is_nothing (val T (Pointer file)) ≡ true) }
        ensures err { (T : Tree) → Stands self.old T → OnErr result (Stands self.new T) }
        ensures err_known { (T : Tree) → Stands self.old T
            → OnErr result (StaysKnown T T self.old self.new) }
        ensures keeps { KeepsLoaded self.old self.new }
    {
        let (group, number) = file;
        match self.groups.get_mut(usize::from(group.number())) {
            Some(part) => {
                if !part.has_pointer(number) {
                    return Err(Refusal::MissingBlock);
                }
                part.put_pointer(number, place)
            }
            None => Ok(()),
        }
    }

    /// Removes the pointer of a group file, which is known, if there is one. What was known stays
    /// known. It takes no memory.
    pub fn remove_pointer(&mut self, file: GroupFile)
        ensures stands { (T : Tree) → Stands self.old T → Knows T (OfGroup file) self.old
            → Stands self.new (edit T (Pointers file None)) }
        ensures known { (T : Tree) → Stands self.old T → Knows T (OfGroup file) self.old
            → StaysKnown T (edit T (Pointers file None)) self.old self.new }
    {
        let (group, number) = file;
        match self.groups.get_mut(usize::from(group.number())) {
            Some(part) => part.remove_pointer(number),
            None => {}
        }
    }
}

/// Edits of files.
impl PartForest {
    /// Writes bytes into the file at `place` from an offset on, and fills a gap before them with
    /// zeros. Does nothing where no file stands. Refused with `MissingBlock` where what the write
    /// needs isn't loaded, and with `NoMemory` where memory is wanting, which only a file takes
    /// that grows; then the forest stands for what it stood for. What was known stays known, and
    /// where the file doesn't grow, what was loaded is loaded.
    pub fn write_at(&mut self, place: Place, off: u32, bytes: &[u8]) -> Result<(), Refusal>
        requires small { off + length bytes.now < 2 ^ 32 }
        ensures ok { (T : Tree) → Stands self.old T → OnOk result (Stands self.new
            (edit T (Inodes place (Written (size_at T place) off bytes.now)))) }
        ensures known { (T : Tree) → Stands self.old T → OnOk result (StaysKnown T
            (edit T (Inodes place (Written (size_at T place) off bytes.now)))
            self.old self.new) }
        ensures refused { IfErr result (λ e. (e ≡ NoMemory) ⊎ (e ≡ MissingBlock)) }
        ensures loaded { (T : Tree) → Stands self.old T
            → HasAt place (Write off (length bytes.now)) self.old
            → IfErr result (λ e. e ≡ NoMemory) }
        ensures succeeds { (T : Tree) → Stands self.old T
            → HasAt place (Write off (length bytes.now)) self.old
            → off + length bytes.now ≤ size_at T place → IsOk result }
        ensures err { (T : Tree) → Stands self.old T → OnErr result (Stands self.new T) }
        ensures err_known { (T : Tree) → Stands self.old T
            → OnErr result (StaysKnown T T self.old self.new) }
        ensures err_keeps { OnErr result (KeepsLoaded self.old self.new) }
        ensures keeps { (T : Tree) → Stands self.old T
            → off + length bytes.now ≤ size_at T place → KeepsLoaded self.old self.new }
    {
        let (user, number) = place;
        // names the number's range for the prover (docs/ARCHITECTURE.md, "Forms the kit wants")
        let _number = number.number();
        match self.users.get_mut(usize::from(user.number())) {
            Some(part) => {
                if !part.has_write(number, off, bytes.len() as u32) {
                    return Err(Refusal::MissingBlock);
                }
                part.write_at(number, off, bytes)
            }
            None => Ok(()),
        }
    }

    /// Puts blocks that are left on the store into the file at `place`, in the place of those from
    /// number `first` on: of each its digest. Does nothing where no file stands. Refused with
    /// `MissingBlock` where what stands there or the path of one of these numbers isn't loaded; then
    /// the forest stands for what it stood for. What was known stays known, but for these blocks,
    /// of which the paths do. It takes no memory.
    pub fn put_left(&mut self, place: Place, first: u32, digests: &[Digest]) -> Result<(), Refusal>
        requires small { first + length digests.now < 2 ^ 32 }
        ensures ok { (T : Tree) (xs : List ℕ) → Stands self.old T
            → BLOCK_SIZE * first + length xs ≤ size_at T place
            → AreDigestsOf first xs (get T.inodes place) digests.now
            → OnOk result (Stands self.new (edit T (Inodes place
            (Written (size_at T place) (BLOCK_SIZE * first) xs)))) }
        ensures known { (T : Tree) (xs : List ℕ) → Stands self.old T
            → BLOCK_SIZE * first + length xs ≤ size_at T place
            → OnOk result (StaysKnownBut place first (first + length digests.now) T
            (edit T (Inodes place (Written (size_at T place) (BLOCK_SIZE * first) xs)))
            self.old self.new) }
        ensures refused { IfErr result (λ e. e ≡ MissingBlock) }
        ensures succeeds { (T : Tree) → Stands self.old T
            → HasPathsAt place first (first + length digests.now) self.old → IsOk result }
        ensures err { (T : Tree) → Stands self.old T → OnErr result (Stands self.new T) }
        ensures err_known { (T : Tree) → Stands self.old T
            → OnErr result (StaysKnown T T self.old self.new) }
        ensures err_keeps { OnErr result (KeepsLoaded self.old self.new) }
    {
        let (user, number) = place;
        // names the number's range for the prover (docs/ARCHITECTURE.md, "Forms the kit wants")
        let _number = number.number();
        match self.users.get_mut(usize::from(user.number())) {
            Some(part) => {
                if !part.has_paths(number, first, first + digests.len() as u32) {
                    return Err(Refusal::MissingBlock);
                }
                part.put_left(number, first, digests);
                Ok(())
            }
            None => Ok(()),
        }
    }

    /// Fills the file at `place` with zeros up to a size in bytes, which is not below its own. Does
    /// nothing where no file stands. Refused with `MissingBlock` where what a write of no bytes at
    /// that offset needs isn't loaded, and with `NoMemory` where memory is wanting; then the forest
    /// stands for what it stood for. What was known stays known, what was loaded is loaded, but for
    /// blocks of the file, and what a cut to the size before needs is loaded then.
    pub fn grow(&mut self, place: Place, size: u32) -> Result<(), Refusal>
        ensures ok { (T : Tree) → Stands self.old T → size_at T place ≤ size
            → OnOk result (Stands self.new
            (edit T (Inodes place (Resized (size_at T place) size)))) }
        ensures known { (T : Tree) → Stands self.old T → size_at T place ≤ size
            → OnOk result (StaysKnown T
            (edit T (Inodes place (Resized (size_at T place) size))) self.old self.new) }
        ensures cuts { (T : Tree) → Stands self.old T → size_at T place ≤ size
            → OnOk result (HasCutAt place (size_at T place) self.new) }
        ensures refused { IfErr result (λ e. (e ≡ NoMemory) ⊎ (e ≡ MissingBlock)) }
        ensures loaded { (T : Tree) → Stands self.old T → HasAt place (Write size 0) self.old
            → IfErr result (λ e. e ≡ NoMemory) }
        ensures err { (T : Tree) → Stands self.old T → OnErr result (Stands self.new T) }
        ensures err_known { (T : Tree) → Stands self.old T
            → OnErr result (StaysKnown T T self.old self.new) }
        ensures err_keeps { OnErr result (KeepsLoaded self.old self.new) }
        ensures beside { OnOk result (KeepsBeside place self.old self.new) }
    {
        let (user, number) = place;
        // names the number's range for the prover (docs/ARCHITECTURE.md, "Forms the kit wants")
        let _number = number.number();
        match self.users.get_mut(usize::from(user.number())) {
            Some(part) => {
                if !part.has_write(number, size, 0) {
                    return Err(Refusal::MissingBlock);
                }
                part.grow(number, size)
            }
            None => Ok(()),
        }
    }

    /// Cuts the file at `place` to a size in bytes, which is not above its own. What the cut needs
    /// is loaded; where it isn't, nothing is done. Does nothing where no file stands. What was
    /// known stays known. It takes no memory.
    pub fn cut(&mut self, place: Place, size: u32)
        ensures stands { (T : Tree) → Stands self.old T → HasCutAt place size self.old
            → size ≤ size_at T place
            → Stands self.new (edit T (Inodes place (Resized (size_at T place) size))) }
        ensures known { (T : Tree) → Stands self.old T → HasCutAt place size self.old
            → size ≤ size_at T place → StaysKnown T
            (edit T (Inodes place (Resized (size_at T place) size))) self.old self.new }
    {
        let (user, number) = place;
        // names the number's range for the prover (docs/ARCHITECTURE.md, "Forms the kit wants")
        let _number = number.number();
        match self.users.get_mut(usize::from(user.number())) {
            Some(part) => {
                if part.has_cut(number, size) {
                    part.cut(number, size);
                }
            }
            None => {}
        }
    }
}

/// Does nothing: it names the ranges of a file id's numbers for the prover
/// (docs/ARCHITECTURE.md, "Forms the kit wants").
fn name_range(file: &FileId)
    ensures { is_file_id file.now ≡ true }
{
    match file {
        FileId::User(user, number) => {
            let (_user, _number) = (user.number(), number.number());
        }
        FileId::Group(group, number) => {
            let (_group, _number) = (group.number(), number.number());
        }
    }
}
