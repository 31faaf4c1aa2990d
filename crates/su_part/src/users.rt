// A user's i-table of which parts may be left on a store.
ghost use Rattle.std.specs.Prelude.{false, ◌≡◌, ◌≢◌, ◌⊎◌, IsSome, ◌&&◌, ◌+◌, ◌<◌, ◌≤◌, ◌^◌, ℕ, List, length, IsTrue, true, Err, OnOk, OnErr, IfOk, IfErr, IsOk, Some, None, option_map, option_copied};
ghost use Rattle.su_bytes.specs.FileId.{is_file_id};
ghost use Rattle.su_bytes.specs.Name.{is_name};
ghost use Rattle.std.specs.BTreeMap.{is_at};
ghost use Rattle.std.specs.FinMap.{get};
ghost use Rattle.std.specs.Ordering.{nat_cmp};
ghost use Rattle.su_node.specs.Inode.{Inode, bytes_of, within, names_of};
ghost use Rattle.su_node.specs.InodeChange.{InodeChange.Made, InodeChange.Named, InodeChange.Linked, InodeChange.Written, InodeChange.Resized, InodeChange.Copied, InodeChange.Gone};
ghost use Rattle.su_node.specs.Field.{Field.NameOf, Value.Nothing, file_value};
ghost use Rattle.su_table.specs.Cell.{Cell.At, val};
ghost use Rattle.su_table.specs.Edit.{Edit.Inodes, edit};
ghost use Rattle.su_bytes.specs.declared.refusals.Refusal.TheVariants.{NoMemory};
ghost use Rattle.su_bytes.specs.declared.principals.Principal.TheVariants.{User};
ghost use Rattle.su_table.specs.Handle.{handle};
ghost use Rattle.su_table.specs.Query.{size_at, is_bare_at};
ghost use Rattle.su_table.specs.Tree.{Tree};
ghost use Rattle.su_part.specs.Item.{MeantInode};
ghost use Rattle.su_part.specs.Known.{HasIfLoaded, KnowsInode, KnowsName, StaysKnown};
ghost use Rattle.su_part_tree.specs.Part.{reaches};
ghost use Rattle.su_tree.specs.Number.{number_bits};
ghost use Rattle.su_part.specs.Part.{IsAllIn, MeantUser, StandsInode, StandsJust, StandsUser, Free, HasAll, HasInode, HasName, HasNameAt, HasRootAt, HasNamesAt, HasWriteOf, HasBlocksAt, HasBytesAt, HasWriteAt, IsOpenAt, IsThere, StaysLoaded, at_number};
ghost use Rattle.su_part.specs.Fetches.{LoadsUser};

use crate::fetches::Wanted;
use crate::inodes::PartInode;
use std::alloc::Global;
use std::collections::BTreeMap;
use su_block::BlockSource;
use su_bytes::{Digest, FileId, Inum, Kind, Name, Refusal};
use su_part_tree::PartTree;

/// A user's i-table, and those of the user's inodes that are loaded.
#[derive(Drop)]
pub struct UserPart {
    pub(crate) table: PartTree<u32, Digest>,
    pub(crate) inodes: BTreeMap<u32, PartInode>,
    pub(crate) alloc: Global,
}

impl UserPart {
    /// Makes the part of which only the i-handle is known: all else is left on the store.
    pub fn stub(alloc: Global, i_handle: Digest) -> UserPart
        ensures { (u : ℕ) (T : Tree) → MeantUser u T → i_handle ≡ handle T (User u)
            → StandsUser u result T }
    {
        UserPart {
            table: PartTree::stub(alloc, i_handle),
            inodes: BTreeMap::new(alloc),
            alloc,
        }
    }

    /// Returns the user's i-handle. It makes no hash.
    pub fn i_handle(&self) -> Digest
        ensures { (u : ℕ) (T : Tree) → StandsUser u self.now T
            → result ≡ handle T (User u) }
    {
        self.table.digest()
    }

    /// Returns the inode of a number, which is loaded, if one stands there.
    pub fn inode(&self, number: Inum) -> Option<&PartInode>
        ensures { (u : ℕ) (T : Tree) → StandsUser u self.now T → IsThere u T number self.now
            → StandsJust (option_copied result) (get T.inodes (u, number)) }
    {
        self.inodes.get(&number.number())
    }
}

impl UserPart {
    /// Makes a name of the directory of a number lead to the file. What it needs is loaded. Does
    /// nothing where no directory stands. Fails only with `NoMemory`; then it stands for what it
    /// stood for, and what was loaded is loaded.
    pub fn add_name(&mut self, number: Inum, name: Name, file: FileId) -> Result<(), Refusal>
        requires loaded { IsOpenAt number (HasName name) self.old }
        requires meant { IsTrue (is_name name && is_file_id file) }
        ensures ok { (u : ℕ) (T : Tree) → StandsUser u self.old T → IsThere u T number self.old
            → OnOk result (StandsUser u self.new
            (edit T (Inodes (u, number) (Named name (Some file))))) }
        ensures stays { OnOk result (StaysLoaded number self.old self.new) }
        ensures known { (u : ℕ) (T : Tree) → StandsUser u self.old T → IsThere u T number self.old
            → OnOk result (StaysKnown u T
            (edit T (Inodes (u, number) (Named name (Some file)))) self.old self.new) }
        ensures refused { IfErr result (λ e. e ≡ NoMemory) }
        ensures err { (u : ℕ) (T : Tree) → StandsUser u self.old T
            → OnErr result (StandsUser u self.new T) }
        ensures absent { (u : ℕ) (T : Tree) → StandsUser u self.old T
            → OnErr result (val T (At (u, number) (NameOf name)) ≡ Nothing) }
        ensures keeps { HasAll self.old self.new }
    {
        let key = number.number();
        if let Some(inode) = self.inodes.get_mut(&key) {
            inode.name_set(name, file)?;
            let digest = inode.digest();
            // the number is there, so without memory
            let _done = self.table.put(key, digest);
        }
        Ok(())
    }
}

impl UserPart {
    /// Takes a name away from the directory of a number. The name is known. Does nothing where no
    /// directory stands. What was known stays known. It takes no memory.
    pub fn remove_name(&mut self, number: Inum, name: &Name)
        ensures stands { (u : ℕ) (T : Tree) → StandsUser u self.old T
            → KnowsName u T number name.now self.old
            → StandsUser u self.new (edit T (Inodes (u, number) (Named name.now None))) }
        ensures known { (u : ℕ) (T : Tree) → StandsUser u self.old T
            → KnowsName u T number name.now self.old
            → StaysKnown u T (edit T (Inodes (u, number) (Named name.now None)))
            self.old self.new }
        ensures stays { StaysLoaded number self.old self.new }
    {
        let key = number.number();
        if let Some(inode) = self.inodes.get_mut(&key) {
            inode.name_remove(name);
            let digest = inode.digest();
            self.table.set(key, digest);
        }
    }

    /// Sets how many names lead to the inode of a number, which is known. Does nothing where none
    /// stands. It takes no memory.
    pub fn set_links(&mut self, number: Inum, links: u8)
        ensures stands { (u : ℕ) (T : Tree) → StandsUser u self.old T
            → KnowsInode u T number self.old
            → StandsUser u self.new (edit T (Inodes (u, number) (Linked links))) }
        ensures known { (u : ℕ) (T : Tree) → StandsUser u self.old T
            → KnowsInode u T number self.old
            → StaysKnown u T (edit T (Inodes (u, number) (Linked links))) self.old self.new }
        ensures stays { StaysLoaded number self.old self.new }
        ensures keeps { HasAll self.old self.new }
    {
        let key = number.number();
        if let Some(inode) = self.inodes.get_mut(&key) {
            inode.set_links(links);
            let digest = inode.digest();
            self.table.set(key, digest);
        }
    }

    /// Writes bytes into the file of a number, which is known, from an offset on, and fills a gap
    /// before them with zeros. What it needs of the file is loaded. Does nothing where no file
    /// stands. Fails only with `NoMemory`, and only where the file grows; then it stands for what it
    /// stood for, and what was loaded is loaded.
    pub fn write_at(&mut self, number: Inum, off: u32, bytes: &[u8]) -> Result<(), Refusal>
        requires small { off + length bytes.now < 2 ^ 32 }
        requires loaded { HasIfLoaded number (HasWriteOf off (length bytes.now)) self.old }
        ensures ok { (u : ℕ) (T : Tree) → StandsUser u self.old T → KnowsInode u T number self.old
            → OnOk result (StandsUser u self.new (edit T (Inodes (u, number)
            (Written (size_at T (u, number)) off bytes.now)))) }
        ensures stays { OnOk result (StaysLoaded number self.old self.new) }
        ensures known { (u : ℕ) (T : Tree) → StandsUser u self.old T
            → KnowsInode u T number self.old
            → OnOk result (StaysKnown u T (edit T (Inodes (u, number)
            (Written (size_at T (u, number)) off bytes.now))) self.old self.new) }
        ensures succeeds { (u : ℕ) (T : Tree) → StandsUser u self.old T
            → off + length bytes.now ≤ size_at T (u, number) → IsOk result }
        ensures all { (u : ℕ) (T : Tree) → StandsUser u self.old T
            → off + length bytes.now ≤ size_at T (u, number) → HasAll self.old self.new }
        ensures refused { IfErr result (λ e. e ≡ NoMemory) }
        ensures err { (u : ℕ) (T : Tree) → StandsUser u self.old T
            → OnErr result (StandsUser u self.new T) }
        ensures keeps { OnErr result (HasAll self.old self.new) }
    {
        let key = number.number();
        if let Some(inode) = self.inodes.get_mut(&key) {
            inode.write_at(off, bytes)?;
            let digest = inode.digest();
            self.table.set(key, digest);
        }
        Ok(())
    }

    /// Fills the file of a number with zeros up to a size in bytes, which is not below its own.
    /// The number is known, and what a write of no bytes at that offset needs is loaded. Does
    /// nothing where no file stands. Fails only with `NoMemory`; then it stands for what it stood
    /// for, and what was loaded is loaded.
    pub fn grow(&mut self, number: Inum, size: u32) -> Result<(), Refusal>
        requires { HasIfLoaded number (HasWriteOf size 0) self.old }
        ensures ok { (u : ℕ) (T : Tree) → StandsUser u self.old T → KnowsInode u T number self.old
            → size_at T (u, number) ≤ size
            → OnOk result (StandsUser u self.new (edit T (Inodes (u, number)
            (Resized (size_at T (u, number)) size)))) }
        ensures stays { OnOk result (StaysLoaded number self.old self.new) }
        ensures known { (u : ℕ) (T : Tree) → StandsUser u self.old T
            → KnowsInode u T number self.old → size_at T (u, number) ≤ size
            → OnOk result (StaysKnown u T
            (edit T (Inodes (u, number) (Resized (size_at T (u, number)) size)))
            self.old self.new) }
        ensures refused { IfErr result (λ e. e ≡ NoMemory) }
        ensures err { (u : ℕ) (T : Tree) → StandsUser u self.old T
            → OnErr result (StandsUser u self.new T) }
        ensures keeps { OnErr result (HasAll self.old self.new) }
    {
        self.write_at(number, size, &[])
    }

    /// Puts an inode at a number in the place of what stands there. The number's path is loaded, or
    /// its inode is and it is known. Fails only with `NoMemory`, and only where nothing stands there;
    /// then it stands for what it stood for, and what was loaded is loaded.
    pub fn put_inode(&mut self, number: Inum, inode: PartInode) -> Result<(), Refusal>
        requires { IsSome (at_number self.old.inodes.entries number)
            ⊎ IsTrue (reaches number_bits number self.old.table) }
        ensures ok { (u : ℕ) (T : Tree) (i : Inode) → StandsUser u self.old T
            → KnowsInode u T number self.old → StandsInode inode i → MeantInode i
            → OnOk result (StandsUser u self.new (edit T (Inodes (u, number) (Copied i)))) }
        ensures there { OnOk result (at_number self.new.inodes.entries number ≡ Some inode) }
        ensures stays { OnOk result (StaysLoaded number self.old self.new) }
        ensures refused { IfErr result (λ e. e ≡ NoMemory) }
        ensures err { (u : ℕ) (T : Tree) → StandsUser u self.old T
            → OnErr result (StandsUser u self.new T) }
        ensures absent { (u : ℕ) (T : Tree) → StandsUser u self.old T → IsThere u T number self.old
            → OnErr result (get T.inodes (u, number) ≡ None) }
        ensures keeps { OnErr result (HasAll self.old self.new) }
    {
        self.exchange_inode(number, inode)?;
        Ok(())
    }

    /// Makes a new inode of a number in the place of what stands there: empty, with one link. All of
    /// it is loaded. The number's path is loaded, or its inode is and it is known. Fails only with
    /// `NoMemory`, and only where nothing stands there; then it stands for what it stood for, and
    /// what was loaded is loaded.
    pub fn make_inode(&mut self, number: Inum, home: FileId, kind: Kind) -> Result<(), Refusal>
        requires path { IsSome (at_number self.old.inodes.entries number)
            ⊎ IsTrue (reaches number_bits number self.old.table) }
        requires meant { IsTrue (is_file_id home) }
        ensures ok { (u : ℕ) (T : Tree) → StandsUser u self.old T → KnowsInode u T number self.old
            → OnOk result (StandsUser u self.new (edit T (Inodes (u, number) (Made home kind)))) }
        ensures there { OnOk result (IsSome (at_number self.new.inodes.entries number)) }
        ensures all { OnOk result (HasIfLoaded number (λ i. IsAllIn i.content) self.new) }
        ensures stays { OnOk result (StaysLoaded number self.old self.new) }
        ensures refused { IfErr result (λ e. e ≡ NoMemory) }
        ensures err { (u : ℕ) (T : Tree) → StandsUser u self.old T
            → OnErr result (StandsUser u self.new T) }
        ensures absent { (u : ℕ) (T : Tree) → StandsUser u self.old T → IsThere u T number self.old
            → OnErr result (get T.inodes (u, number) ≡ None) }
        ensures keeps { OnErr result (HasAll self.old self.new) }
    {
        let inode = PartInode::new(self.alloc, home, kind);
        self.put_inode(number, inode)
    }

    /// Takes out the inode of a number, which is known, if one stands there. What was known stays
    /// known. It takes no memory.
    pub fn take_inode(&mut self, number: Inum) -> Option<PartInode>
        ensures value { (u : ℕ) (T : Tree) → StandsUser u self.old T → IsThere u T number self.old
            → StandsJust result (get T.inodes (u, number)) }
        ensures stands { (u : ℕ) (T : Tree) → StandsUser u self.old T
            → KnowsInode u T number self.old
            → StandsUser u self.new (edit T (Inodes (u, number) Gone)) }
        ensures known { (u : ℕ) (T : Tree) → StandsUser u self.old T
            → KnowsInode u T number self.old
            → StaysKnown u T (edit T (Inodes (u, number) Gone)) self.old self.new }
        ensures others { (m : ℕ) → is_at (nat_cmp number) m ≡ false
            → at_number self.new.inodes.entries m ≡ at_number self.old.inodes.entries m }
        ensures paths { (u : ℕ) (T : Tree) → StandsUser u self.old T
            → KnowsInode u T number self.old → (m : ℕ) → m < 2 ^ 32
            → is_at (nat_cmp number) m ≡ false → get T.inodes (u, m) ≢ None
            → IsTrue (reaches number_bits m self.old.table)
            → IsTrue (reaches number_bits m self.new.table) }
    {
        let key = number.number();
        self.table.take(&key);
        self.inodes.remove(&key)
    }
}

impl UserPart {
    /// Looks up where a name of the directory of a number leads; nowhere where no directory stands,
    /// or it lacks the name. Loads what it needs, and is refused as `fetch` is.
    pub fn name_at<S: BlockSource>(
        &mut self,
        number: Inum,
        name: &Name,
        source: &mut S,
    ) -> Result<Option<FileId>, Refusal>
        requires { S.is_checked ≡ true }
        ensures value { (u : ℕ) (T : Tree) → StandsUser u self.old T
            → Free u T (S.may_give source.old)
            → IfOk result (λ o. file_value o ≡ val T (At (u, number) (NameOf name.now))) }
        ensures loads { LoadsUser S.may_give S.failed S.follows self.old self.new
            source.old source.new result }
    {
        let wanted = Wanted::Name(name.clone()?);
        self.fetch(number, &wanted, source)?;
        match self.inodes.get(&number.number()) {
            Some(inode) => Ok(inode.name_get(name)),
            None => Ok(None),
        }
    }

    /// Reads the bytes of the file of a number within a range, which may reach past the end; none
    /// where no file stands. Loads what it needs, and is refused as `fetch` is.
    pub fn read_at<S: BlockSource>(
        &mut self,
        number: Inum,
        off: u64,
        len: u64,
        source: &mut S,
    ) -> Result<Option<Vec<u8>>, Refusal>
        requires { S.is_checked ≡ true }
        ensures value { (u : ℕ) (T : Tree) → StandsUser u self.old T
            → Free u T (S.may_give source.old)
            → IfOk result (λ bytes. option_map (λ v. v.items) bytes
            ≡ option_map (within off len) (bytes_of (get T.inodes (u, number)))) }
        ensures loads { LoadsUser S.may_give S.failed S.follows self.old self.new
            source.old source.new result }
    {
        self.fetch(number, &Wanted::Bytes { off, len }, source)?;
        match self.inodes.get(&number.number()) {
            Some(inode) => inode.read_at(off, len),
            None => Ok(None),
        }
    }
}

impl UserPart {
    /// Tells whether the directory of a number has no names; so is a file, and a number where
    /// nothing stands. Loads what it needs, and is refused as `fetch` is.
    pub fn is_bare<S: BlockSource>(&mut self, number: Inum, source: &mut S) -> Result<bool, Refusal>
        requires { S.is_checked ≡ true }
        ensures value { (u : ℕ) (T : Tree) → StandsUser u self.old T
            → Free u T (S.may_give source.old)
            → IfOk result (λ b. b ≡ is_bare_at T (u, number)) }
        ensures loads { LoadsUser S.may_give S.failed S.follows self.old self.new
            source.old source.new result }
    {
        self.fetch(number, &Wanted::Root, source)?;
        match self.inodes.get(&number.number()) {
            Some(inode) => Ok(inode.is_bare()),
            None => Ok(true),
        }
    }

    /// Lists the names of the directory of a number by their bytes, and where they lead; none where
    /// no directory stands. Loads what it needs, and is refused as `fetch` is.
    pub fn names<S: BlockSource>(
        &mut self,
        number: Inum,
        source: &mut S,
    ) -> Result<Option<Vec<(Name, FileId)>>, Refusal>
        requires { S.is_checked ≡ true }
        ensures value { (u : ℕ) (T : Tree) → StandsUser u self.old T
            → Free u T (S.may_give source.old)
            → IfOk result (λ list. option_map (λ v. v.items) list
            ≡ names_of (get T.inodes (u, number))) }
        ensures loads { LoadsUser S.may_give S.failed S.follows self.old self.new
            source.old source.new result }
    {
        self.fetch(number, &Wanted::Names, source)?;
        match self.inodes.get(&number.number()) {
            Some(inode) => inode.names(),
            None => Ok(None),
        }
    }

    /// Leaves all on the store: of the table only the digest stays, and of the inodes nothing.
    pub fn leave(&mut self)
        ensures { (u : ℕ) (T : Tree) → StandsUser u self.old T → StandsUser u self.new T }
    {
        self.table.forget();
        self.inodes = BTreeMap::new(self.alloc);
    }
}
