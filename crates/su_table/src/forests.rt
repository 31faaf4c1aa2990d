// All i-tables together, what is asked of them, and how they change.
ghost use Rattle.std.specs.Prelude.{◌≡◌, ◌⊎◌, ◌+◌, ◌<◌, ◌≤◌, ◌^◌, ℕ, true, length, Some, None, Ok, Err, IsOk, IfOk, IfErr, OnOk, OnErr, option_copied};
ghost use Rattle.std.specs.FinMap.{get, empty};
ghost use Rattle.su_node.specs.Cost.{IsSmall, hashes_of_write};
ghost use Rattle.su_node.specs.InodeChange.{InodeChange.Named, InodeChange.Linked, InodeChange.Written, InodeChange.Resized, InodeChange.Copied, InodeChange.Gone};
ghost use Rattle.su_table.specs.Tree.{genesis};
ghost use Rattle.su_table.specs.Cell.{Cell.Pointer, val};
ghost use Rattle.su_table.specs.Cost.{hashes_of_inode};
ghost use Rattle.su_table.specs.Handle.{handle};
ghost use Rattle.su_table.specs.Free.{IsLeastFree, IsLeastTaken};
ghost use Rattle.su_table.specs.Edit.{Edit.Inodes, Edit.Pointers, edit};
ghost use Rattle.su_table.specs.Query.{is_nothing, body, is_free_at, is_dir_at, is_file_at, links_at, is_bare_at, is_name_free_at, leads_to_at, is_pointer_free, size_at, standing, listing, contents, contents_within};
ghost use Rattle.su_bytes.specs.declared.refusals.Refusal.TheVariants.{NoMemory};
ghost use Rattle.su_bytes.specs.declared.file_ids.FileId.TheVariants.{Group as GroupFileId};

use crate::tables::Tables;
use std::alloc::{AllocError, Global};
use std::collections::BTreeMap;
use std::marker::Model;
use su_bytes::{
    Digest, FileId, Group, GroupFile, Inum, Kind, Name, Place, Principal, Refusal, Roster, User,
};
use su_node::Inode;

/// All i-tables of a store. Its model is the plain tree that they make. Beside the inodes it keeps
/// the table of each user, from i-numbers to the digests of inodes, and beside the pointers that of
/// each group, all with their digests: so an edit hashes what it changes, and a handle is at hand.
#[derive(Drop)]
pub struct Forest {
    inodes: BTreeMap<Place, Inode>,
    digests: Tables<Digest>,
    pointers: BTreeMap<GroupFile, Place>,
    bodies: Tables<Place>,
    alloc: Global,
}

impl Model for Forest {
    ghost use Rattle.std.specs.FinMap.{from_entries};
    ghost use Rattle.su_table.specs.Tree.{Tree};
    ghost use Rattle.su_table.specs.Code.{tree_code};

    ghost Value = { Tree };

    ghost coded = { tree_code };

    ghost view = { λ f. record { inodes = from_entries f.inodes.entries; pointers = from_entries f.pointers.entries } };

    ghost use Rattle.su_bytes.specs.Principal.{is_user, is_group};
    ghost use Rattle.su_node.specs.Digest.{inode_digest};
    ghost use Rattle.su_table.specs.Kept.{AreTables, table_in};

    ghost invariant = { λ f.
        AreTables is_user (table_in inode_digest f.inodes.entries) f.digests
        × AreTables is_group (table_in (λ place. place) f.pointers.entries) f.bodies };
}

impl Forest {
    /// Makes the tree before the first operation: the empty root directory of group 0, which stands
    /// at user 0. It is the same for each roster: a forest has a table for each user and each group
    /// that there can be. Fails only with `NoMemory`.
    pub fn genesis(alloc: Global, _roster: &Roster) -> Result<Forest, Refusal>
        ensures value { IfOk result (λ forest. forest ≡ genesis) }
        ensures refused { IfErr result (λ e. e ≡ NoMemory) }
    {
        let mut forest = Forest::bare(alloc)?;
        let root = Inode::new(alloc, FileId::ROOT, Kind::Dir);
        forest.put_inode((User::FIRST, Inum::FIRST), root)?;
        forest.put_pointer((Group::FIRST, Inum::FIRST), (User::FIRST, Inum::FIRST))?;
        Ok(forest)
    }

    /// Makes a forest with no inode and no pointer.
    fn bare(alloc: Global) -> Result<Forest, AllocError>
        ensures { IfOk result (λ forest.
            forest ≡ record { inodes = empty; pointers = empty }) }
    {
        Ok(Forest {
            inodes: BTreeMap::new(alloc),
            digests: Tables::empty(alloc, usize::from(User::LAST.number()) + 1)?,
            pointers: BTreeMap::new(alloc),
            bodies: Tables::empty(alloc, usize::from(Group::LAST.number()) + 1)?,
            alloc,
        })
    }

    /// Returns the inode at number `number` of the user's i-table, if any.
    pub fn inode(&self, user: User, number: Inum) -> Option<&Inode>
        ensures { option_copied result ≡ get self.now.inodes (user, number) }
    {
        self.inodes.get(&(user, number))
    }

    /// Returns the place of a file's inode: a user's file stands at its own place, a group file
    /// where its pointer leads.
    pub fn body(&self, file: FileId) -> Option<Place>
        ensures { result ≡ body self.now file }
    {
        match file {
            FileId::User(user, number) => {
                let inode = self.inodes.get(&(user, number))?;
                let home = inode.home();
                if home == file {
                    Some((user, number))
                } else {
                    None
                }
            }
            FileId::Group(group, number) => self.pointers.get(&(group, number)).copied(),
        }
    }

    /// Tells whether no inode stands at `place`.
    pub fn is_free(&self, place: Place) -> bool
        ensures { result ≡ is_free_at self.now place }
    {
        !self.inodes.contains_key(&place)
    }

    /// Tells whether a directory stands at `place`.
    pub fn is_directory(&self, place: Place) -> bool
        ensures { result ≡ is_dir_at self.now place }
    {
        match self.inodes.get(&place) {
            Some(inode) => inode.kind() == Kind::Dir,
            None => false,
        }
    }

    /// Tells whether a file stands at `place`.
    pub fn is_file(&self, place: Place) -> bool
        ensures { result ≡ is_file_at self.now place }
    {
        match self.inodes.get(&place) {
            Some(inode) => inode.kind() == Kind::File,
            None => false,
        }
    }

    /// Returns the number of links of the inode at `place`; 0 where none stands.
    pub fn links(&self, place: Place) -> u8
        ensures { result ≡ links_at self.now place }
    {
        match self.inodes.get(&place) {
            Some(inode) => inode.links(),
            None => 0,
        }
    }

    /// Returns the size in bytes of the file at `place`; 0 where no file stands.
    pub fn size(&self, place: Place) -> u32
        ensures { result ≡ size_at self.now place }
    {
        match self.inodes.get(&place) {
            Some(inode) => inode.size(),
            None => 0,
        }
    }

    /// Tells whether the inode at `place`, if any, has no names.
    pub fn is_bare(&self, place: Place) -> bool
        ensures { result ≡ is_bare_at self.now place }
    {
        match self.inodes.get(&place) {
            Some(inode) => inode.is_bare(),
            None => true,
        }
    }

    /// Tells whether the directory at `place` lacks the name.
    pub fn is_name_free(&self, place: Place, name: &Name) -> bool
        ensures { result ≡ is_name_free_at self.now place name.now }
    {
        match self.inodes.get(&place) {
            Some(inode) => inode.name_get(name).is_none(),
            None => true,
        }
    }

    /// Tells whether the directory at `place` has the name, and it leads to the file.
    pub fn leads_to(&self, place: Place, name: &Name, file: FileId) -> bool
        ensures { result ≡ leads_to_at self.now place name.now file }
    {
        match self.inodes.get(&place) {
            Some(inode) => inode.name_get(name) == Some(file),
            None => false,
        }
    }

    /// Tells whether a group file has no pointer; a user's file needs none.
    pub fn is_pointer_free(&self, file: FileId) -> bool
        ensures { result ≡ is_pointer_free self.now file }
    {
        match file {
            FileId::User(..) => true,
            FileId::Group(group, number) => !self.pointers.contains_key(&(group, number)),
        }
    }

    /// Finds the least number from a number on at which the user has no inode; none where each one
    /// from there to the last is taken. It looks at what is kept of each 1,024 numbers, and at 1,024
    /// numbers.
    pub fn free_number(&self, user: User, from_: Inum) -> Option<Inum>
        ensures { IsLeastFree (λ i. is_free_at self.now (user, i)) from_ result }
    {
        self.digests.free_number(user.number(), from_)
    }

    /// Finds the least number from a number on at which the group has no file, as `free_number`
    /// does for a user.
    pub fn free_group_number(&self, group: Group, from_: Inum) -> Option<Inum>
        ensures { IsLeastFree (λ k. is_pointer_free self.now (GroupFileId group k)) from_ result }
    {
        self.bodies.free_number(group.number(), from_)
    }

    /// Finds the least number from a number on at which the user has an inode; none where the user
    /// has none from there to the last. It costs a look-up, and takes no memory.
    pub fn next_inode(&self, user: User, from_: Inum) -> Option<Inum>
        ensures { IsLeastTaken (λ i. is_free_at self.now (user, i)) from_ result }
    {
        let (place, _) = self.inodes.range((user, from_)..).next()?;
        let (holder, number) = *place;
        // names the number's range for the prover (docs/ARCHITECTURE.md, "Forms the kit wants")
        let _number = number.number();
        if holder == user { Some(number) } else { None }
    }

    /// Returns the inode of a file: `NoFile` where the file has no body, `WrongKind` where its
    /// pointer leads to nothing.
    fn standing(&self, file: &FileId) -> Result<&Inode, Refusal>
        ensures ok { IfOk result (λ inode. standing self.now file.now ≡ Ok inode.now) }
        ensures refused { IfErr result (λ e. standing self.now file.now ≡ Err e) }
    {
        let (user, number) = self.body(*file).ok_or(Refusal::NoFile(*file))?;
        self.inode(user, number).ok_or(Refusal::WrongKind(*file))
    }

    /// Lists the names of a directory by their bytes, and where each leads. `NoFile` where the file
    /// has no body, `WrongKind` where its body is no directory, `NoMemory` where there is no room
    /// for the list.
    pub fn list(&self, file: FileId) -> Result<Vec<(Name, FileId)>, Refusal>
        ensures ok { IfOk result (λ names. listing self.now file ≡ Ok names.items) }
        ensures refused { IfErr result (λ e. (e ≡ NoMemory) ⊎ (listing self.now file ≡ Err e)) }
    {
        let inode = self.standing(&file)?;
        inode.names()?.ok_or(Refusal::WrongKind(file))
    }

    /// Reads all bytes of a file. `NoFile` where the file has no body, `WrongKind` where its body
    /// is a directory, `NoMemory` where there is no room for the bytes.
    pub fn read(&self, file: FileId) -> Result<Vec<u8>, Refusal>
        ensures ok { IfOk result (λ bytes. contents self.now file ≡ Ok bytes.items) }
        ensures refused { IfErr result (λ e. (e ≡ NoMemory) ⊎ (contents self.now file ≡ Err e)) }
    {
        let inode = self.standing(&file)?;
        inode.content()?.ok_or(Refusal::WrongKind(file))
    }

    /// Reads the bytes of a file within a range, which may reach past its end. `NoFile` where the
    /// file has no body, `WrongKind` where its body is a directory, `NoMemory` where there is no
    /// room for the bytes.
    pub fn read_at(&self, file: FileId, off: u64, len: u64) -> Result<Vec<u8>, Refusal>
        ensures ok { IfOk result (λ bytes. contents_within self.now file off len ≡ Ok bytes.items) }
        ensures refused { IfErr result (λ e. (e ≡ NoMemory)
            ⊎ (contents_within self.now file off len ≡ Err e)) }
    {
        let inode = self.standing(&file)?;
        inode.read_at(off, len)?.ok_or(Refusal::WrongKind(file))
    }

    /// Copies the forest. Fails only with `NoMemory`.
    pub fn copy(&self) -> Result<Forest, Refusal>
        ensures value { IfOk result (λ copy. copy ≡ self.now) }
        ensures refused { IfErr result (λ e. e ≡ NoMemory) }
    {
        let mut inodes = BTreeMap::new(self.alloc);
        for (place, inode) in &self.inodes {
            inodes.insert(*place, inode.copy()?)?;
        }
        let mut pointers = BTreeMap::new(self.alloc);
        for (file, place) in &self.pointers {
            pointers.insert(*file, *place)?;
        }
        Ok(Forest {
            inodes,
            digests: self.digests.copy()?,
            pointers,
            bodies: self.bodies.copy()?,
            alloc: self.alloc,
        })
    }
}

/// What stands for all that a principal has. A handle is at hand: no hash is made and no memory is
/// taken, and so none of these fails.
impl Forest {
    /// Returns the i-handle of a user; that of an empty table where the user has no inode.
    pub fn i_handle(&self, user: User) -> Result<Digest, Refusal>
        ensures value { IfOk result (λ d. d ≡ handle self.now (Principal.User user)) }
        ensures refused { IfErr result (λ e. e ≡ NoMemory) }
        ensures succeeds { IsOk result }
    {
        Ok(self.digests.digest(user.number()))
    }

    /// Returns the i-handle of a group; that of an empty table where the group has no file.
    pub fn group_handle(&self, group: Group) -> Result<Digest, Refusal>
        ensures value { IfOk result (λ d. d ≡ handle self.now (Principal.Group group)) }
        ensures refused { IfErr result (λ e. e ≡ NoMemory) }
        ensures succeeds { IsOk result }
    {
        Ok(self.bodies.digest(group.number()))
    }
}

/// Single edits, of which operations are made. An edit that grows a table or a file fails with
/// `NoMemory` where there is none, and with nothing else, and then it changes nothing.
impl Forest {
    /// Makes a name of the directory at `place` lead to the file. Does nothing where no directory
    /// stands. Takes memory only for a name that isn't there.
    pub fn add_name(&mut self, place: Place, name: Name, file: FileId) -> Result<(), Refusal>
        ensures ok { OnOk result (self.new
            ≡ edit self.old (Inodes place (Named name (Some file)))) }
        ensures refused { IfErr result (λ e. e ≡ NoMemory) }
        ensures absent { OnErr result (is_name_free_at self.old place name ≡ true) }
        ensures err { OnErr result (self.new ≡ self.old) }
    {
        let (user, number) = place;
        if let Some(inode) = self.inodes.get_mut(&place) {
            inode.name_set(name, file)?;
            let digest = inode.digest();
            self.digests.set(user.number(), number, digest);
        }
        Ok(())
    }

    /// Removes a name from the directory at `place`, if it is there.
    pub fn remove_name(&mut self, place: Place, name: &Name)
        ensures { self.new ≡ edit self.old (Inodes place (Named name.now None)) }
    {
        let (user, number) = place;
        if let Some(inode) = self.inodes.get_mut(&place) {
            inode.name_remove(name);
            let digest = inode.digest();
            self.digests.set(user.number(), number, digest);
        }
    }

    /// Sets the number of links of the inode at `place`, if there is one.
    pub fn set_links(&mut self, place: Place, links: u8)
        ensures { self.new ≡ edit self.old (Inodes place (Linked links)) }
    {
        let (user, number) = place;
        if let Some(inode) = self.inodes.get_mut(&place) {
            inode.set_links(links);
            let digest = inode.digest();
            self.digests.set(user.number(), number, digest);
        }
    }

    /// Writes bytes into the file at `place` from an offset on, and fills a gap before them with
    /// zeros. Does nothing where no file stands. Returns how many hashes it made: within a file of
    /// at most 256 blocks a byte makes at most 44, within one of at most 4,096 at most 48. Takes no
    /// memory where the file doesn't grow.
    pub fn write_at(&mut self, place: Place, off: u32, bytes: &[u8]) -> Result<u64, Refusal>
        requires { off + length bytes.now < 2 ^ 32 }
        ensures ok { OnOk result
            (self.new ≡ edit self.old (Inodes place (Written (size_at self.old place) off bytes.now))) }
        ensures refused { IfErr result (λ e. e ≡ NoMemory) }
        ensures succeeds { off + length bytes.now ≤ size_at self.old place → IsOk result }
        ensures err { OnErr result (self.new ≡ self.old) }
        ensures hashes { IfOk result (λ made. let size = size_at self.old place in
            (bits : ℕ) → IsSmall bits size → IsSmall bits (off + length bytes.now)
            → made ≤ hashes_of_write bits size off (length bytes.now) + hashes_of_inode) }
    {
        let (user, number) = place;
        let mut hashes: u64 = 0;
        if let Some(inode) = self.inodes.get_mut(&place) {
            let content = inode.write_at(off, bytes)?;
            let written = inode.digest();
            let path = self.digests.set(user.number(), number, written);
            hashes = content.saturating_add(1 + path);
        }
        Ok(hashes)
    }

    /// Cuts the file at `place` to a size in bytes, or fills it with zeros up to it. Does nothing
    /// where no file stands. Takes no memory where the file doesn't grow.
    pub fn resize(&mut self, place: Place, size: u32) -> Result<(), Refusal>
        ensures ok { OnOk result
            (self.new ≡ edit self.old (Inodes place (Resized (size_at self.old place) size))) }
        ensures succeeds { size ≤ size_at self.old place → IsOk result }
        ensures refused { IfErr result (λ e. e ≡ NoMemory) }
        ensures err { OnErr result (self.new ≡ self.old) }
    {
        let (user, number) = place;
        if let Some(inode) = self.inodes.get_mut(&place) {
            inode.resize(size)?;
            let digest = inode.digest();
            self.digests.set(user.number(), number, digest);
        }
        Ok(())
    }

    /// Puts an inode at `place`, over the one that stands there, if any. Takes memory only where
    /// none does.
    pub fn put_inode(&mut self, place: Place, inode: Inode) -> Result<(), Refusal>
        ensures ok { OnOk result (self.new ≡ edit self.old (Inodes place (Copied inode))) }
        ensures refused { IfErr result (λ e. e ≡ NoMemory) }
        ensures absent { OnErr result (is_free_at self.old place ≡ true) }
        ensures err { OnErr result (self.new ≡ self.old) }
    {
        self.exchange_inode(place, inode)?;
        Ok(())
    }

    /// Puts an inode at `place`, and returns the one that stood there, if any. Takes memory only
    /// where none did.
    pub fn exchange_inode(&mut self, place: Place, inode: Inode) -> Result<Option<Inode>, Refusal>
        ensures ok { OnOk result (self.new ≡ edit self.old (Inodes place (Copied inode))) }
        ensures was { IfOk result (λ was. was ≡ get self.old.inodes place) }
        ensures refused { IfErr result (λ e. e ≡ NoMemory) }
        ensures absent { OnErr result (is_free_at self.old place ≡ true) }
        ensures err { OnErr result (self.new ≡ self.old) }
    {
        let (user, number) = place;
        let digest = inode.digest();
        let was = self.inodes.insert(place, inode)?;
        if let Err(refused) = self.digests.put(user.number(), number, digest) {
            self.inodes.remove(&place);
            return Err(Refusal::from(refused));
        }
        Ok(was)
    }

    /// Removes the inode at `place`, if any.
    pub fn remove_inode(&mut self, place: Place)
        ensures { self.new ≡ edit self.old (Inodes place Gone) }
    {
        let (user, number) = place;
        self.inodes.remove(&place);
        self.digests.remove(user.number(), number);
    }

    /// Points a group file at `place`. Takes memory only where the file has no pointer yet.
    pub fn put_pointer(&mut self, file: GroupFile, place: Place) -> Result<(), Refusal>
        ensures ok { OnOk result (self.new ≡ edit self.old (Pointers file (Some place))) }
        ensures refused { IfErr result (λ e. e ≡ NoMemory) }
        ensures absent { OnErr result (is_nothing (val self.old (Pointer file)) ≡ true) }
        ensures err { OnErr result (self.new ≡ self.old) }
    {
        let (group, number) = file;
        let (user, body) = place;
        self.pointers.insert(file, (user, body))?;
        if let Err(refused) = self.bodies.put(group.number(), number, (user, body)) {
            self.pointers.remove(&file);
            return Err(Refusal::from(refused));
        }
        Ok(())
    }

    /// Removes the pointer of a group file, if any.
    pub fn remove_pointer(&mut self, file: GroupFile)
        ensures { self.new ≡ edit self.old (Pointers file None) }
    {
        let (group, number) = file;
        self.pointers.remove(&file);
        self.bodies.remove(group.number(), number);
    }
}
