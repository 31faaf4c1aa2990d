// All i-tables of which parts may be left on a store, and what is asked of them.
ghost use Rattle.std.specs.Prelude.{◌≡◌, option_map, option_copied};
ghost use Rattle.std.specs.FinMap.{get};
ghost use Rattle.su_table.specs.Handle.{handle};
ghost use Rattle.su_table.specs.Query.{body, is_free_at, is_dir_at, is_file_at, links_at, is_bare_at, is_name_free_at, leads_to_at, is_pointer_free, size_at};
ghost use Rattle.su_table.specs.Tree.{Tree};
ghost use Rattle.su_part.specs.Part.{StandsJust};
ghost use Rattle.su_part.specs.Seen.{seen_inode};
ghost use Rattle.su_part_forest.specs.Forest.{Stands, IsSound, IsThereAt, loaded_inode, user_part, group_part};
ghost use Rattle.su_part_forest.specs.Seen.{seen};

use std::alloc::Global;
use su_bytes::{Digest, FileId, Group, GroupFile, Kind, Name, Place, Principal, User};
use su_group_part::GroupPart;
use su_part::{PartInode, UserPart};

/// All i-tables of a store: a part for each user and each group that there can be, of which parts
/// may be left on the store. It stands for each tree that agrees with what is loaded and has the
/// digests of what isn't.
#[derive(Drop)]
pub struct PartForest {
    pub(crate) users: Vec<UserPart>,
    pub(crate) groups: Vec<GroupPart>,
    pub(crate) alloc: Global,
}

/// What is asked of what is loaded. Where enough is loaded at a place, the answer is that of each
/// tree that the forest stands for.
impl PartForest {
    /// Returns the part of a user.
    pub(crate) fn user_part(&self, user: User) -> Option<&UserPart>
        ensures { option_copied result ≡ user_part user self.now }
    {
        self.users.get(usize::from(user.number()))
    }

    /// Returns the part of a group.
    pub(crate) fn group_part(&self, group: Group) -> Option<&GroupPart>
        ensures { option_copied result ≡ group_part group self.now }
    {
        self.groups.get(usize::from(group.number()))
    }

    /// Returns the inode at `place`, if one is loaded there.
    pub fn inode(&self, place: Place) -> Option<&PartInode>
        ensures loaded { option_copied result ≡ loaded_inode place self.now }
        ensures seen { option_map seen_inode (option_copied result)
            ≡ get (seen self.now).inodes place }
        ensures there { (T : Tree) → Stands self.now T → IsThereAt place T self.now
            → StandsJust (option_copied result) (get T.inodes place) }
    {
        let (user, number) = place;
        let part = self.user_part(user)?;
        part.find(number)
    }

    /// Returns where the pointer of a group file leads, if one is loaded.
    fn pointer(&self, file: GroupFile) -> Option<Place>
        ensures { IsSound self.now → result ≡ get (seen self.now).pointers file }
    {
        let (group, number) = file;
        let part = self.group_part(group)?;
        part.find(number)
    }

    /// Returns for which file the inode at `place` was made, if one is loaded there.
    pub fn home(&self, place: Place) -> Option<FileId>
        ensures { IsSound self.now
            → result ≡ option_map (λ i. i.home) (get (seen self.now).inodes place) }
    {
        let inode = self.inode(place)?;
        Some(inode.home())
    }

    /// Returns the place of a file's inode: a user's file stands at its own place, a group file
    /// where its pointer leads.
    pub fn body(&self, file: FileId) -> Option<Place>
        ensures { IsSound self.now → result ≡ body (seen self.now) file }
    {
        match file {
            FileId::User(user, number) => {
                let inode = self.inode((user, number))?;
                let home = inode.home();
                if home == file {
                    Some((user, number))
                } else {
                    None
                }
            }
            FileId::Group(group, number) => self.pointer((group, number)),
        }
    }

    /// Tells whether no inode stands at `place`.
    pub fn is_free(&self, place: Place) -> bool
        ensures { result ≡ is_free_at (seen self.now) place }
    {
        self.inode(place).is_none()
    }

    /// Tells whether a directory stands at `place`.
    pub fn is_directory(&self, place: Place) -> bool
        ensures { IsSound self.now → result ≡ is_dir_at (seen self.now) place }
    {
        match self.inode(place) {
            Some(inode) => inode.kind() == Kind::Dir,
            None => false,
        }
    }

    /// Tells whether a file stands at `place`.
    pub fn is_file(&self, place: Place) -> bool
        ensures { IsSound self.now → result ≡ is_file_at (seen self.now) place }
    {
        match self.inode(place) {
            Some(inode) => inode.kind() == Kind::File,
            None => false,
        }
    }

    /// Returns the number of links of the inode at `place`; 0 where none stands.
    pub fn links(&self, place: Place) -> u8
        ensures { IsSound self.now → result ≡ links_at (seen self.now) place }
    {
        match self.inode(place) {
            Some(inode) => inode.links(),
            None => 0,
        }
    }

    /// Returns the size in bytes of the file at `place`; 0 where no file stands.
    pub fn size(&self, place: Place) -> u32
        ensures { IsSound self.now → result ≡ size_at (seen self.now) place }
    {
        match self.inode(place) {
            Some(inode) => inode.size(),
            None => 0,
        }
    }

    /// Tells whether the inode at `place`, if any, has no names.
    pub fn is_bare(&self, place: Place) -> bool
        ensures { IsSound self.now → result ≡ is_bare_at (seen self.now) place }
    {
        match self.inode(place) {
            Some(inode) => inode.shows_no_names(),
            None => true,
        }
    }

    /// Tells whether the directory at `place` lacks the name.
    pub fn is_name_free(&self, place: Place, name: &Name) -> bool
        ensures { IsSound self.now → result ≡ is_name_free_at (seen self.now) place name.now }
    {
        match self.inode(place) {
            Some(inode) => inode.name_find(name).is_none(),
            None => true,
        }
    }

    /// Tells whether the directory at `place` has the name, and it leads to the file.
    pub fn leads_to(&self, place: Place, name: &Name, file: FileId) -> bool
        ensures { IsSound self.now → result ≡ leads_to_at (seen self.now) place name.now file }
    {
        match self.inode(place) {
            Some(inode) => inode.name_find(name) == Some(file),
            None => false,
        }
    }

    /// Tells whether a group file has no pointer; a user's file needs none.
    pub fn is_pointer_free(&self, file: FileId) -> bool
        ensures { IsSound self.now → result ≡ is_pointer_free (seen self.now) file }
    {
        match file {
            FileId::User(..) => true,
            FileId::Group(group, number) => self.pointer((group, number)).is_none(),
        }
    }
}

/// What stands for all that a principal has. A handle is at hand: no hash is made and no memory is
/// taken.
impl PartForest {
    /// Returns the i-handle of a user; that of an empty table where the user has no inode.
    pub fn i_handle(&self, user: User) -> Digest
        ensures { (T : Tree) → Stands self.now T → result ≡ handle T (Principal.User user) }
    {
        // names the number's range for the prover (docs/ARCHITECTURE.md, "Forms the kit wants")
        let _number = user.number();
        match self.user_part(user) {
            Some(part) => part.i_handle(),
            None => UserPart::empty(self.alloc).i_handle(),
        }
    }

    /// Returns the i-handle of a group; that of an empty table where the group has no file.
    pub fn group_handle(&self, group: Group) -> Digest
        ensures { (T : Tree) → Stands self.now T → result ≡ handle T (Principal.Group group) }
    {
        // names the number's range for the prover (docs/ARCHITECTURE.md, "Forms the kit wants")
        let _number = group.number();
        match self.group_part(group) {
            Some(part) => part.handle(),
            None => GroupPart::empty(self.alloc).handle(),
        }
    }
}
