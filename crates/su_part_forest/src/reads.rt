// Reads, which load what they need.
ghost use Rattle.std.specs.Prelude.{◌≡◌, ◌⊎◌, Ok, Err, true, OnOk, IfOk, IfErr, option_map};
ghost use Rattle.std.specs.FinMap.{get};
ghost use Rattle.su_node.specs.Inode.{bytes_of, kind_of, names_of, within};
ghost use Rattle.su_node.specs.Field.{Field.NameOf, file_value};
ghost use Rattle.su_table.specs.Cell.{Cell.At, val};
ghost use Rattle.su_table.specs.Query.{body, contents, contents_within, is_bare_at, is_free_at, is_pointer_free, links_at, listing, size_at};
ghost use Rattle.su_table.specs.Tree.{Tree};
ghost use Rattle.su_part.specs.Bytes.{NoneClash};
ghost use Rattle.su_part_tree.specs.Loading.{IsLoadRefusal};
ghost use Rattle.su_part_forest.specs.Forest.{Stands};
ghost use Rattle.su_part_forest.specs.Loading.{HashedFor, LoadsForest};
ghost use Rattle.su_part_forest.specs.Reading.{HasHomeOf, load_answer};

use crate::forests::PartForest;
use su_block::BlockSource;
use su_bytes::{FileId, Kind, Name, Place, Refusal};
use su_part::Wanted;

/// What stands at a place. Each of these loads what it needs, and is refused as `fetch` is.
impl PartForest {
    /// Lists the names of the directory at `place` by their bytes, and where each leads; none where
    /// no directory stands.
    pub fn names_at<S: BlockSource>(
        &mut self,
        place: Place,
        source: &mut S,
    ) -> Result<Option<Vec<(Name, FileId)>>, Refusal>
        requires { S.is_checked ≡ true }
        ensures value { (T : Tree) → Stands self.old T
            → NoneClash (HashedFor T) (S.may_give source.old)
            → IfOk result (λ list. option_map (λ v. v.items) list
            ≡ names_of (get T.inodes place)) }
        ensures loads { LoadsForest S.may_give S.failed S.follows self.old self.new
            source.old source.new result }
    {
        let (user, number) = place;
        match self.users.get_mut(usize::from(user.number())) {
            Some(part) => part.names(number, source),
            None => Ok(None),
        }
    }

    /// Looks up where a name of the directory at `place` leads; nowhere where no directory stands,
    /// or it lacks the name.
    pub fn name_at<S: BlockSource>(
        &mut self,
        place: Place,
        name: &Name,
        source: &mut S,
    ) -> Result<Option<FileId>, Refusal>
        requires { S.is_checked ≡ true }
        ensures value { (T : Tree) → Stands self.old T
            → NoneClash (HashedFor T) (S.may_give source.old)
            → IfOk result (λ o. file_value o ≡ val T (At place (NameOf name.now))) }
        ensures loads { LoadsForest S.may_give S.failed S.follows self.old self.new
            source.old source.new result }
    {
        let (user, number) = place;
        match self.users.get_mut(usize::from(user.number())) {
            Some(part) => part.name_at(number, name, source),
            None => Ok(None),
        }
    }

    /// Tells whether the directory at `place` has no names; so is a file, and a place where nothing
    /// stands.
    pub fn is_bare_at<S: BlockSource>(
        &mut self,
        place: Place,
        source: &mut S,
    ) -> Result<bool, Refusal>
        requires { S.is_checked ≡ true }
        ensures value { (T : Tree) → Stands self.old T
            → NoneClash (HashedFor T) (S.may_give source.old)
            → IfOk result (λ b. b ≡ is_bare_at T place) }
        ensures loads { LoadsForest S.may_give S.failed S.follows self.old self.new
            source.old source.new result }
    {
        let (user, number) = place;
        match self.users.get_mut(usize::from(user.number())) {
            Some(part) => part.is_bare(number, source),
            None => Ok(true),
        }
    }

    /// Reads the bytes of the file at `place` within a range, which may reach past the end; none
    /// where no file stands.
    pub fn bytes_at<S: BlockSource>(
        &mut self,
        place: Place,
        off: u64,
        len: u64,
        source: &mut S,
    ) -> Result<Option<Vec<u8>>, Refusal>
        requires { S.is_checked ≡ true }
        ensures value { (T : Tree) → Stands self.old T
            → NoneClash (HashedFor T) (S.may_give source.old)
            → IfOk result (λ bytes. option_map (λ v. v.items) bytes
            ≡ option_map (within off len) (bytes_of (get T.inodes place))) }
        ensures loads { LoadsForest S.may_give S.failed S.follows self.old self.new
            source.old source.new result }
    {
        let (user, number) = place;
        match self.users.get_mut(usize::from(user.number())) {
            Some(part) => part.read_at(number, off, len, source),
            None => Ok(None),
        }
    }
}

/// What is asked of an inode but its content. Each of these loads what it needs, and is refused as
/// `fetch` is.
impl PartForest {
    /// Tells whether no inode stands at `place`.
    pub fn is_free_at<S: BlockSource>(
        &mut self,
        place: Place,
        source: &mut S,
    ) -> Result<bool, Refusal>
        requires { S.is_checked ≡ true }
        ensures value { (T : Tree) → Stands self.old T
            → NoneClash (HashedFor T) (S.may_give source.old)
            → IfOk result (λ b. b ≡ is_free_at T place) }
        ensures loads { LoadsForest S.may_give S.failed S.follows self.old self.new
            source.old source.new result }
    {
        let (user, number) = place;
        self.fetch((user, number), &Wanted::Nothing, source)?;
        Ok(self.is_free((user, number)))
    }

    /// Returns the number of links of the inode at `place`; 0 where none stands.
    pub fn links_at<S: BlockSource>(&mut self, place: Place, source: &mut S) -> Result<u8, Refusal>
        requires { S.is_checked ≡ true }
        ensures value { (T : Tree) → Stands self.old T
            → NoneClash (HashedFor T) (S.may_give source.old)
            → IfOk result (λ links. links ≡ links_at T place) }
        ensures loads { LoadsForest S.may_give S.failed S.follows self.old self.new
            source.old source.new result }
    {
        let (user, number) = place;
        self.fetch((user, number), &Wanted::Nothing, source)?;
        Ok(self.links((user, number)))
    }

    /// Returns the size in bytes of the file at `place`; 0 where no file stands.
    pub fn size_at<S: BlockSource>(&mut self, place: Place, source: &mut S) -> Result<u32, Refusal>
        requires { S.is_checked ≡ true }
        ensures value { (T : Tree) → Stands self.old T
            → NoneClash (HashedFor T) (S.may_give source.old)
            → IfOk result (λ size. size ≡ size_at T place) }
        ensures loads { LoadsForest S.may_give S.failed S.follows self.old self.new
            source.old source.new result }
    {
        let (user, number) = place;
        self.fetch((user, number), &Wanted::Nothing, source)?;
        Ok(self.size((user, number)))
    }

    /// Tells a file from a directory; none where nothing stands at `place`.
    pub fn kind_at<S: BlockSource>(
        &mut self,
        place: Place,
        source: &mut S,
    ) -> Result<Option<Kind>, Refusal>
        requires { S.is_checked ≡ true }
        ensures value { (T : Tree) → Stands self.old T
            → NoneClash (HashedFor T) (S.may_give source.old)
            → IfOk result (λ kind. kind
            ≡ option_map (λ i. kind_of i.content) (get T.inodes place)) }
        ensures loads { LoadsForest S.may_give S.failed S.follows self.old self.new
            source.old source.new result }
    {
        let (user, number) = place;
        self.fetch((user, number), &Wanted::Nothing, source)?;
        match self.inode((user, number)) {
            Some(inode) => Ok(Some(inode.kind())),
            None => Ok(None),
        }
    }

    /// Returns for which file the inode at `place` was made; none where nothing stands there.
    pub fn home_at<S: BlockSource>(
        &mut self,
        place: Place,
        source: &mut S,
    ) -> Result<Option<FileId>, Refusal>
        requires { S.is_checked ≡ true }
        ensures value { (T : Tree) → Stands self.old T
            → NoneClash (HashedFor T) (S.may_give source.old)
            → IfOk result (λ home. home ≡ option_map (λ i. i.home) (get T.inodes place)) }
        ensures loads { LoadsForest S.may_give S.failed S.follows self.old self.new
            source.old source.new result }
    {
        let (user, number) = place;
        self.fetch((user, number), &Wanted::Nothing, source)?;
        match self.inode((user, number)) {
            Some(inode) => Ok(Some(inode.home())),
            None => Ok(None),
        }
    }
}

/// Where files stand. Each of these loads what it needs, and is refused as `fetch` is.
impl PartForest {
    /// Returns the place of a file's inode: a user's file stands at its own place, a group file
    /// where its pointer leads.
    pub fn body_of<S: BlockSource>(
        &mut self,
        file: &FileId,
        source: &mut S,
    ) -> Result<Option<Place>, Refusal>
        requires { S.is_checked ≡ true }
        ensures value { (T : Tree) → Stands self.old T
            → NoneClash (HashedFor T) (S.may_give source.old)
            → IfOk result (λ place. place ≡ body T file.now) }
        ensures loads { LoadsForest S.may_give S.failed S.follows self.old self.new
            source.old source.new result }
    {
        self.fetch_home(file, source)?;
        Ok(self.body(*file))
    }

    /// Tells whether a group file has no pointer; a user's file needs none.
    pub fn is_pointer_free_at<S: BlockSource>(
        &mut self,
        file: FileId,
        source: &mut S,
    ) -> Result<bool, Refusal>
        requires { S.is_checked ≡ true }
        ensures value { (T : Tree) → Stands self.old T
            → NoneClash (HashedFor T) (S.may_give source.old)
            → IfOk result (λ b. b ≡ is_pointer_free T file) }
        ensures loads { LoadsForest S.may_give S.failed S.follows self.old self.new
            source.old source.new result }
    {
        match file {
            FileId::User(..) => Ok(true),
            FileId::Group(group, number) => {
                self.fetch_pointer((group, number), source)?;
                Ok(self.is_pointer_free(file))
            }
        }
    }

    /// Loads what tells where a file stands: of a user's file the inode at its own place, of a
    /// group file where its pointer leads.
    fn fetch_home<S: BlockSource>(&mut self, file: &FileId, source: &mut S) -> Result<(), Refusal>
        requires { S.is_checked ≡ true }
        ensures loads { LoadsForest S.may_give S.failed S.follows self.old self.new
            source.old source.new result }
        ensures has { OnOk result (HasHomeOf file.now self.new) }
    {
        match *file {
            FileId::User(user, number) => self.fetch((user, number), &Wanted::Nothing, source),
            FileId::Group(group, number) => self.fetch_pointer((group, number), source),
        }
    }
}

/// Reads of files. Each of these loads what it needs, and is refused as `fetch` is, but for what is
/// asked of a file that isn't there, or is of the other kind.
impl PartForest {
    /// Lists the names of a directory by their bytes, and where each leads. `NoFile` where the file
    /// has no body, `WrongKind` where its body is no directory.
    pub fn list<S: BlockSource>(
        &mut self,
        file: FileId,
        source: &mut S,
    ) -> Result<Vec<(Name, FileId)>, Refusal>
        requires { S.is_checked ≡ true }
        ensures ok { (T : Tree) → Stands self.old T
            → NoneClash (HashedFor T) (S.may_give source.old)
            → IfOk result (λ names. listing T file ≡ Ok names.items) }
        ensures refused { (T : Tree) → Stands self.old T
            → NoneClash (HashedFor T) (S.may_give source.old)
            → IfErr result (λ e. IsLoadRefusal e ⊎ (listing T file ≡ Err e)) }
        ensures loads { LoadsForest S.may_give S.failed S.follows self.old self.new
            source.old source.new (load_answer result) }
    {
        match self.body_of(&file, source)? {
            Some(place) => match self.names_at(place, source)? {
                Some(names) => Ok(names),
                None => Err(Refusal::WrongKind(file)),
            },
            None => Err(Refusal::NoFile(file)),
        }
    }

    /// Reads the bytes of a file within a range, which may reach past its end. `NoFile` where the
    /// file has no body, `WrongKind` where its body is no file.
    pub fn read_at<S: BlockSource>(
        &mut self,
        file: FileId,
        off: u64,
        len: u64,
        source: &mut S,
    ) -> Result<Vec<u8>, Refusal>
        requires { S.is_checked ≡ true }
        ensures ok { (T : Tree) → Stands self.old T
            → NoneClash (HashedFor T) (S.may_give source.old)
            → IfOk result (λ bytes. contents_within T file off len ≡ Ok bytes.items) }
        ensures refused { (T : Tree) → Stands self.old T
            → NoneClash (HashedFor T) (S.may_give source.old)
            → IfErr result (λ e. IsLoadRefusal e ⊎ (contents_within T file off len ≡ Err e)) }
        ensures loads { LoadsForest S.may_give S.failed S.follows self.old self.new
            source.old source.new (load_answer result) }
    {
        match self.body_of(&file, source)? {
            Some(place) => match self.bytes_at(place, off, len, source)? {
                Some(bytes) => Ok(bytes),
                None => Err(Refusal::WrongKind(file)),
            },
            None => Err(Refusal::NoFile(file)),
        }
    }

    /// Reads all bytes of a file. `NoFile` where the file has no body, `WrongKind` where its body is
    /// no file.
    pub fn read<S: BlockSource>(&mut self, file: FileId, source: &mut S) -> Result<Vec<u8>, Refusal>
        requires { S.is_checked ≡ true }
        ensures ok { (T : Tree) → Stands self.old T
            → NoneClash (HashedFor T) (S.may_give source.old)
            → IfOk result (λ bytes. contents T file ≡ Ok bytes.items) }
        ensures refused { (T : Tree) → Stands self.old T
            → NoneClash (HashedFor T) (S.may_give source.old)
            → IfErr result (λ e. IsLoadRefusal e ⊎ (contents T file ≡ Err e)) }
        ensures loads { LoadsForest S.may_give S.failed S.follows self.old self.new
            source.old source.new (load_answer result) }
    {
        self.read_at(file, 0, u64::MAX, source)
    }
}
