// Loading what is wanted of an inode.
ghost use Rattle.std.specs.Prelude.{◌≡◌, ⊤, true, OnOk};
ghost use Rattle.su_part.specs.Part.{HasInode};
ghost use Rattle.su_part.specs.Fetches.{HasWanted, HasWantedIn, HasWantedAt, LoadsNames, LoadsBytes, LoadsInode, LoadsUser};
ghost use Rattle.su_part.specs.declared.inodes.PartContent.TheVariants.{Bytes, Names};

use crate::blocks::PartBytes;
use crate::inodes::{PartContent, PartInode};
use crate::items::get_inode;
use crate::users::UserPart;
use su_block::BlockSource;
use su_bytes::{FileId, Inum, Name, Refusal};
use su_part_tree::PartTree;

/// What of an inode's content is to be loaded: names of a directory, blocks of a file. Of the other
/// kind nothing is.
#[derive(Drop)]
pub enum Wanted {
    Nothing,
    /// What the path of a name needs.
    Name(Name),
    /// The root's node of the names.
    Root,
    /// All names.
    Names,
    /// The paths of the block numbers from `first` on and before `until`, and the blocks that the
    /// file has there.
    Blocks { first: u32, until: u32 },
    /// The blocks that have bytes in a range, which may reach past the end.
    Bytes { off: u64, len: u64 },
    /// What a write of `len` bytes from `off` on needs.
    Write { off: u32, len: u32 },
    /// What a cut to a size needs.
    Cut { size: u32 },
}

/// Loads what is wanted of names. Refused as `PartTree::reach` is.
fn fetch_names<S: BlockSource>(
    names: &mut PartTree<Name, FileId>,
    wanted: &Wanted,
    source: &mut S,
) -> Result<(), Refusal>
    requires { S.is_checked ≡ true }
    ensures loads { LoadsNames S.may_give S.failed S.follows names.old names.new
        source.old source.new result }
    ensures has { OnOk result (HasWantedIn wanted.now (Names names.new)) }
{
    match wanted {
        Wanted::Name(name) => names.reach(name, source),
        Wanted::Root => names.load(source),
        Wanted::Names => names.reach_all(source),
        Wanted::Nothing | Wanted::Blocks { .. } => Ok(()),
        Wanted::Bytes { .. } | Wanted::Write { .. } | Wanted::Cut { .. } => Ok(()),
    }
}

/// Loads what is wanted of a file's bytes. Refused as the load of one block is.
fn fetch_bytes<S: BlockSource>(
    bytes: &mut PartBytes,
    wanted: &Wanted,
    source: &mut S,
) -> Result<(), Refusal>
    requires { S.is_checked ≡ true }
    ensures loads { LoadsBytes S.may_give S.failed S.follows bytes.old bytes.new
        source.old source.new result }
    ensures has { OnOk result (HasWantedIn wanted.now (Bytes bytes.new)) }
{
    match wanted {
        Wanted::Blocks { first, until } => bytes.fetch(*first, *until, source),
        Wanted::Bytes { off, len } => bytes.fetch_range(*off, *len, source),
        Wanted::Write { off, len } => bytes.fetch_write(*off, *len, source),
        Wanted::Cut { size } => bytes.fetch_cut(*size, source),
        Wanted::Nothing | Wanted::Name(_) | Wanted::Root | Wanted::Names => Ok(()),
    }
}

impl PartInode {
    /// Loads what is wanted of the content. Refused by the source, by want of memory, or with
    /// `Malformed(0)` where an item spells nothing that belongs there.
    pub(crate) fn fetch<S: BlockSource>(
        &mut self,
        wanted: &Wanted,
        source: &mut S,
    ) -> Result<(), Refusal>
        requires { S.is_checked ≡ true }
        ensures loads { LoadsInode S.may_give S.failed S.follows self.old self.new
            source.old source.new result }
        ensures has { OnOk result (HasWanted wanted.now self.new) }
    {
        match &mut self.content {
            PartContent::Bytes(bytes) => fetch_bytes(bytes, wanted, source),
            PartContent::Names(names) => fetch_names(names, wanted, source),
        }
    }
}

impl UserPart {
    /// Loads the inode of a number, and what is wanted of it. Refused with `MissingBlock`,
    /// `WrongBlock` or `SourceFailed` where the source fails, with `NoMemory` where memory is
    /// wanting, and with `Malformed(0)` where an item spells nothing that belongs there; then it
    /// stands for what it stood for, and a part of what is wanted may be loaded.
    pub fn fetch<S: BlockSource>(
        &mut self,
        number: Inum,
        wanted: &Wanted,
        source: &mut S,
    ) -> Result<(), Refusal>
        requires { S.is_checked ≡ true }
        ensures loads { LoadsUser S.may_give S.failed S.follows self.old self.new
            source.old source.new result }
        ensures has { OnOk result (HasWantedAt number wanted.now self.new) }
    {
        self.load_inode(number, source)?;
        match self.inodes.get_mut(&number.number()) {
            Some(inode) => inode.fetch(wanted, source),
            None => Ok(()),
        }
    }

    /// Loads the inode of a number, and nothing of its content. Refused as `fetch` is.
    fn load_inode<S: BlockSource>(&mut self, number: Inum, source: &mut S) -> Result<(), Refusal>
        requires { S.is_checked ≡ true }
        ensures loads { LoadsUser S.may_give S.failed S.follows self.old self.new
            source.old source.new result }
        ensures has { OnOk result (HasInode number self.new) }
    {
        let key = number.number();
        self.table.reach(&key, source)?;
        if self.inodes.contains_key(&key) {
            return Ok(());
        }
        let digest = match self.table.get(&key) {
            Some(digest) => *digest,
            None => return Ok(()),
        };
        let item = get_inode(self.alloc, digest, source)?;
        self.inodes
            .insert(key, PartInode::of_item(self.alloc, &item))?;
        Ok(())
    }
}
