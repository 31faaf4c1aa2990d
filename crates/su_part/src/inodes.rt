// Inodes of which parts may be left on a store.
ghost use Rattle.std.specs.Prelude.{◌≡◌, ◌+◌, ◌<◌, ◌^◌, ◌≤◌, ℕ, List, length, true, Err, OnOk, OnErr, IfOk, IfErr, IsOk, Some, None, option_map};
ghost use Rattle.su_bytes.specs.declared.refusals.Refusal.TheVariants.{Malformed, NoMemory};
ghost use Rattle.su_node.specs.Inode.{Inode, Content, kind_of, size_of, bytes_of, within, has_no_names, names_of, new_inode};
ghost use Rattle.su_node.specs.Digest.{content_digest, inode_digest, kind_byte};
ghost use Rattle.su_node.specs.Field.{Field.NameOf, Value.Nothing, file_value, field_value};
ghost use Rattle.su_part.specs.Item.{MeantInode, item_of};
ghost use Rattle.su_part.specs.Known.{KnowsNameIn, StaysKnownIn};
ghost use Rattle.su_part.specs.Part.{StandsContent, StandsInode, FreeInode, HasAllIn, HasName, HasRootIn, HasNamesIn, IsAllIn, HasBlocksIn, HasBytesIn, HasWriteIn, with_named, with_links, with_written};

use crate::blocks::PartBytes;
use crate::items::InodeItem;
use sha2::{Digest as _, Sha256};
use std::alloc::{AllocError, Global};
use su_bytes::{Digest, FileId, Kind, Name, Refusal};
use su_part_tree::PartTree;
use su_tree::{TreeKey, TreeValue};

/// What a file or a directory has, of which parts may be left on a store.
#[derive(Drop)]
pub(crate) enum PartContent {
    Bytes(PartBytes),
    Names(PartTree<Name, FileId>),
}

impl PartContent {
    /// What of an item tells the kind.
    fn kind_byte(&self) -> u8
        ensures { (c : Content) → StandsContent self.now c → result ≡ kind_byte (kind_of c) }
    {
        match self {
            PartContent::Bytes(_) => 0,
            PartContent::Names(_) => 1,
        }
    }

    fn size(&self) -> u32
        ensures { (c : Content) → StandsContent self.now c → result ≡ size_of c }
    {
        match self {
            PartContent::Bytes(bytes) => bytes.size(),
            PartContent::Names(_) => 0,
        }
    }

    /// Copies the content; what is left on the store is left there in the copy. Fails where memory
    /// is wanting.
    fn copy(&self) -> Result<PartContent, AllocError>
        ensures stands { (c : Content) → StandsContent self.now c
            → IfOk result (λ copy. StandsContent copy c) }
        ensures all { IfOk result (λ copy. HasAllIn self.now copy) }
    {
        match self {
            PartContent::Bytes(bytes) => Ok(PartContent::Bytes(bytes.copy()?)),
            PartContent::Names(names) => Ok(PartContent::Names(names.copy()?)),
        }
    }

    /// The digest is at hand.
    fn digest(&self) -> Digest
        ensures { (c : Content) → StandsContent self.now c → result ≡ content_digest c }
    {
        match self {
            PartContent::Bytes(bytes) => bytes.digest(),
            PartContent::Names(names) => names.digest(),
        }
    }
}

/// An inode of which parts may be left on a store.
#[derive(Drop)]
pub struct PartInode {
    pub(crate) home: FileId,
    pub(crate) links: u8,
    pub(crate) content: PartContent,
}

impl PartInode {
    /// Makes a new inode: empty, with one link. All of it is loaded.
    pub(crate) fn new(alloc: Global, home: FileId, kind: Kind) -> PartInode
        ensures stands { StandsInode result (new_inode home kind) }
        ensures all { IsAllIn result.content }
    {
        let content = match kind {
            Kind::File => PartContent::Bytes(PartBytes::empty(alloc)),
            Kind::Dir => PartContent::Names(PartTree::empty(alloc)),
        };
        PartInode {
            home,
            links: 1,
            content,
        }
    }

    /// Returns the file id that it was made for.
    pub fn home(&self) -> FileId
        ensures { (i : Inode) → StandsInode self.now i → result ≡ i.home }
    {
        self.home
    }

    /// Tells a file from a directory.
    pub fn kind(&self) -> Kind
        ensures { (i : Inode) → StandsInode self.now i → result ≡ kind_of i.content }
    {
        match &self.content {
            PartContent::Bytes(_) => Kind::File,
            PartContent::Names(_) => Kind::Dir,
        }
    }

    /// Returns the number of names that lead to it.
    pub fn links(&self) -> u8
        ensures { (i : Inode) → StandsInode self.now i → result ≡ i.links }
    {
        self.links
    }

    /// Returns the size of a file in bytes; 0 for a directory.
    pub fn size(&self) -> u32
        ensures { (i : Inode) → StandsInode self.now i → result ≡ size_of i.content }
    {
        self.content.size()
    }

    /// The inode of an item; of its content only the digest is known.
    pub(crate) fn of_item(alloc: Global, item: &InodeItem) -> PartInode
        ensures { (i : Inode) → MeantInode i → item.now ≡ item_of i → StandsInode result i }
    {
        let content = match item.kind {
            Kind::File => PartContent::Bytes(PartBytes::stub(alloc, item.size, item.content)),
            Kind::Dir => PartContent::Names(PartTree::stub(alloc, item.content)),
        };
        PartInode {
            home: item.home,
            links: item.links,
            content,
        }
    }

    /// Copies the inode; what is left on the store is left there in the copy. Fails only with
    /// `NoMemory`.
    pub fn copy(&self) -> Result<PartInode, Refusal>
        ensures stands { (i : Inode) → StandsInode self.now i
            → IfOk result (λ copy. StandsInode copy i) }
        ensures all { IfOk result (λ copy. HasAllIn self.now.content copy.content) }
        ensures refused { IfErr result (λ e. e ≡ NoMemory) }
    {
        Ok(PartInode {
            home: self.home,
            links: self.links,
            content: self.content.copy()?,
        })
    }

    /// Reads the bytes of a file within a range, which may reach past the end and is loaded; none
    /// for a directory. Fails only with `NoMemory`.
    pub fn read_at(&self, off: u64, len: u64) -> Result<Option<Vec<u8>>, Refusal>
        requires { HasBytesIn off len self.now.content }
        ensures value { (i : Inode) → StandsInode self.now i → IfOk result (λ bytes.
            option_map (λ v. v.items) bytes ≡ option_map (within off len) (bytes_of (Some i))) }
        ensures refused { IfErr result (λ e. e ≡ NoMemory) }
    {
        match &self.content {
            PartContent::Bytes(bytes) => Ok(Some(bytes.read(off, len)?)),
            PartContent::Names(_) => Ok(None),
        }
    }

    /// Returns the file that a name of a directory leads to, if it has the name; none for a file.
    /// The name's path is loaded.
    pub fn name_get(&self, name: &Name) -> Option<FileId>
        requires { HasName name.now self.now }
        ensures { (i : Inode) → StandsInode self.now i
            → file_value result ≡ field_value (Some i) (NameOf name.now) }
    {
        // names the key for the prover (docs/ARCHITECTURE.md, "Forms the kit wants")
        let _bytes = name.byte_count();
        match &self.content {
            PartContent::Bytes(_) => None,
            PartContent::Names(names) => names.get(name).copied(),
        }
    }

    /// Tells whether it has no names, as a file; the root's node of a directory's names is loaded.
    pub fn is_bare(&self) -> bool
        requires { HasRootIn self.now.content }
        ensures { (i : Inode) → StandsInode self.now i → result ≡ has_no_names (Some i) }
    {
        match &self.content {
            PartContent::Bytes(_) => true,
            PartContent::Names(names) => names.is_empty(),
        }
    }

    /// Lists the names of a directory by their bytes, and where they lead; none for a file. All
    /// names are loaded. Fails only with `NoMemory`.
    pub fn names(&self) -> Result<Option<Vec<(Name, FileId)>>, Refusal>
        requires { HasNamesIn self.now.content }
        ensures value { (i : Inode) → StandsInode self.now i → IfOk result (λ list.
            option_map (λ v. v.items) list ≡ names_of (Some i)) }
        ensures refused { IfErr result (λ e. e ≡ NoMemory) }
    {
        match &self.content {
            PartContent::Bytes(_) => Ok(None),
            PartContent::Names(names) => Ok(Some(names.entries()?)),
        }
    }

    /// Makes a name lead to `file`; does nothing to a file. The name's path is loaded. Fails only
    /// with `NoMemory`, and then changes nothing.
    pub(crate) fn name_set(&mut self, name: Name, file: FileId) -> Result<(), Refusal>
        requires { HasName name self.old }
        ensures ok { (i : Inode) → StandsInode self.old i
            → OnOk result (StandsInode self.new (with_named name (Some file) i)) }
        ensures refused { IfErr result (λ e. e ≡ NoMemory) }
        ensures err { OnErr result (self.new ≡ self.old) }
        ensures absent { (i : Inode) → StandsInode self.old i
            → OnErr result (field_value (Some i) (NameOf name) ≡ Nothing) }
        ensures keeps { HasAllIn self.old.content self.new.content }
        ensures known { (i : Inode) → StandsInode self.old i
            → OnOk result (StaysKnownIn self.old.content i.content self.new.content
            (with_named name (Some file) i).content) }
    {
        // names the key for the prover (docs/ARCHITECTURE.md, "Forms the kit wants")
        let _bytes = name.byte_count();
        match &mut self.content {
            PartContent::Bytes(_) => Ok(()),
            PartContent::Names(names) => Ok(names.put(name, file)?),
        }
    }

    /// Takes away a name, which is known; does nothing to a file. It takes no memory.
    pub(crate) fn name_remove(&mut self, name: &Name)
        ensures stands { (i : Inode) → StandsInode self.old i
            → KnowsNameIn name.now self.old.content i.content
            → StandsInode self.new (with_named name.now None i) }
        ensures known { (i : Inode) → StandsInode self.old i
            → KnowsNameIn name.now self.old.content i.content
            → StaysKnownIn self.old.content i.content self.new.content
            (with_named name.now None i).content }
    {
        // names the key for the prover (docs/ARCHITECTURE.md, "Forms the kit wants")
        let _bytes = name.byte_count();
        match &mut self.content {
            PartContent::Bytes(_) => {}
            PartContent::Names(names) => names.take(name),
        }
    }

    /// Sets the number of names that lead to it.
    pub(crate) fn set_links(&mut self, links: u8)
        ensures stands { (i : Inode) → StandsInode self.old i
            → StandsInode self.new (with_links links i) }
        ensures same { self.new.content ≡ self.old.content }
    {
        self.links = links;
    }

    /// Writes bytes into a file from an offset on, and fills a gap before them with zeros; does
    /// nothing to a directory. What it needs is loaded. Fails only with `NoMemory`, and only where
    /// the file grows; then it stands for what it stood for, and what was loaded is loaded.
    pub(crate) fn write_at(&mut self, off: u32, bytes: &[u8]) -> Result<(), Refusal>
        requires small { off + length bytes.now < 2 ^ 32 }
        requires there { HasWriteIn off (length bytes.now) self.old.content }
        ensures ok { (i : Inode) → StandsInode self.old i
            → OnOk result (StandsInode self.new (with_written off bytes.now i)) }
        ensures refused { IfErr result (λ e. e ≡ NoMemory) }
        ensures err { (i : Inode) → StandsInode self.old i
            → OnErr result (StandsInode self.new i) }
        ensures keeps { OnErr result (HasAllIn self.old.content self.new.content) }
        ensures succeeds { (i : Inode) → StandsInode self.old i
            → off + length bytes.now ≤ size_of i.content → IsOk result }
        ensures all { (i : Inode) → StandsInode self.old i
            → off + length bytes.now ≤ size_of i.content
            → HasAllIn self.old.content self.new.content }
        ensures known { (i : Inode) → StandsInode self.old i
            → OnOk result (StaysKnownIn self.old.content i.content self.new.content
            (with_written off bytes.now i).content) }
    {
        match &mut self.content {
            PartContent::Bytes(blocks) => Ok(blocks.write_at(off, bytes)?),
            PartContent::Names(_) => Ok(()),
        }
    }

    /// Returns the digest of the inode. It makes one hash.
    pub(crate) fn digest(&self) -> Digest
        ensures { (i : Inode) → StandsInode self.now i → result ≡ inode_digest i }
    {
        let mut hasher = Sha256::new();
        hasher.update([3]);
        self.home.feed(&mut hasher);
        hasher.update([self.content.kind_byte(), self.links]);
        hasher.update(self.content.size().to_be_bytes());
        hasher.update(self.content.digest().as_bytes());
        Digest::new(hasher.finalize())
    }
}
