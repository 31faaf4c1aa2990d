// What stands at a place of an i-table: a file or a directory.
ghost use Rattle.std.specs.Prelude.{◌≡◌, ◌+◌, ◌<◌, ◌≤◌, ◌^◌, ℕ, length, Some, None, IfOk, IsOk, IfErr, OnOk, OnErr, option_map};
ghost use Rattle.std.specs.FinMap.{get};
ghost use Rattle.su_node.specs.Inode.{new_inode, kind_of, size_of, has_no_names, names_of, bytes_of, within};
ghost use Rattle.su_node.specs.InodeChange.{InodeChange.Named, InodeChange.Linked, InodeChange.Written, InodeChange.Resized, inode_after};
ghost use Rattle.su_node.specs.Cost.{IsSmall, hashes_of_write};
ghost use Rattle.su_node.specs.Field.{Field.NameOf, Value.Nothing, file_value, field_value};
ghost use Rattle.su_bytes.specs.declared.refusals.Refusal.TheVariants.{NoMemory};

mod digests;

use crate::blocks::Blocks;
use std::alloc::Global;
use std::marker::Model;
use su_bytes::{FileId, Kind, Name, Refusal};
use su_hash_tree::HashTree;

/// The content of an inode as it is stored.
#[derive(Drop)]
enum Stored {
    Bytes(Blocks),
    Names(HashTree<Name, FileId>),
}

/// A file or a directory: the file id that it was made for, how many names lead to it, and its
/// bytes or names.
pub struct Inode {
    home: FileId,
    links: u8,
    content: Stored,
    alloc: Global,
}

impl Model for Inode {
    ghost use Rattle.su_node.specs.Inode.{Inode};
    ghost use Rattle.su_node.specs.Code.{inode_code};

    ghost Value = { Inode };

    ghost coded = { inode_code };

    ghost use Rattle.su_node.specs.View.{content_of};

    ghost view = { λ i. record { home = i.home; links = i.links; content = content_of i.content } };
}

impl Drop for Inode {
    // (By hand, so that a caller's proof needs no case for each kind of content.)
    fn drop(self) {
        let Inode {
            home: _,
            links: _,
            content: _content,
            alloc: _,
        } = self;
    }
}

impl Inode {
    /// Makes an empty file or directory with one link.
    pub fn new(alloc: Global, home: FileId, kind: Kind) -> Inode
        ensures { result ≡ new_inode home kind }
    {
        let content = match kind {
            Kind::File => Stored::Bytes(Blocks::new(alloc)),
            Kind::Dir => Stored::Names(HashTree::empty(alloc)),
        };
        Inode {
            home,
            links: 1,
            content,
            alloc,
        }
    }

    /// Returns the file id that it was made for.
    pub fn home(&self) -> FileId
        ensures { result ≡ self.now.home }
    {
        self.home
    }

    /// Tells a file from a directory.
    pub fn kind(&self) -> Kind
        ensures { result ≡ kind_of self.now.content }
    {
        match &self.content {
            Stored::Bytes(_) => Kind::File,
            Stored::Names(_) => Kind::Dir,
        }
    }

    /// Returns the number of names that lead to it.
    pub fn links(&self) -> u8
        ensures { result ≡ self.now.links }
    {
        self.links
    }

    /// Returns the size of a file in bytes; 0 for a directory.
    pub fn size(&self) -> u32
        ensures { result ≡ size_of self.now.content }
    {
        match &self.content {
            Stored::Bytes(bytes) => bytes.size(),
            Stored::Names(_) => 0,
        }
    }

    /// Tells whether it has no names, which no file has.
    pub fn is_bare(&self) -> bool
        ensures { result ≡ has_no_names (Some self.now) }
    {
        match &self.content {
            Stored::Bytes(_) => true,
            Stored::Names(names) => names.is_empty(),
        }
    }

    /// Returns the file that a name of the directory leads to, if it has the name.
    pub fn name_get(&self, name: &Name) -> Option<FileId>
        ensures { file_value result ≡ field_value (Some self.now) (NameOf name.now) }
    {
        match &self.content {
            Stored::Bytes(_) => None,
            Stored::Names(names) => names.get(name).copied(),
        }
    }

    /// Lists the names by their bytes, and where each leads; none for a file. Fails only with
    /// `NoMemory`.
    pub fn names(&self) -> Result<Option<Vec<(Name, FileId)>>, Refusal>
        ensures value { IfOk result (λ names.
            option_map (λ v. v.items) names ≡ names_of (Some self.now)) }
        ensures refused { IfErr result (λ e. e ≡ NoMemory) }
    {
        match &self.content {
            Stored::Bytes(_) => Ok(None),
            Stored::Names(names) => Ok(Some(names.entries()?)),
        }
    }

    /// Reads all bytes of a file; none for a directory. Fails only with `NoMemory`.
    pub fn content(&self) -> Result<Option<Vec<u8>>, Refusal>
        ensures value { IfOk result (λ bytes.
            option_map (λ v. v.items) bytes ≡ bytes_of (Some self.now)) }
        ensures refused { IfErr result (λ e. e ≡ NoMemory) }
    {
        match &self.content {
            Stored::Bytes(bytes) => Ok(Some(bytes.content()?)),
            Stored::Names(_) => Ok(None),
        }
    }

    /// Reads the bytes of a file within a range; none for a directory. Fails only with `NoMemory`.
    /// (It looks at the blocks in the range alone.)
    pub fn read_at(&self, off: u64, len: u64) -> Result<Option<Vec<u8>>, Refusal>
        ensures value { IfOk result (λ bytes.
            option_map (λ v. v.items) bytes
            ≡ option_map (within off len) (bytes_of (Some self.now))) }
        ensures refused { IfErr result (λ e. e ≡ NoMemory) }
    {
        match &self.content {
            Stored::Bytes(bytes) => Ok(Some(bytes.read(off, len)?)),
            Stored::Names(_) => Ok(None),
        }
    }

    /// Copies the inode. Fails only with `NoMemory`.
    pub fn copy(&self) -> Result<Inode, Refusal>
        ensures value { IfOk result (λ copy. copy ≡ self.now) }
        ensures refused { IfErr result (λ e. e ≡ NoMemory) }
    {
        let content = match &self.content {
            Stored::Bytes(bytes) => Stored::Bytes(bytes.copy()?),
            Stored::Names(names) => Stored::Names(names.copy()?),
        };
        Ok(Inode {
            home: self.home,
            links: self.links,
            content,
            alloc: self.alloc,
        })
    }

    /// Makes a name lead to `file`; does nothing to a file. Takes memory only for a name that isn't
    /// there. Fails only with `NoMemory`, and then changes nothing.
    pub fn name_set(&mut self, name: Name, file: FileId) -> Result<(), Refusal>
        ensures ok { OnOk result
            (inode_after (Named name (Some file)) (Some self.old) ≡ Some self.new) }
        ensures refused { IfErr result (λ e. e ≡ NoMemory) }
        ensures absent { OnErr result (field_value (Some self.old) (NameOf name) ≡ Nothing) }
        ensures err { OnErr result (self.new ≡ self.old) }
    {
        if let Stored::Names(names) = &mut self.content {
            names.insert(name, file)?;
        }
        Ok(())
    }

    /// Removes a name, if it is there.
    pub fn name_remove(&mut self, name: &Name)
        ensures { inode_after (Named name.now None) (Some self.old) ≡ Some self.new }
    {
        if let Stored::Names(names) = &mut self.content {
            names.remove(name);
        }
    }

    /// Writes bytes into a file from an offset on, and fills a gap before them with zeros; does
    /// nothing to a directory. Returns how many hashes it made. Fails only with `NoMemory`, where
    /// the file grows, and then changes nothing. (It touches the blocks alone that hold these bytes
    /// or the gap.)
    pub fn write_at(&mut self, off: u32, bytes: &[u8]) -> Result<u64, Refusal>
        requires { off + length bytes.now < 2 ^ 32 }
        ensures ok { OnOk result
            (inode_after (Written (size_of self.old.content) off bytes.now) (Some self.old)
            ≡ Some self.new) }
        ensures refused { IfErr result (λ e. e ≡ NoMemory) }
        ensures succeeds { off + length bytes.now ≤ size_of self.old.content → IsOk result }
        ensures err { OnErr result (self.new ≡ self.old) }
        ensures hashes { IfOk result (λ made. let size = size_of self.old.content in
            (bits : ℕ) → IsSmall bits size → IsSmall bits (off + length bytes.now)
            → made ≤ hashes_of_write bits size off (length bytes.now)) }
    {
        match &mut self.content {
            Stored::Bytes(blocks) => Ok(blocks.write_at(off, bytes)?),
            Stored::Names(_) => Ok(0),
        }
    }

    /// Cuts a file to a size in bytes, or fills it with zeros up to it; does nothing to a
    /// directory. Fails only with `NoMemory`, where the file grows, and then changes nothing. (It
    /// touches the last block alone, and those that come or go.)
    pub fn resize(&mut self, size: u32) -> Result<(), Refusal>
        ensures ok { OnOk result
            (inode_after (Resized (size_of self.old.content) size) (Some self.old)
            ≡ Some self.new) }
        ensures succeeds { size ≤ size_of self.old.content → IsOk result }
        ensures refused { IfErr result (λ e. e ≡ NoMemory) }
        ensures err { OnErr result (self.new ≡ self.old) }
    {
        if let Stored::Bytes(blocks) = &mut self.content {
            blocks.resize(size)?;
        }
        Ok(())
    }

    /// Sets the number of names that lead to it.
    pub fn set_links(&mut self, links: u8)
        ensures { inode_after (Linked links) (Some self.old) ≡ Some self.new }
    {
        self.links = links;
    }
}
