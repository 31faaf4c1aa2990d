// Whether what an edit needs of an inode is loaded.
ghost use Rattle.std.specs.Prelude.{◌↔◌, ℕ, IsTrue};
ghost use Rattle.su_table.specs.Tree.{Tree};
ghost use Rattle.su_part.specs.Bytes.{HasBlock, HasBlocks, HasCut, HasWrite};
ghost use Rattle.su_part.specs.Cut.{HasCutOf};
ghost use Rattle.su_part.specs.Left.{HasPaths, HasPathsOf};
ghost use Rattle.su_part.specs.Part.{HasAt, HasInode, HasName, HasWriteOf, StandsUser};

use crate::blocks::{PartBytes, count_for};
use crate::inodes::{PartContent, PartInode};
use crate::users::UserPart;
use su_bytes::{Inum, Name};
use su_node::BLOCK_SIZE;

impl PartBytes {
    /// Tells whether the path of a block's number is loaded, and the block where the file has it.
    fn has_block(&self, number: u32) -> bool
        ensures { IsTrue result ↔ HasBlock number self.now }
    {
        let start = u64::from(number) * BLOCK_SIZE as u64;
        let is_there = self.blocks.contains_key(&number);
        self.digests.reaches(&number) && (is_there || u64::from(self.size) <= start)
    }

    /// Tells so of each block number from `first` on and before `until`.
    fn has_blocks(&self, first: u32, until: u32) -> bool
        ensures { IsTrue result ↔ HasBlocks first until self.now }
    {
        for number in first..until {
            if !self.has_block(number) {
                return false;
            }
        }
        true
    }

    /// Tells whether what a write of `len` bytes from an offset on needs is loaded.
    fn has_write(&self, off: u32, len: u32) -> bool
        ensures { IsTrue result ↔ HasWrite off len self.now }
    {
        let first = off.min(self.size) as usize / BLOCK_SIZE;
        let until = count_for(off as usize + len as usize);
        self.has_blocks(first as u32, until as u32)
    }

    /// Tells whether what a cut to a size needs is loaded.
    fn has_cut(&self, size: u32) -> bool
        ensures { IsTrue result ↔ HasCut size self.now }
    {
        let first = size / BLOCK_SIZE as u32;
        if self.size <= size {
            return self.has_paths(first, count_for(self.size as usize) as u32);
        }
        let is_through = size as usize % BLOCK_SIZE != 0;
        (!is_through || self.blocks.contains_key(&first))
            && self.has_paths(first, count_for(self.size as usize) as u32)
    }

    /// Tells whether the paths of the block numbers from `first` on and before `until` are loaded.
    fn has_paths(&self, first: u32, until: u32) -> bool
        ensures { IsTrue result ↔ HasPaths first until self.now }
    {
        for number in first..until {
            if !self.digests.reaches(&number) {
                return false;
            }
        }
        true
    }
}

impl PartInode {
    /// Tells whether the path of a name is loaded; a file has none.
    fn has_name(&self, name: &Name) -> bool
        ensures { IsTrue result ↔ HasName name.now self.now }
    {
        match &self.content {
            PartContent::Bytes(_) => true,
            PartContent::Names(names) => names.reaches(name),
        }
    }

    /// Tells whether what a write needs is loaded; a directory has nothing of it.
    fn has_write(&self, off: u32, len: u32) -> bool
        ensures { IsTrue result ↔ HasWriteOf off len self.now }
    {
        match &self.content {
            PartContent::Bytes(bytes) => bytes.has_write(off, len),
            PartContent::Names(_) => true,
        }
    }

    /// Tells whether what a cut needs is loaded; a directory has nothing of it.
    fn has_cut(&self, size: u32) -> bool
        ensures { IsTrue result ↔ HasCutOf size self.now }
    {
        match &self.content {
            PartContent::Bytes(bytes) => bytes.has_cut(size),
            PartContent::Names(_) => true,
        }
    }

    /// Tells whether the paths of the block numbers from `first` on and before `until` are loaded;
    /// a directory has none.
    fn has_paths(&self, first: u32, until: u32) -> bool
        ensures { IsTrue result ↔ HasPathsOf first until self.now }
    {
        match &self.content {
            PartContent::Bytes(bytes) => bytes.has_paths(first, until),
            PartContent::Names(_) => true,
        }
    }
}

impl UserPart {
    /// Tells whether the inode of a number is loaded, or it is known that none stands there.
    pub fn has_inode(&self, number: Inum) -> bool
        ensures found { IsTrue result → HasInode number self.now }
        ensures told { (u : ℕ) (T : Tree) → StandsUser u self.now T → HasInode number self.now
            → IsTrue result }
    {
        let key = number.number();
        if !self.table.reaches(&key) {
            return false;
        }
        if self.inodes.contains_key(&key) {
            return true;
        }
        match self.table.get(&key) {
            Some(_) => false,
            None => true,
        }
    }

    /// Tells so, and whether the path of a name of it is loaded.
    pub fn has_name(&self, number: Inum, name: &Name) -> bool
        ensures found { IsTrue result → HasAt number (HasName name.now) self.now }
        ensures told { (u : ℕ) (T : Tree) → StandsUser u self.now T
            → HasAt number (HasName name.now) self.now → IsTrue result }
    {
        if !self.has_inode(number) {
            return false;
        }
        match self.inodes.get(&number.number()) {
            Some(inode) => inode.has_name(name),
            None => true,
        }
    }

    /// Tells so, and whether what a write of `len` bytes into it from an offset on needs is loaded.
    pub fn has_write(&self, number: Inum, off: u32, len: u32) -> bool
        ensures found { IsTrue result → HasAt number (HasWriteOf off len) self.now }
        ensures told { (u : ℕ) (T : Tree) → StandsUser u self.now T
            → HasAt number (HasWriteOf off len) self.now → IsTrue result }
    {
        if !self.has_inode(number) {
            return false;
        }
        match self.inodes.get(&number.number()) {
            Some(inode) => inode.has_write(off, len),
            None => true,
        }
    }

    /// Tells so, and whether what a cut of it to a size needs is loaded.
    pub fn has_cut(&self, number: Inum, size: u32) -> bool
        ensures found { IsTrue result → HasAt number (HasCutOf size) self.now }
        ensures told { (u : ℕ) (T : Tree) → StandsUser u self.now T
            → HasAt number (HasCutOf size) self.now → IsTrue result }
    {
        if !self.has_inode(number) {
            return false;
        }
        match self.inodes.get(&number.number()) {
            Some(inode) => inode.has_cut(size),
            None => true,
        }
    }

    /// Tells so, and whether the paths of its block numbers from `first` on and before `until` are
    /// loaded.
    pub fn has_paths(&self, number: Inum, first: u32, until: u32) -> bool
        ensures found { IsTrue result → HasAt number (HasPathsOf first until) self.now }
        ensures told { (u : ℕ) (T : Tree) → StandsUser u self.now T
            → HasAt number (HasPathsOf first until) self.now → IsTrue result }
    {
        if !self.has_inode(number) {
            return false;
        }
        match self.inodes.get(&number.number()) {
            Some(inode) => inode.has_paths(first, until),
            None => true,
        }
    }
}
