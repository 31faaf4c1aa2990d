// Files that are cut, which takes no memory.
ghost use Rattle.std.specs.Prelude.{◌≡◌, ◌+◌, ◌*◌, ◌<◌, ◌≤◌, ◌^◌, ℕ, List, IsTrue, Some, take, length};
ghost use Rattle.su_tree.specs.Number.{number_bits};
ghost use Rattle.su_part_tree.specs.Part.{reaches};
ghost use Rattle.su_node.specs.Digest.{block_count};
ghost use Rattle.su_node.specs.InodeChange.{with_size};
ghost use Rattle.su_node.specs.Inode.{Inode, size_of};
ghost use Rattle.su_node.specs.InodeChange.{InodeChange.Resized};
ghost use Rattle.su_table.specs.Edit.{Edit.Inodes, edit};
ghost use Rattle.su_table.specs.Query.{size_at};
ghost use Rattle.su_table.specs.Tree.{Tree};
ghost use Rattle.su_part.specs.Bytes.{HasAllBlocks, HasBlock, HasCut, StandsBytes, loaded_block};
ghost use Rattle.su_part.specs.Cut.{HasCutIn, HasCutOf, with_resized};
ghost use Rattle.su_part.specs.Known.{HasIfLoaded, KnowsInode, StaysKnown, StaysKnownIn};
ghost use Rattle.su_part.specs.Part.{StandsInode, StandsUser, StaysLoaded};
ghost use Rattle.su_part.specs.InPlace.{HasJust, IsReplaced, KeepsBelow, half_cut};

use crate::blocks::{Block, PartBytes, count_for};
use crate::inodes::{PartContent, PartInode};
use crate::users::UserPart;
use su_bytes::Inum;
use su_node::BLOCK_SIZE;

impl Block {
    /// Cuts the block to its first `len` bytes, where it has more.
    fn cut(&mut self, len: usize)
        ensures { self.new ≡ take len self.old }
    {
        self.bytes.truncate(len);
    }
}

impl PartBytes {
    /// Cuts the file to a size; does nothing where the file isn't longer. What it needs is loaded.
    pub fn cut(&mut self, size: u32)
        requires { HasCut size self.old }
        ensures stands { (bs : List ℕ) → StandsBytes self.old bs → size ≤ length bs
            → StandsBytes self.new (with_size size bs) }
        ensures keeps { (bs : List ℕ) → StandsBytes self.old bs → size ≤ length bs → (n : ℕ)
            → BLOCK_SIZE * n < size → HasBlock n self.old → HasBlock n self.new }
    {
        if self.size <= size {
            return;
        }
        let first = count_for(size as usize);
        let until = count_for(self.size as usize);
        self.cut_through(size);
        self.take_blocks(first as u32, until as u32);
        self.size = size;
    }

    /// Cuts the block that a cut of the file to a size below its own goes through, if it goes
    /// through one.
    fn cut_through(&mut self, size: u32)
        requires there { HasCut size self.old }
        requires below { size < self.old.size }
        ensures just { (bs : List ℕ) → StandsBytes self.old bs
            → HasJust (half_cut size bs) (block_count (length bs)) self.new }
        ensures keeps { HasAllBlocks self.old self.new }
    {
        let len = size as usize % BLOCK_SIZE;
        if len == 0 {
            return;
        }
        self.cut_block(size / BLOCK_SIZE as u32, len);
    }

    /// Cuts a block, which is loaded, to its first `len` bytes.
    fn cut_block(&mut self, number: u32, len: usize)
        requires { IsTrue (reaches number_bits number self.old.digests) }
        ensures replaced { (bytes : List ℕ) → loaded_block self.old number ≡ Some bytes
            → IsReplaced number (take len bytes) self.old self.new }
        ensures keeps { HasAllBlocks self.old self.new }
    {
        let Some(block) = self.blocks.get_mut(&number) else {
            return;
        };
        block.cut(len);
        let digest = block.digest();
        // the number is there, so without memory
        let _done = self.digests.put(number, digest);
    }

    /// Takes out the last blocks, those of the numbers from `first` on and before `until`, the last
    /// one first.
    fn take_blocks(&mut self, first: u32, until: u32)
        requires order { first ≤ until }
        requires paths { (n : ℕ) → first ≤ n → n < until
            → IsTrue (reaches number_bits n self.old.digests) }
        ensures just { (f : ℕ → List ℕ) → HasJust f until self.old → HasJust f first self.new }
        ensures keeps { (f : ℕ → List ℕ) → HasJust f until self.old
            → KeepsBelow first self.old self.new }
    {
        let mut number = until;
        while number > first {
            number -= 1;
            self.take_block(number);
        }
    }

    /// Takes out the last block, which has that number.
    fn take_block(&mut self, number: u32)
        ensures just { (f : ℕ → List ℕ) → HasJust f (number + 1) self.old
            → IsTrue (reaches number_bits number self.old.digests) → HasJust f number self.new }
        ensures keeps { (f : ℕ → List ℕ) → HasJust f (number + 1) self.old
            → IsTrue (reaches number_bits number self.old.digests)
            → KeepsBelow number self.old self.new }
    {
        self.digests.take(&number);
        self.blocks.remove(&number);
    }
}

impl PartInode {
    /// Cuts a file to a size that isn't above its own; does nothing to a directory. What it needs
    /// is loaded.
    pub(crate) fn cut(&mut self, size: u32)
        requires { HasCutIn size self.old.content }
        ensures stands { (i : Inode) → StandsInode self.old i → size ≤ size_of i.content
            → StandsInode self.new (with_resized size i) }
        ensures known { (i : Inode) → StandsInode self.old i → size ≤ size_of i.content
            → StaysKnownIn self.old.content i.content self.new.content
            (with_resized size i).content }
    {
        match &mut self.content {
            PartContent::Bytes(bytes) => bytes.cut(size),
            PartContent::Names(_) => {}
        }
    }
}

impl UserPart {
    /// Cuts the file of a number, which is known, to a size that isn't above its own. What it needs
    /// of the file is loaded. Does nothing where no file stands. What was known stays known.
    pub fn cut(&mut self, number: Inum, size: u32)
        requires { HasIfLoaded number (HasCutOf size) self.old }
        ensures stands { (u : ℕ) (T : Tree) → StandsUser u self.old T
            → KnowsInode u T number self.old → size ≤ size_at T (u, number)
            → StandsUser u self.new
            (edit T (Inodes (u, number) (Resized (size_at T (u, number)) size))) }
        ensures known { (u : ℕ) (T : Tree) → StandsUser u self.old T
            → KnowsInode u T number self.old → size ≤ size_at T (u, number) → StaysKnown u T
            (edit T (Inodes (u, number) (Resized (size_at T (u, number)) size)))
            self.old self.new }
        ensures stays { StaysLoaded number self.old self.new }
    {
        let key = number.number();
        if let Some(inode) = self.inodes.get_mut(&key) {
            inode.cut(size);
            let digest = inode.digest();
            self.table.set(key, digest);
        }
    }
}
