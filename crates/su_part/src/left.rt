// Blocks of a file that are left on a store and put back as they are, which takes no memory.
ghost use Rattle.std.specs.Prelude.{◌≡◌, ◌+◌, ◌*◌, ◌<◌, ◌≤◌, ◌^◌, ℕ, List, IsTrue, length};
ghost use Rattle.std.specs.FinMap.{get};
ghost use Rattle.su_tree.specs.Number.{number_bits};
ghost use Rattle.su_part_tree.specs.Part.{reaches};
ghost use Rattle.su_node.specs.Inode.{Inode, size_of};
ghost use Rattle.su_node.specs.InodeChange.{InodeChange.Written, with_bytes_at};
ghost use Rattle.su_table.specs.Edit.{Edit.Inodes, edit};
ghost use Rattle.su_table.specs.Query.{size_at};
ghost use Rattle.su_table.specs.Tree.{Tree};
ghost use Rattle.su_part.specs.Bytes.{StandsBytes};
ghost use Rattle.su_part.specs.Known.{HasIfLoaded, KnowsInode};
ghost use Rattle.su_part.specs.Left.{AreDigests, AreDigestsIn, AreDigestsOf, HasPaths, HasPathsOf, IsLeft, LeavesBlocks, StaysKnownBut, StaysKnownInBut};
ghost use Rattle.su_part.specs.Part.{StandsInode, StandsUser, StaysLoaded, with_written};

use crate::blocks::PartBytes;
use crate::inodes::{PartContent, PartInode};
use crate::users::UserPart;
use su_bytes::{Digest, Inum};
use su_node::BLOCK_SIZE;

impl PartBytes {
    /// Puts blocks that are left on the store in the place of those from number `first` on: of each
    /// its digest. The paths of their numbers are loaded.
    pub fn put_left(&mut self, first: u32, digests: &[Digest])
        requires small { first + length digests.now < 2 ^ 32 }
        requires paths { HasPaths first (first + length digests.now) self.old }
        ensures stands { (bs xs : List ℕ) → StandsBytes self.old bs
            → BLOCK_SIZE * first + length xs ≤ length bs → AreDigests first xs bs digests.now
            → StandsBytes self.new (with_bytes_at (BLOCK_SIZE * first) xs bs) }
        ensures leaves { LeavesBlocks first (first + length digests.now) self.old self.new }
    {
        let mut number = first;
        for digest in digests {
            self.put_left_at(number, *digest);
            number += 1;
        }
    }

    /// Puts a block that is left on the store at a number, of which the path is loaded: its digest.
    fn put_left_at(&mut self, number: u32, digest: Digest)
        requires { IsTrue (reaches number_bits number self.old.digests) }
        ensures left { IsLeft number digest self.old self.new }
        ensures paths { (n : ℕ) → IsTrue (reaches number_bits n self.old.digests)
            → IsTrue (reaches number_bits n self.new.digests) }
    {
        self.digests.set(number, digest);
        self.blocks.remove(&number);
    }
}

impl PartInode {
    /// Puts blocks that are left on the store into a file, in the place of those from number
    /// `first` on; does nothing to a directory. The paths of their numbers are loaded.
    pub(crate) fn put_left(&mut self, first: u32, digests: &[Digest])
        requires small { first + length digests.now < 2 ^ 32 }
        requires paths { HasPathsOf first (first + length digests.now) self.old }
        ensures stands { (i : Inode) (xs : List ℕ) → StandsInode self.old i
            → BLOCK_SIZE * first + length xs ≤ size_of i.content
            → AreDigestsIn first xs i.content digests.now
            → StandsInode self.new (with_written (BLOCK_SIZE * first) xs i) }
        ensures known { (i : Inode) (xs : List ℕ) → StandsInode self.old i
            → BLOCK_SIZE * first + length xs ≤ size_of i.content
            → StaysKnownInBut first (first + length digests.now) self.old.content i.content
            self.new.content (with_written (BLOCK_SIZE * first) xs i).content }
    {
        match &mut self.content {
            PartContent::Bytes(bytes) => bytes.put_left(first, digests),
            PartContent::Names(_) => {}
        }
    }
}

impl UserPart {
    /// Puts blocks that are left on the store into the file of a number, which is known, in the
    /// place of those from number `first` on: of each its digest. The paths of their numbers are
    /// loaded. Does nothing where no file stands. What was known stays known, but for these blocks,
    /// of which the paths do.
    pub fn put_left(&mut self, number: Inum, first: u32, digests: &[Digest])
        requires small { first + length digests.now < 2 ^ 32 }
        requires loaded { HasIfLoaded number (HasPathsOf first (first + length digests.now))
            self.old }
        ensures stands { (u : ℕ) (T : Tree) (xs : List ℕ) → StandsUser u self.old T
            → KnowsInode u T number self.old
            → BLOCK_SIZE * first + length xs ≤ size_at T (u, number)
            → AreDigestsOf first xs (get T.inodes (u, number)) digests.now
            → StandsUser u self.new (edit T (Inodes (u, number)
            (Written (size_at T (u, number)) (BLOCK_SIZE * first) xs))) }
        ensures known { (u : ℕ) (T : Tree) (xs : List ℕ) → StandsUser u self.old T
            → KnowsInode u T number self.old
            → BLOCK_SIZE * first + length xs ≤ size_at T (u, number)
            → StaysKnownBut u number first (first + length digests.now) T
            (edit T (Inodes (u, number)
            (Written (size_at T (u, number)) (BLOCK_SIZE * first) xs))) self.old self.new }
        ensures stays { StaysLoaded number self.old self.new }
    {
        let key = number.number();
        if let Some(inode) = self.inodes.get_mut(&key) {
            inode.put_left(first, digests);
            let digest = inode.digest();
            self.table.set(key, digest);
        }
    }
}
