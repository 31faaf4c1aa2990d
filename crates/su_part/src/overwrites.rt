// Bytes of a file that are written in place, which takes no memory.
ghost use Rattle.std.specs.Prelude.{◌≡◌, ◌+◌, ◌*◌, ◌<◌, ◌≤◌, ◌^◌, ℕ, List, length, Some};
ghost use Rattle.su_node.specs.Field.{block};
ghost use Rattle.su_node.specs.InodeChange.{with_bytes_at};
ghost use Rattle.su_part.specs.Bytes.{HasAllBlocks, HasBlock, HasWrite, StandsBytes, loaded_block};
ghost use Rattle.su_part.specs.InPlace.{IsReplaced};

use crate::blocks::{Block, PartBytes, count_for};
use su_node::BLOCK_SIZE;

impl Block {
    /// Puts those of the bytes that are written into the file from the offset `off` on and lie in
    /// the block, which begins at `start` there.
    fn overwrite_part(&mut self, start: usize, off: usize, bytes: &[u8])
        requires first { start < 2 ^ 33 }
        requires last { off + length bytes.now < 2 ^ 33 }
        ensures { (n : ℕ) (bs : List ℕ) → start ≡ n * BLOCK_SIZE → self.old ≡ block n bs
            → off + length bytes.now ≤ length bs
            → self.new ≡ block n (with_bytes_at off bytes.now bs) }
    {
        let len = self.as_slice().len();
        let first = off.max(start);
        let last = (off + bytes.len()).min(start + len);
        if last <= first {
            return;
        }
        self.overwrite(first - start, &bytes[first - off..last - off]);
    }
}

impl PartBytes {
    /// Writes bytes within the file from an offset on. The blocks that it touches are loaded.
    pub fn overwrite(&mut self, off: u32, bytes: &[u8])
        requires within { off + length bytes.now ≤ self.old.size }
        requires there { HasWrite off (length bytes.now) self.old }
        ensures stands { (bs : List ℕ) → StandsBytes self.old bs
            → StandsBytes self.new (with_bytes_at off bytes.now bs) }
        ensures keeps { HasAllBlocks self.old self.new }
    {
        let first = off as usize / BLOCK_SIZE;
        let until = count_for(off as usize + bytes.len());
        for number in first..until {
            self.overwrite_block(number as u32, off as usize, bytes);
        }
    }

    /// Puts those of the bytes that are written from the offset `off` on and lie in a block, which
    /// is loaded.
    fn overwrite_block(&mut self, number: u32, off: usize, bytes: &[u8])
        requires there { HasBlock number self.old }
        requires small { off + length bytes.now < 2 ^ 33 }
        requires few { number < 2 ^ 20 }
        ensures stands { (bs : List ℕ) → loaded_block self.old number ≡ Some (block number bs)
            → off + length bytes.now ≤ length bs
            → IsReplaced number (block number (with_bytes_at off bytes.now bs)) self.old self.new }
        ensures keeps { HasAllBlocks self.old self.new }
    {
        let Some(block) = self.blocks.get_mut(&number) else {
            return;
        };
        block.overwrite_part(number as usize * BLOCK_SIZE, off, bytes);
        let digest = block.digest();
        // the number is there, so without memory
        let _done = self.digests.put(number, digest);
    }
}
