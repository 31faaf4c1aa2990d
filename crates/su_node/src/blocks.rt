// The bytes of a file, in blocks.
ghost use Rattle.std.specs.Prelude.{◌≡◌, ◌+◌, ◌-◌, ◌*◌, ◌<◌, ◌≤◌, ◌^◌, ℕ, [], IfOk, IsOk, OnOk, OnErr, length};
ghost use Rattle.su_node.specs.InodeChange.{with_size, with_bytes_at};
ghost use Rattle.su_node.specs.Inode.{within};
ghost use Rattle.su_node.specs.Digest.{block_count, block_digests};
ghost use Rattle.su_node.specs.Cost.{IsSmall, blocks_grown, blocks_touched, hashes_of_blocks, hashes_of_write};
ghost use Rattle.su_node.specs.Stored.{AreZeroBlocks, with_padded};
ghost use Rattle.su_tree.specs.Digest.{digest};
ghost use Rattle.su_tree.specs.Number.{numbers};

mod hashed;

use self::hashed::{Block, HashedBlocks};
use std::alloc::{AllocError, Global};
use std::marker::Model;
use su_bytes::Digest;

/// Bytes of each block of a file but the last.
pub const BLOCK_SIZE: usize = 4096;

/// The bytes of a file, in blocks of 4,096 bytes: each is full but the last, and none is empty. The
/// blocks keep the tree of their digests.
#[derive(Drop)]
pub(crate) struct Blocks {
    blocks: HashedBlocks,
    size: u32,
    alloc: Global,
}

impl Model for Blocks {
    ghost use Rattle.std.specs.Prelude.{ℕ, List};
    ghost use Rattle.std.specs.List.{concat};
    ghost use Rattle.su_node.specs.Stored.{AreStored};

    ghost Value = { List ℕ };

    ghost view = { λ b. concat b.blocks };

    ghost invariant = { λ b. AreStored b.blocks b.size };
}

impl Blocks {
    /// Makes a file of no bytes.
    pub(crate) fn new(alloc: Global) -> Blocks
        ensures { result ≡ [] }
    {
        Blocks {
            blocks: HashedBlocks::new(alloc),
            size: 0,
            alloc,
        }
    }

    /// Returns the number of bytes.
    pub(crate) fn size(&self) -> u32
        ensures { result ≡ length self.now }
    {
        self.size
    }

    /// Reads all bytes.
    pub(crate) fn content(&self) -> Result<Vec<u8>, AllocError>
        ensures { IfOk result (λ bytes. bytes.items ≡ self.now) }
    {
        self.read(0, u64::from(self.size))
    }

    /// Reads the bytes within a range, which may reach past the end.
    pub(crate) fn read(&self, off: u64, len: u64) -> Result<Vec<u8>, AllocError>
        ensures value { IfOk result (λ bytes. bytes.items ≡ within off len self.now) }
    {
        let size = self.size as usize;
        let start = (off as usize).min(size);
        let end = start + (len as usize).min(size - start);
        let mut bytes = Vec::with_capacity(self.alloc, end - start)?;
        for number in start / BLOCK_SIZE..count_for(end) {
            let block = self.blocks.get(number);
            let first = start.max(number * BLOCK_SIZE) - number * BLOCK_SIZE;
            let last = end.min(number * BLOCK_SIZE + block.len()) - number * BLOCK_SIZE;
            let part = &block[first..last];
            bytes.extend_from_slice(part)?;
        }
        Ok(bytes)
    }

    /// Copies the file.
    pub(crate) fn copy(&self) -> Result<Blocks, AllocError>
        ensures value { IfOk result (λ copy. copy ≡ self.now) }
    {
        Ok(Blocks {
            blocks: self.blocks.copy(self.alloc)?,
            size: self.size,
            alloc: self.alloc,
        })
    }

    /// Writes bytes from an offset on, and fills a gap before them with zeros. Returns how many
    /// hashes it made. Takes no memory where the file doesn't grow; where there is none, it changes
    /// nothing.
    pub(crate) fn write_at(&mut self, off: u32, bytes: &[u8]) -> Result<u64, AllocError>
        requires { off + length bytes.now < 2 ^ 32 }
        ensures ok { OnOk result (self.new ≡ with_bytes_at off bytes.now self.old) }
        ensures succeeds { off + length bytes.now ≤ length self.old → IsOk result }
        ensures err { OnErr result (self.new ≡ self.old) }
        ensures hashes { IfOk result (λ made. let size = length self.old in
            (bits : ℕ) → IsSmall bits size → IsSmall bits (off + length bytes.now)
            → made ≤ hashes_of_write bits size off (length bytes.now)) }
    {
        let end_ = off + bytes.len() as u32;
        let grown = if self.size < end_ {
            self.grow(end_)?
        } else {
            0
        };
        let written = self.overwrite(off as usize, bytes);
        Ok(grown.saturating_add(written))
    }

    /// Cuts the file to a size, or fills it with zeros up to it. Takes no memory where the file
    /// doesn't grow; where there is none, it changes nothing.
    pub(crate) fn resize(&mut self, size: u32) -> Result<(), AllocError>
        ensures ok { OnOk result (self.new ≡ with_size size self.old) }
        ensures succeeds { size ≤ length self.old → IsOk result }
        ensures err { OnErr result (self.new ≡ self.old) }
    {
        if size <= self.size {
            self.cut(size);
        } else {
            self.grow(size)?;
        }
        Ok(())
    }

    /// Cuts the file to its first bytes.
    fn cut(&mut self, size: u32)
        requires { size ≤ length self.old }
        ensures { self.new ≡ with_size size self.old }
    {
        let count = count_for(size as usize);
        self.blocks.truncate(count);
        if 0 < count {
            let last = size as usize - (count - 1) * BLOCK_SIZE;
            self.blocks.cut(count - 1, last);
        }
        self.size = size;
    }

    /// Adds zeros up to a size. Returns how many hashes it made. Where there is no memory, it
    /// changes nothing.
    fn grow(&mut self, size: u32) -> Result<u64, AllocError>
        requires { length self.old ≤ size }
        ensures ok { OnOk result (self.new ≡ with_size size self.old) }
        ensures err { OnErr result (self.new ≡ self.old) }
        ensures hashes { IfOk result (λ made. (bits : ℕ) → IsSmall bits size
            → made ≤ hashes_of_blocks bits (blocks_grown (length self.old) size)) }
    {
        let count = self.blocks.len();
        let added = zero_blocks(self.alloc, count, size as usize)?;
        let appended = self.blocks.append(added)?;
        let padded = match pad(&mut self.blocks, count, size as usize) {
            Ok(made) => made,
            Err(refused) => {
                self.blocks.truncate(count);
                return Err(refused);
            }
        };
        self.size = size;
        Ok(appended.saturating_add(padded))
    }

    /// Returns the digest of the blocks by their numbers. It makes no hash.
    pub(crate) fn digest(&self) -> Digest
        ensures { result ≡ digest (numbers (λ d. d)) (block_digests self.now) }
    {
        self.blocks.digest()
    }

    /// Writes bytes over those from an offset on. Returns how many hashes it made.
    fn overwrite(&mut self, off: usize, bytes: &[u8]) -> u64
        requires { off + length bytes.now ≤ length self.old }
        ensures value { self.new ≡ with_bytes_at off bytes.now self.old }
        ensures hashes { (bits : ℕ) → IsSmall bits (length self.old)
            → result ≤ hashes_of_blocks bits (blocks_touched off (length bytes.now)) }
    {
        // names the size for the prover (docs/ARCHITECTURE.md, "Forms the kit wants")
        let _size = self.size;
        let end_ = off + bytes.len();
        let mut hashes: u64 = 0;
        for number in off / BLOCK_SIZE..count_for(end_) {
            let first = off.max(number * BLOCK_SIZE);
            let last = end_.min((number + 1) * BLOCK_SIZE);
            let part = &bytes[first - off..last - off];
            let made = self
                .blocks
                .overwrite(number, first - number * BLOCK_SIZE, part);
            hashes = hashes.saturating_add(made);
        }
        hashes
    }
}

/// How many blocks a file of that size has.
fn count_for(size: usize) -> usize
    requires { size < 2 ^ 33 }
    ensures { result ≡ block_count size }
{
    (size + (BLOCK_SIZE - 1)) / BLOCK_SIZE
}

/// The blocks from one number on, of a file of that size that has nothing but zeros there.
fn zero_blocks(alloc: Global, first: usize, size: usize) -> Result<Vec<Block>, AllocError>
    requires { size < 2 ^ 33 }
    ensures count { IfOk result (λ added. length added.items ≡ block_count size - first) }
    ensures zeros { IfOk result (λ added. AreZeroBlocks added.items first size) }
{
    let mut added = Vec::new(alloc);
    for number in first..count_for(size) {
        let block = Block::zeros(alloc, BLOCK_SIZE.min(size - number * BLOCK_SIZE))?;
        added.push(block)?;
    }
    Ok(added)
}

/// Fills the last of the first blocks, if there is one, with zeros up to where it is full or the
/// file has that size. Returns how many hashes it made. Where there is no memory, it changes
/// nothing.
fn pad(blocks: &mut HashedBlocks, count: usize, size: usize) -> Result<u64, AllocError>
    requires there { count ≤ length blocks.old }
    requires within { BLOCK_SIZE * (count - 1) ≤ size }
    ensures ok { OnOk result (blocks.new ≡ with_padded count size blocks.old) }
    ensures err { OnErr result (blocks.new ≡ blocks.old) }
    ensures hashes { IfOk result (λ made. (bits : ℕ) → length blocks.old ≤ 2 ^ bits
        → made ≤ hashes_of_blocks bits 1) }
{
    if 0 < count {
        let last = BLOCK_SIZE.min(size - (count - 1) * BLOCK_SIZE);
        blocks.resize(count - 1, last)
    } else {
        Ok(0)
    }
}
