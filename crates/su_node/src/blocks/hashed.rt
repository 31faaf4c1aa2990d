// Blocks of a file in order, with a tree of their digests that is kept up to date.
ghost use Rattle.std.specs.Prelude.{◌≡◌, ◌+◌, ◌-◌, ◌<◌, ◌≤◌, ℕ, ◌^◌, ◌++◌, ◌∷◌, [], None, IfOk, OnOk, OnErr, length, take, slice_set, slice_index_or};
ghost use Rattle.std.specs.Ordering.{nat_cmp};
ghost use Rattle.std.specs.FinMap.Entries.{find, put};
ghost use Rattle.sha2.specs.Sha256.{sha256};
ghost use Rattle.su_tree.specs.Digest.{digest};
ghost use Rattle.su_tree.specs.Number.{numbers};
ghost use Rattle.su_node.specs.Cost.{hashes_of_blocks};
ghost use Rattle.su_node.specs.Digest.{block_item};
ghost use Rattle.su_node.specs.InodeChange.{with_size, with_bytes_at};
ghost use Rattle.su_node.specs.Stored.{digests_of, AreBelow, HasNumber};

use sha2::{Digest as _, Sha256};
use std::alloc::{AllocError, Global};
use std::marker::Model;
use su_bytes::Digest;
use su_hash_tree::HashTree;

/// A block of a file.
#[derive(Drop)]
pub(super) struct Block {
    bytes: Vec<u8>,
}

impl Model for Block {
    ghost use Rattle.std.specs.Prelude.{ℕ, List};

    ghost Value = { List ℕ };

    ghost view = { λ b. b.bytes.items };
}

impl Block {
    /// Makes a block of zeros.
    pub fn zeros(alloc: Global, size: usize) -> Result<Block, AllocError>
        ensures value { IfOk result (λ block. block ≡ with_size size []) }
    {
        let mut bytes = Vec::with_capacity(alloc, size)?;
        bytes.resize(size, 0)?;
        Ok(Block { bytes })
    }

    fn as_slice(&self) -> &[u8]
        ensures { result.now ≡ self.now }
    {
        self.bytes.as_slice()
    }

    /// The digest of the block.
    fn digest(&self) -> Digest
        ensures { result ≡ sha256 (block_item self.now) }
    {
        let mut hasher = Sha256::new();
        hasher.update([4]);
        hasher.update(self.as_slice());
        Digest::new(hasher.finalize())
    }

    /// Copies the block.
    fn copy(&self, alloc: Global) -> Result<Block, AllocError>
        ensures value { IfOk result (λ copy. copy ≡ self.now) }
    {
        let bytes = Vec::from_slice(alloc, self.bytes.as_slice())?;
        Ok(Block { bytes })
    }

    /// Cuts the block, or fills it with zeros up to a size. Where there is no memory, it changes
    /// nothing.
    fn resize(&mut self, size: usize) -> Result<(), AllocError>
        ensures ok { OnOk result (self.new ≡ with_size size self.old) }
        ensures err { OnErr result (self.new ≡ self.old) }
    {
        self.bytes.resize(size, 0)?;
        Ok(())
    }

    /// The first bytes alone.
    fn cut(&mut self, size: usize)
        ensures { self.new ≡ take size self.old }
    {
        self.bytes.truncate(size);
    }

    /// These bytes in place of those that stand there.
    fn overwrite(&mut self, start: usize, bytes: &[u8])
        requires { start + length bytes.now ≤ length self.old }
        ensures { self.new ≡ with_bytes_at start bytes.now self.old }
    {
        self.bytes[start..start + bytes.len()].copy_from_slice(bytes);
    }
}

/// Blocks in order, and the tree of their digests by their numbers from 0 on. Its model is the
/// blocks. A call that changes a block hashes it and the path of its number, and nothing else.
#[derive(Drop)]
pub(super) struct HashedBlocks {
    blocks: Vec<Block>,
    digests: HashTree<u32, Digest>,
}

impl Model for HashedBlocks {
    ghost use Rattle.std.specs.Prelude.{◌≡◌, ◌≤◌, ◌^◌, ℕ, List, length};
    ghost use Rattle.su_node.specs.Stored.{digests_of};

    ghost Value = { List (List ℕ) };

    ghost view = { λ b. b.blocks.items };

    ghost invariant = { λ b. (b.digests.entries ≡ digests_of b.blocks.items)
        × (length b.blocks.items ≤ 2 ^ 32) };
}

impl HashedBlocks {
    /// Makes no blocks.
    pub fn new(alloc: Global) -> HashedBlocks
        ensures { result ≡ [] }
    {
        HashedBlocks {
            blocks: Vec::new(alloc),
            digests: HashTree::empty(alloc),
        }
    }

    /// Returns the number of blocks.
    pub fn len(&self) -> usize
        ensures { result ≡ length self.now }
    {
        self.blocks.len()
    }

    /// Returns the bytes of a block.
    pub fn get(&self, number: usize) -> &[u8]
        requires { number < length self.now }
        ensures { result.now ≡ slice_index_or self.now number [] }
    {
        self.blocks[number].as_slice()
    }

    /// Returns the digest of the blocks by their numbers. It makes no hash.
    pub fn digest(&self) -> Digest
        ensures { result ≡ digest (numbers (λ d. d)) (digests_of self.now) }
    {
        self.digests.digest()
    }

    /// Copies the blocks, and their digests.
    pub fn copy(&self, alloc: Global) -> Result<HashedBlocks, AllocError>
        ensures value { IfOk result (λ copy. copy ≡ self.now) }
    {
        let mut blocks = Vec::with_capacity(alloc, self.blocks.len())?;
        for block in &self.blocks {
            blocks.push(block.copy(alloc)?)?;
        }
        let digests = self.digests.copy()?;
        Ok(HashedBlocks { blocks, digests })
    }

    /// Writes bytes over those of a block from a place on. Returns how many hashes it made.
    pub fn overwrite(&mut self, number: usize, start: usize, bytes: &[u8]) -> u64
        requires there { number < length self.old }
        requires fits { start + length bytes.now ≤ length (slice_index_or self.old number []) }
        ensures value { let block = slice_index_or self.old number [] in
            self.new ≡ slice_set self.old number (with_bytes_at start bytes.now block) }
        ensures hashes { (bits : ℕ) → length self.old ≤ 2 ^ bits
            → result ≤ hashes_of_blocks bits 1 }
    {
        let written = &mut self.blocks[number];
        written.overwrite(start, bytes);
        refresh(&mut self.digests, number, written)
    }

    /// Cuts a block to its first bytes.
    pub fn cut(&mut self, number: usize, size: usize)
        requires { number < length self.old }
        ensures { let block = slice_index_or self.old number [] in
            self.new ≡ slice_set self.old number (take size block) }
    {
        if size < self.get(number).len() {
            let block = &mut self.blocks[number];
            block.cut(size);
            refresh(&mut self.digests, number, block);
        }
    }

    /// Cuts a block, or fills it with zeros up to a size. Returns how many hashes it made. Where
    /// there is no memory, it changes nothing.
    pub fn resize(&mut self, number: usize, size: usize) -> Result<u64, AllocError>
        requires { number < length self.old }
        ensures ok { let block = slice_index_or self.old number [] in
            OnOk result (self.new ≡ slice_set self.old number (with_size size block)) }
        ensures err { OnErr result (self.new ≡ self.old) }
        ensures hashes { IfOk result (λ made. (bits : ℕ) → length self.old ≤ 2 ^ bits
            → made ≤ hashes_of_blocks bits 1) }
    {
        if self.get(number).len() != size {
            let block = &mut self.blocks[number];
            block.resize(size)?;
            Ok(refresh(&mut self.digests, number, block))
        } else {
            Ok(0)
        }
    }

    /// Puts a block behind the last one. Returns how many hashes it made. Where there is no memory,
    /// it changes nothing.
    fn push(&mut self, block: Block) -> Result<u64, AllocError>
        requires { length self.old < 2 ^ 32 }
        ensures ok { OnOk result (self.new ≡ self.old ++ block ∷ []) }
        ensures err { OnErr result (self.new ≡ self.old) }
        ensures hashes { IfOk result (λ made. (bits : ℕ) → length self.old < 2 ^ bits
            → made ≤ hashes_of_blocks bits 1) }
    {
        self.blocks.reserve(1)?;
        let made = put_digest(&mut self.digests, self.blocks.len() as u32, &block)?;
        self.blocks.push(block)?;
        Ok(made)
    }

    /// Puts blocks behind the last one. Returns how many hashes it made. Where there is no memory,
    /// it changes nothing.
    pub fn append(&mut self, added: Vec<Block>) -> Result<u64, AllocError>
        requires { length self.old + length added.items ≤ 2 ^ 32 }
        ensures ok { OnOk result (self.new ≡ self.old ++ added.items) }
        ensures err { OnErr result (self.new ≡ self.old) }
        ensures hashes { IfOk result (λ made. (bits : ℕ) →
            length self.old + length added.items ≤ 2 ^ bits
            → made ≤ hashes_of_blocks bits (length added.items)) }
    {
        let count = self.len();
        let mut hashes: u64 = 0;
        for block in added {
            match self.push(block) {
                Ok(made) => hashes = hashes.saturating_add(made),
                Err(refused) => {
                    self.truncate(count);
                    return Err(refused);
                }
            }
        }
        Ok(hashes)
    }

    /// Removes the last block, if there is one.
    fn pop(&mut self)
        ensures { self.new ≡ take (length self.old - 1) self.old }
    {
        if let Some(last) = self.len().checked_sub(1) {
            self.blocks.truncate(last);
            self.digests.remove(&(last as u32));
        }
    }

    /// Keeps the first blocks alone.
    pub fn truncate(&mut self, count: usize)
        ensures { self.new ≡ take count self.old }
    {
        while count < self.len() {
            self.pop();
        }
    }
}

/// Hashes a block, and puts its digest at a number. Returns how many hashes it made: the block's,
/// and those that the tree counted. Takes memory only for a number that isn't there; where it is
/// wanting, it changes nothing.
fn put_digest(
    digests: &mut HashTree<u32, Digest>,
    number: u32,
    block: &Block,
) -> Result<u64, AllocError>
    ensures put { let made = sha256 (block_item block.now) in
        OnOk result (digests.new.entries ≡ put nat_cmp number made digests.old.entries) }
    ensures absent { OnErr result (find nat_cmp number digests.old.entries ≡ None) }
    ensures err { OnErr result (digests.new ≡ digests.old) }
    ensures hashes { (bits : ℕ) → number < 2 ^ bits → AreBelow (2 ^ bits) digests.old.entries
        → digests.new.hashes ≤ digests.old.hashes + bits + 1 }
    ensures counted { IfOk result (λ made.
        made ≡ digests.new.hashes - digests.old.hashes + 1) }
{
    let before = digests.hashes();
    digests.insert(number, block.digest())?;
    Ok(digests.hashes().saturating_sub(before) + 1)
}

/// Puts the digest of a block in the place of an older one, which takes no memory. Returns how many
/// hashes it made: the block's, and those that the tree counted.
fn refresh(digests: &mut HashTree<u32, Digest>, number: usize, block: &Block) -> u64
    requires there { HasNumber number digests.old.entries }
    requires small { number < 2 ^ 32 }
    ensures put { let made = sha256 (block_item block.now) in
        digests.new.entries ≡ put nat_cmp number made digests.old.entries }
    ensures hashes { (bits : ℕ) → number < 2 ^ bits → AreBelow (2 ^ bits) digests.old.entries
        → digests.new.hashes ≤ digests.old.hashes + bits + 1 }
    ensures counted { result ≡ digests.new.hashes - digests.old.hashes + 1 }
{
    match put_digest(digests, number as u32, block) {
        Ok(made) => made,
        Err(_) => unreachable!(),
    }
}
