// The bytes of a file of which blocks may be left on a store.
ghost use Rattle.std.specs.Prelude.{◌≡◌, ◌≢◌, ◌+◌, ◌-◌, ◌*◌, ◌/◌, ◌<◌, ◌≤◌, ◌^◌, ℕ, List, IsSome, Some, true, false, Err, OnOk, OnErr, IfOk, IsOk, MatchOption, None, IsTrue, cond, max, [], length, take, drop};
ghost use Rattle.std.specs.BTreeMap.{is_at};
ghost use Rattle.std.specs.Ordering.{nat_cmp};
ghost use Rattle.sha2.specs.Sha256.{sha256};
ghost use Rattle.su_node.specs.Inode.{Content.Bytes, within};
ghost use Rattle.su_node.specs.Digest.{block_item, block_count, content_digest};
ghost use Rattle.su_node.specs.Field.{block};
ghost use Rattle.su_node.specs.InodeChange.{with_size, with_bytes_at};
ghost use Rattle.su_part_tree.specs.Part.{reaches};
ghost use Rattle.su_tree.specs.Number.{number_bits};
ghost use Rattle.su_part.specs.Known.{BytesStayKnown};
ghost use Rattle.su_part.specs.Bytes.{loaded_block, ready_at, AreReady, HasPlaces, WithPlaces, HasCut, HasWrite, IsRewritten, StandsBytes, HasAllBlocks, HasBlock, HasBlocks, HasBytes, BytesItem, NoneClash, SpellsBlock};
ghost use Rattle.su_part.specs.Fetches.{LoadsBytes};
ghost use Rattle.su_part.specs.Loads.{Gets};

use sha2::{Digest as _, Sha256};
use std::alloc::{AllocError, Global};
use std::collections::BTreeMap;
use std::marker::Model;
use su_block::BlockSource;
use su_bytes::{Digest, Refusal};
use su_node::BLOCK_SIZE;
use su_part_tree::{PartTree, Room};

/// The bytes of a block, at most 4,096.
#[derive(Drop)]
pub(crate) struct Block {
    pub(crate) bytes: Vec<u8>,
}

impl Model for Block {
    ghost use Rattle.std.specs.Prelude.{ℕ, List, length, ◌≤◌};

    ghost Value = { List ℕ };

    ghost view = { λ b. b.bytes.items };

    ghost invariant = { λ b. length b.bytes.items ≤ 4096 };
}

impl Clone for Block {
    ghost use Rattle.std.specs.Prelude.{◌≡◌};

    ghost is_clone = { λ block copy. copy ≡ block };

    fn clone(&self) -> Result<Block, AllocError> {
        let mut bytes = Vec::with_capacity(*self.bytes.allocator(), BLOCK_SIZE)?;
        bytes.extend_from_slice(self.as_slice())?;
        Ok(Block { bytes })
    }
}

impl Block {
    /// Makes the block of which the item was hashed; none where it is no block's.
    fn of_item(item: Vec<u8>) -> Option<Block>
        ensures { MatchOption result ((bytes : List ℕ) → ¬ (SpellsBlock bytes item.items))
            (λ block. SpellsBlock block item.items) }
    {
        let mut item = item;
        if item.is_empty() {
            return None;
        }
        if item.remove(0) != 4 {
            return None;
        }
        if BLOCK_SIZE < item.len() {
            return None;
        }
        Some(Block { bytes: item })
    }

    /// Makes a block of no bytes.
    fn empty(alloc: Global) -> Block
        ensures { result ≡ [] }
    {
        Block {
            bytes: Vec::new(alloc),
        }
    }

    pub(crate) fn as_slice(&self) -> &[u8]
        ensures value { result.now ≡ self.now }
        ensures short { length result.now ≤ BLOCK_SIZE }
    {
        self.bytes.as_slice()
    }

    /// Returns the digest of the block. It makes one hash.
    pub(crate) fn digest(&self) -> Digest
        ensures { result ≡ sha256 (block_item self.now) }
    {
        let mut hasher = Sha256::new();
        hasher.update([4]);
        hasher.update(self.as_slice());
        Digest::new(hasher.finalize())
    }

    /// Cuts the block, or fills it with zeros up to a size.
    fn resize(&mut self, size: usize) -> Result<(), AllocError>
        requires { size ≤ BLOCK_SIZE }
        ensures { OnOk result (self.new ≡ with_size size self.old) }
    {
        self.bytes.resize(size, 0)?;
        Ok(())
    }

    /// Puts these bytes in the place of those that stand there.
    pub(crate) fn overwrite(&mut self, start: usize, bytes: &[u8])
        requires { start + length bytes.now ≤ length self.old }
        ensures { self.new ≡ with_bytes_at start bytes.now self.old }
    {
        self.bytes[start..start + bytes.len()].copy_from_slice(bytes);
    }

    /// Makes the block, which begins at `start` in its file, what it is after the bytes are written
    /// from the offset `off` on and the file has that size.
    fn write(
        &mut self,
        start: usize,
        size: usize,
        off: usize,
        bytes: &[u8],
    ) -> Result<(), AllocError>
        requires there { start < size }
        requires within { off + length bytes.now ≤ size }
        requires small { size < 2 ^ 33 }
        ensures { (n : ℕ) (bs : List ℕ) → start ≡ n * BLOCK_SIZE → self.old ≡ block n bs
            → size ≡ max (off + length bytes.now) (length bs)
            → OnOk result (self.new ≡ block n (with_bytes_at off bytes.now bs)) }
    {
        self.resize(BLOCK_SIZE.min(size - start))?;
        let first = off.max(start);
        let last = (off + bytes.len()).min(start + BLOCK_SIZE);
        if last <= first {
            return Ok(());
        }
        self.overwrite(first - start, &bytes[first - off..last - off]);
        Ok(())
    }
}

/// A block that is to be put at a number, and room for its digest.
#[derive(Drop)]
pub(crate) struct Ready {
    block: Block,
    room: Room<u32, Digest>,
}

/// The bytes of a file: how many, the digests of its blocks, and those blocks that are loaded.
#[derive(Drop)]
pub(crate) struct PartBytes {
    pub(crate) size: u32,
    pub(crate) digests: PartTree<u32, Digest>,
    pub(crate) blocks: BTreeMap<u32, Block>,
    pub(crate) alloc: Global,
}

impl PartBytes {
    /// Makes the bytes of which only the size and the digest of the blocks are known.
    pub fn stub(alloc: Global, size: u32, digest: Digest) -> PartBytes
        ensures { (bs : List ℕ) → size ≡ length bs → digest ≡ content_digest (Bytes bs)
            → StandsBytes result bs }
    {
        PartBytes {
            size,
            digests: PartTree::stub(alloc, digest),
            blocks: BTreeMap::new(alloc),
            alloc,
        }
    }

    /// Makes no bytes, of which all is loaded.
    pub fn empty(alloc: Global) -> PartBytes
        ensures stands { StandsBytes result [] }
        ensures has { (n : ℕ) → HasBlock n result }
    {
        PartBytes {
            size: 0,
            digests: PartTree::empty(alloc),
            blocks: BTreeMap::new(alloc),
            alloc,
        }
    }

    /// Copies the bytes; what is left on the store is left there in the copy. Fails where memory is
    /// wanting.
    pub fn copy(&self) -> Result<PartBytes, AllocError>
        ensures stands { (bs : List ℕ) → StandsBytes self.now bs
            → IfOk result (λ copy. StandsBytes copy bs) }
        ensures all { IfOk result (λ copy. HasAllBlocks self.now copy) }
    {
        Ok(PartBytes {
            size: self.size,
            digests: self.digests.copy()?,
            blocks: self.blocks.clone()?,
            alloc: self.alloc,
        })
    }

    /// Returns the number of bytes.
    pub fn size(&self) -> u32
        ensures { (bs : List ℕ) → StandsBytes self.now bs → result ≡ length bs }
    {
        self.size
    }

    /// Returns the digest of the blocks by their numbers. It makes no hash.
    pub fn digest(&self) -> Digest
        ensures { (bs : List ℕ) → StandsBytes self.now bs → result ≡ content_digest (Bytes bs) }
    {
        self.digests.digest()
    }

    /// Loads the path of a block's number, and the block where the file has it. Refused by the
    /// source, by want of memory, or with `Malformed` where an item spells nothing that belongs
    /// there.
    fn fetch_block<S: BlockSource>(&mut self, number: u32, source: &mut S) -> Result<(), Refusal>
        requires { S.is_checked ≡ true }
        ensures loads { LoadsBytes S.may_give S.failed S.follows self.old self.new
            source.old source.new result }
        ensures has { OnOk result (HasBlock number self.new) }
    {
        self.digests.reach(&number, source)?;
        let start = u64::from(number) * BLOCK_SIZE as u64;
        if u64::from(self.size) <= start || self.blocks.contains_key(&number) {
            return Ok(());
        }
        let digest = match self.digests.get(&number) {
            Some(digest) => *digest,
            None => return Err(Refusal::Malformed(0)),
        };
        let block = get_block(self.alloc, digest, source)?;
        self.blocks.insert(number, block)?;
        Ok(())
    }

    /// Loads the paths of the block numbers from `first` on and before `until`, and the blocks that
    /// the file has there. Refused as the load of one block is.
    pub fn fetch<S: BlockSource>(
        &mut self,
        first: u32,
        until: u32,
        source: &mut S,
    ) -> Result<(), Refusal>
        requires { S.is_checked ≡ true }
        ensures loads { LoadsBytes S.may_give S.failed S.follows self.old self.new
            source.old source.new result }
        ensures has { OnOk result (HasBlocks first until self.new) }
    {
        for number in first..until {
            self.fetch_block(number, source)?;
        }
        Ok(())
    }
}

impl PartBytes {
    /// Loads the blocks of the file that have bytes in a range, which may reach past the end.
    /// Refused as the load of one block is.
    pub fn fetch_range<S: BlockSource>(
        &mut self,
        off: u64,
        len: u64,
        source: &mut S,
    ) -> Result<(), Refusal>
        requires { S.is_checked ≡ true }
        ensures loads { LoadsBytes S.may_give S.failed S.follows self.old self.new
            source.old source.new result }
        ensures has { OnOk result (HasBytes off len self.new) }
    {
        let size = self.size as usize;
        let start = (off as usize).min(size);
        let until = start + (len as usize).min(size - start);
        self.fetch((start / BLOCK_SIZE) as u32, count_for(until) as u32, source)
    }

    /// Reads the bytes within a range, which may reach past the end and is loaded.
    pub fn read(&self, off: u64, len: u64) -> Result<Vec<u8>, AllocError>
        requires { HasBytes off len self.now }
        ensures { (bs : List ℕ) → StandsBytes self.now bs
            → IfOk result (λ bytes. bytes.items ≡ within off len bs) }
    {
        let size = self.size as usize;
        let start = (off as usize).min(size);
        let until = start + (len as usize).min(size - start);
        let mut bytes = Vec::new(self.alloc);
        if until <= start {
            return Ok(bytes);
        }
        for number in start / BLOCK_SIZE..count_for(until) {
            let first = number * BLOCK_SIZE;
            let part = self.part(
                number as u32,
                start.max(first) - first,
                until.min(first + BLOCK_SIZE) - first,
            );
            bytes.extend_from_slice(part)?;
        }
        Ok(bytes)
    }

    /// Returns the bytes from one place to another of a block that is loaded, as far as it has
    /// them.
    fn part(&self, number: u32, from_: usize, until: usize) -> &[u8]
        requires { IsSome (loaded_block self.now number) }
        ensures { (bytes : List ℕ) → loaded_block self.now number ≡ Some bytes
            → result.now ≡ take (until - from_) (drop from_ bytes) }
    {
        match self.blocks.get(&number) {
            None => unreachable!(),
            Some(block) => {
                let bytes = block.as_slice();
                let last = until.min(bytes.len());
                &bytes[from_.min(last)..last]
            }
        }
    }
}

impl PartBytes {
    /// Loads what a cut to a size needs: the block that the cut goes through, and the paths of the
    /// numbers of the blocks from it on. Refused as the load of one block is.
    pub fn fetch_cut<S: BlockSource>(&mut self, size: u32, source: &mut S) -> Result<(), Refusal>
        requires { S.is_checked ≡ true }
        ensures loads { LoadsBytes S.may_give S.failed S.follows self.old self.new
            source.old source.new result }
        ensures has { OnOk result (HasCut size self.new) }
    {
        self.fetch_through(size, source)?;
        let first = size as usize / BLOCK_SIZE;
        let until = count_for(self.size as usize);
        self.fetch_paths(first as u32, until as u32, source)
    }

    /// Loads the block that a cut to a size goes through, if it goes through one.
    fn fetch_through<S: BlockSource>(&mut self, size: u32, source: &mut S) -> Result<(), Refusal>
        requires { S.is_checked ≡ true }
        ensures loads { LoadsBytes S.may_give S.failed S.follows self.old self.new
            source.old source.new result }
        ensures has { OnOk result ((n : ℕ) → BLOCK_SIZE * n < size
            → size < BLOCK_SIZE * (n + 1) → size < self.new.size
            → IsSome (loaded_block self.new n)) }
    {
        if self.size <= size {
            return Ok(());
        }
        if size as usize % BLOCK_SIZE == 0 {
            return Ok(());
        }
        let number = size as usize / BLOCK_SIZE;
        self.fetch_block(number as u32, source)
    }

    /// Loads the paths of the block numbers from `first` on and before `until`.
    fn fetch_paths<S: BlockSource>(
        &mut self,
        first: u32,
        until: u32,
        source: &mut S,
    ) -> Result<(), Refusal>
        requires { S.is_checked ≡ true }
        ensures loads { LoadsBytes S.may_give S.failed S.follows self.old self.new
            source.old source.new result }
        ensures has { OnOk result ((n : ℕ) → first ≤ n → n < until
            → IsTrue (reaches number_bits n self.new.digests)) }
    {
        for number in first..until {
            self.digests.reach(&number, source)?;
        }
        Ok(())
    }
}

impl PartBytes {
    /// Loads what a write of `len` bytes from an offset on needs: the blocks that it touches, of
    /// those that it adds the paths, and where the file grows its last block. Refused as the load
    /// of one block is.
    pub fn fetch_write<S: BlockSource>(
        &mut self,
        off: u32,
        len: u32,
        source: &mut S,
    ) -> Result<(), Refusal>
        requires { S.is_checked ≡ true }
        ensures loads { LoadsBytes S.may_give S.failed S.follows self.old self.new
            source.old source.new result }
        ensures has { OnOk result (HasWrite off len self.new) }
    {
        let first = off.min(self.size) as usize / BLOCK_SIZE;
        let until = count_for(off as usize + len as usize);
        self.fetch(first as u32, until as u32, source)
    }

    /// Writes bytes from an offset on, and fills a gap before them with zeros. What it needs is
    /// loaded. Takes memory only where the file grows, and fails where that is wanting; then it
    /// stands for what it stood for, and what was loaded is loaded.
    pub fn write_at(&mut self, off: u32, bytes: &[u8]) -> Result<(), AllocError>
        requires small { off + length bytes.now < 2 ^ 32 }
        requires there { HasWrite off (length bytes.now) self.old }
        ensures ok { (bs : List ℕ) → StandsBytes self.old bs
            → OnOk result (StandsBytes self.new (with_bytes_at off bytes.now bs)) }
        ensures err { (bs : List ℕ) → StandsBytes self.old bs
            → OnErr result (StandsBytes self.new bs) }
        ensures keeps { OnErr result (HasAllBlocks self.old self.new) }
        ensures succeeds { off + length bytes.now ≤ self.old.size → IsOk result }
        ensures all { off + length bytes.now ≤ self.old.size → HasAllBlocks self.old self.new }
        ensures known { (bs : List ℕ) → StandsBytes self.old bs → OnOk result
            (BytesStayKnown self.old bs self.new (with_bytes_at off bytes.now bs)) }
    {
        let end = off as usize + bytes.len();
        if end <= self.size as usize {
            self.overwrite(off, bytes);
            return Ok(());
        }
        let first = off.min(self.size) as usize / BLOCK_SIZE;
        let until = count_for(end);
        let mut ready = self.make_ready(first as u32, until as u32, end, off as usize, bytes)?;
        for number in first..until {
            self.put_ready(number as u32, &mut ready);
        }
        self.size = end as u32;
        Ok(())
    }

    /// Makes the blocks of these numbers, each loaded or new, as they are after the bytes are
    /// written from the offset `off` on and the file has that size, and a place for each. Fails
    /// where memory is wanting.
    fn make_ready(
        &mut self,
        first: u32,
        until: u32,
        size: usize,
        off: usize,
        bytes: &[u8],
    ) -> Result<BTreeMap<u32, Ready>, AllocError>
        requires there { HasBlocks first until self.old }
        requires last { BLOCK_SIZE * until < size + BLOCK_SIZE }
        requires within { off + length bytes.now ≤ size }
        requires small { size < 2 ^ 33 }
        ensures ready { (bs : List ℕ) → StandsBytes self.old bs
            → size ≡ max (off + length bytes.now) (length bs)
            → IfOk result (λ ready.
            AreReady first until (with_bytes_at off bytes.now bs) ready.entries) }
        ensures places { OnOk result (HasPlaces first until self.new) }
        ensures same { WithPlaces self.old self.new }
    {
        let mut all = BTreeMap::new(self.alloc);
        for number in first..until {
            let ready = self.ready_block(number, size, off, bytes)?;
            all.insert(number, ready)?;
        }
        Ok(all)
    }

    /// Makes one such block, and its place. Fails where memory is wanting.
    fn ready_block(
        &mut self,
        number: u32,
        size: usize,
        off: usize,
        bytes: &[u8],
    ) -> Result<Ready, AllocError>
        requires there { HasBlock number self.old }
        requires start { BLOCK_SIZE * number < size }
        requires within { off + length bytes.now ≤ size }
        requires small { size < 2 ^ 33 }
        ensures ready { (bs : List ℕ) → StandsBytes self.old bs
            → size ≡ max (off + length bytes.now) (length bs)
            → IfOk result (λ ready. ready.block ≡ block number (with_bytes_at off bytes.now bs)) }
        ensures place { OnOk result (IsSome (loaded_block self.new number)) }
        ensures same { WithPlaces self.old self.new }
    {
        self.make_place(number)?;
        let mut block = self.copy_block(number)?;
        block.write(number as usize * BLOCK_SIZE, size, off, bytes)?;
        let room = self.digests.room()?;
        Ok(Ready { block, room })
    }

    /// Loads a block of no bytes where none is loaded, as behind the end of the file. Fails where
    /// memory is wanting.
    fn make_place(&mut self, number: u32) -> Result<(), AllocError>
        requires { HasBlock number self.old }
        ensures place { OnOk result (IsSome (loaded_block self.new number)) }
        ensures same { WithPlaces self.old self.new }
    {
        if self.blocks.contains_key(&number) {
            return Ok(());
        }
        self.blocks.insert(number, Block::empty(self.alloc))?;
        Ok(())
    }

    /// Copies a block that is loaded. Fails where memory is wanting.
    fn copy_block(&self, number: u32) -> Result<Block, AllocError>
        requires { IsSome (loaded_block self.now number) }
        ensures { (bytes : List ℕ) → loaded_block self.now number ≡ Some bytes
            → IfOk result (λ block. block ≡ bytes) }
    {
        match self.blocks.get(&number) {
            None => unreachable!(),
            Some(block) => block.clone(),
        }
    }

    /// Puts the block that is ready for a number, where one is, in the place of the one that is
    /// loaded. It takes no memory.
    fn put_ready(&mut self, number: u32, all: &mut BTreeMap<u32, Ready>)
        requires { IsTrue (reaches number_bits number self.old.digests) }
        ensures put { (bytes : List ℕ) → IsSome (loaded_block self.old number)
            → ready_at all.old.entries number ≡ Some bytes
            → IsRewritten number bytes self.old self.new }
        ensures paths { (n : ℕ) → IsTrue (reaches number_bits n self.old.digests)
            → IsTrue (reaches number_bits n self.new.digests) }
        ensures loaded { (n : ℕ) → IsSome (loaded_block self.old n)
            → IsSome (loaded_block self.new n) }
        ensures others { (n : ℕ) → is_at (nat_cmp number) n ≡ false
            → ready_at all.new.entries n ≡ ready_at all.old.entries n }
    {
        let Some(Ready { block, room }) = all.remove(&number) else {
            return;
        };
        let digest = block.digest();
        // a block is there, so without memory
        let _done = self.blocks.insert(number, block);
        self.digests.put_in(number, digest, room);
    }
}

/// Gets the item of a block with that digest. Refused by the source, or with `Malformed(0)` where
/// it is no block's.
fn get_block<S: BlockSource>(
    alloc: Global,
    digest: Digest,
    source: &mut S,
) -> Result<Block, Refusal>
    requires { S.is_checked ≡ true }
    ensures { Gets S.may_give S.failed S.follows SpellsBlock digest source.old source.new result }
{
    let item = source.get(alloc, digest)?;
    match Block::of_item(item) {
        Some(block) => Ok(block),
        None => Err(Refusal::Malformed(0)),
    }
}

/// How many blocks a file of that size has.
pub(crate) fn count_for(size: usize) -> usize
    requires { size < 2 ^ 33 }
    ensures { result ≡ block_count size }
{
    (size + (BLOCK_SIZE - 1)) / BLOCK_SIZE
}
