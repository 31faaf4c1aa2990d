// Leaving what is loaded on a store.
ghost use Rattle.std.specs.Prelude.{◌≡◌, ◌<◌, ℕ, List, Some, None, true, OnOk, IfOk, IsSome, MatchOption};
ghost use Rattle.std.specs.BTreeMap.{btree_map_len};
ghost use Rattle.su_block.specs.Item.{is_item};
ghost use Rattle.su_node.specs.Digest.{block_item};
ghost use Rattle.su_hash_tree.specs.Stands.{kept};
ghost use Rattle.su_part_tree.specs.Part.{HasNone};
ghost use Rattle.su_part_tree.specs.Putting.{Took};
ghost use Rattle.su_part.specs.Bytes.{loaded_block};
ghost use Rattle.su_part.specs.Part.{at_number};
ghost use Rattle.su_part.specs.declared.inodes.PartInode.{PartInode as LoadedInode};
ghost use Rattle.su_part.specs.Sheds.{HasNothing, HasNothingIn, IsItemInInode, ShedsBytes, ShedsContent, ShedsInode, ShedsUser, digest_in, kind_in, own_item, size_in};

use crate::blocks::PartBytes;
use crate::inodes::{PartContent, PartInode};
use crate::users::UserPart;
use std::alloc::{AllocError, Global};
use su_block::BlockSource;
use su_bytes::{Digest, Refusal};
use su_part_tree::ReadValue;

impl PartBytes {
    /// Leaves the bytes on the store: puts the item of each loaded block, then those of the tree of
    /// digests. Refused with `SourceFailed` where the source could not be asked, and with
    /// `NoMemory` where memory is wanting; then what wasn't put is still loaded.
    pub fn shed<S: BlockSource>(&mut self, source: &mut S) -> Result<(), Refusal>
        ensures sheds { ShedsBytes S.may_give S.failed S.follows S.puts self.old self.new
            source.old source.new result }
        ensures none { OnOk result (HasNone self.new.digests) }
        ensures no_block { OnOk result ((n : ℕ) → loaded_block self.new n ≡ None) }
        ensures size { self.new.size ≡ self.old.size }
        ensures kept { kept self.new.digests.root ≡ kept self.old.digests.root }
    {
        self.shed_blocks(source)?;
        self.digests.shed(source)
    }

    /// Puts the item of each loaded block, lowest number first, and leaves the block.
    fn shed_blocks<S: BlockSource>(&mut self, source: &mut S) -> Result<(), Refusal>
        ensures sheds { ShedsBytes S.may_give S.failed S.follows S.puts self.old self.new
            source.old source.new result }
        ensures no_block { OnOk result ((n : ℕ) → loaded_block self.new n ≡ None) }
        ensures size { self.new.size ≡ self.old.size }
        ensures digests { self.new.digests ≡ self.old.digests }
    {
        while let Some(number) = self.first_block() {
            self.shed_block(number, source)?;
        }
        Ok(())
    }

    /// Returns the least number at which a block is loaded.
    fn first_block(&self) -> Option<u32>
        ensures { MatchOption result ((n : ℕ) → loaded_block self.now n ≡ None)
            (λ n. IsSome (loaded_block self.now n)) }
    {
        match self.blocks.first_key_value() {
            Some((number, _)) => Some(*number),
            None => None,
        }
    }

    /// Puts the item of a block that is loaded, and leaves the block.
    fn shed_block<S: BlockSource>(&mut self, number: u32, source: &mut S) -> Result<(), Refusal>
        requires { IsSome (loaded_block self.old number) }
        ensures sheds { ShedsBytes S.may_give S.failed S.follows S.puts self.old self.new
            source.old source.new result }
        ensures fewer { OnOk result
            (btree_map_len self.new.blocks < btree_map_len self.old.blocks) }
        ensures size { self.new.size ≡ self.old.size }
        ensures digests { self.new.digests ≡ self.old.digests }
    {
        let item = self.spell_block(number)?;
        source.put(self.alloc, item.as_slice())?;
        self.blocks.remove(&number);
        Ok(())
    }

    /// Spells the item of a block that is loaded. Fails where memory is wanting.
    fn spell_block(&self, number: u32) -> Result<Vec<u8>, AllocError>
        requires { IsSome (loaded_block self.now number) }
        ensures value { (bytes : List ℕ) → loaded_block self.now number ≡ Some bytes
            → IfOk result (λ item. item.items ≡ block_item bytes) }
        ensures size { IfOk result (λ item. is_item item.items ≡ true) }
    {
        match self.blocks.get(&number) {
            None => unreachable!(),
            Some(block) => {
                let mut item = Vec::new(self.alloc);
                item.push(4)?;
                item.extend_from_slice(block.as_slice())?;
                Ok(item)
            }
        }
    }
}

impl PartContent {
    /// Leaves the content on the store: puts the items of what is loaded of it. Refused as
    /// `PartBytes::shed` is.
    fn shed<S: BlockSource>(&mut self, source: &mut S) -> Result<(), Refusal>
        ensures sheds { ShedsContent S.may_give S.failed S.follows S.puts self.old self.new
            source.old source.new result }
        ensures none { OnOk result (HasNothingIn self.new) }
        ensures kind { kind_in self.new ≡ kind_in self.old }
        ensures size { size_in self.new ≡ size_in self.old }
        ensures digest { digest_in self.new ≡ digest_in self.old }
    {
        match self {
            PartContent::Bytes(bytes) => bytes.shed(source),
            PartContent::Names(names) => names.shed(source),
        }
    }

    /// Returns what an inode's item says of the content: its kind, its size, its digest.
    fn outline(&self) -> (u8, u32, Digest)
        ensures kind { result.0 ≡ kind_in self.now }
        ensures size { result.1 ≡ size_in self.now }
        ensures digest { result.2 ≡ digest_in self.now }
    {
        match self {
            PartContent::Bytes(bytes) => (0, bytes.size, bytes.digests.digest()),
            PartContent::Names(names) => (1, 0, names.digest()),
        }
    }
}

impl PartInode {
    /// Leaves the inode on the store: puts the items of what is loaded of its content, then its
    /// own. Of its content only the digest stays. Refused with `SourceFailed` where the source
    /// could not be asked, and with `NoMemory` where memory is wanting; then what wasn't put is
    /// still loaded.
    pub fn shed<S: BlockSource>(&mut self, alloc: Global, source: &mut S) -> Result<(), Refusal>
        ensures sheds { ShedsInode S.may_give S.failed S.follows S.puts self.old self.new
            source.old source.new result }
        ensures put { OnOk result ((i : List ℕ) → IsItemInInode self.old i
            → Took S.follows S.puts source.old source.new i) }
    {
        self.content.shed(source)?;
        self.put_own(alloc, source)
    }

    /// Puts the inode's own item. Refused as `shed` is.
    fn put_own<S: BlockSource>(&self, alloc: Global, source: &mut S) -> Result<(), Refusal>
        ensures sheds { ShedsInode S.may_give S.failed S.follows S.puts self.now self.now
            source.old source.new result }
        ensures put { OnOk result
            (Took S.follows S.puts source.old source.new (own_item self.now)) }
    {
        let item = self.spell(alloc)?;
        source.put(alloc, item.as_slice())?;
        Ok(())
    }

    /// Spells the inode's own item. Fails where memory is wanting.
    fn spell(&self, alloc: Global) -> Result<Vec<u8>, AllocError>
        ensures value { IfOk result (λ item. item.items ≡ own_item self.now) }
        ensures size { IfOk result (λ item. is_item item.items ≡ true) }
    {
        let (kind, size, digest) = self.content.outline();
        let digest: &[u8] = digest.as_bytes();
        let mut item = Vec::new(alloc);
        item.push(3)?;
        self.home.spell(&mut item)?;
        item.extend_from_slice(&[kind, self.links])?;
        item.extend_from_slice(&size.to_be_bytes())?;
        item.extend_from_slice(digest)?;
        Ok(item)
    }
}

impl UserPart {
    /// Leaves all on the store: puts the items of each inode that is loaded, lowest number first,
    /// then those of the table, of which the digest stays. Refused with `SourceFailed` where the
    /// source could not be asked, and with `NoMemory` where memory is wanting; then what wasn't put
    /// is still loaded.
    pub fn shed<S: BlockSource>(&mut self, source: &mut S) -> Result<(), Refusal>
        ensures sheds { ShedsUser S.may_give S.failed S.follows S.puts self.old self.new
            source.old source.new result }
        ensures none { OnOk result (HasNothing self.new) }
    {
        self.shed_inodes(source)?;
        self.table.shed(source)
    }

    /// Puts the items of each inode that is loaded, lowest number first, and leaves the inode.
    fn shed_inodes<S: BlockSource>(&mut self, source: &mut S) -> Result<(), Refusal>
        ensures sheds { ShedsUser S.may_give S.failed S.follows S.puts self.old self.new
            source.old source.new result }
        ensures no_inode { OnOk result ((n : ℕ) → at_number self.new.inodes.entries n ≡ None) }
    {
        while let Some(number) = self.first_inode() {
            self.shed_inode(number, source)?;
        }
        Ok(())
    }

    /// Returns the least number at which an inode is loaded.
    fn first_inode(&self) -> Option<u32>
        ensures { MatchOption result ((n : ℕ) → at_number self.now.inodes.entries n ≡ None)
            (λ n. IsSome (at_number self.now.inodes.entries n)) }
    {
        match self.inodes.first_key_value() {
            Some((number, _)) => Some(*number),
            None => None,
        }
    }

    /// Puts the items of an inode that is loaded, and leaves the inode.
    fn shed_inode<S: BlockSource>(&mut self, number: u32, source: &mut S) -> Result<(), Refusal>
        requires { IsSome (at_number self.old.inodes.entries number) }
        ensures sheds { ShedsUser S.may_give S.failed S.follows S.puts self.old self.new
            source.old source.new result }
        ensures fewer { OnOk result
            (btree_map_len self.new.inodes < btree_map_len self.old.inodes) }
    {
        self.put_inode_items(number, source)?;
        self.inodes.remove(&number);
        Ok(())
    }

    /// Puts the items of an inode that is loaded. It stays loaded, but nothing of its content.
    fn put_inode_items<S: BlockSource>(
        &mut self,
        number: u32,
        source: &mut S,
    ) -> Result<(), Refusal>
        requires { IsSome (at_number self.old.inodes.entries number) }
        ensures sheds { ShedsUser S.may_give S.failed S.follows S.puts self.old self.new
            source.old source.new result }
        ensures put { OnOk result ((p : LoadedInode)
            → at_number self.new.inodes.entries number ≡ Some p → (i : List ℕ)
            → IsItemInInode p i → Took S.follows S.puts source.old source.new i) }
        ensures there { IsSome (at_number self.new.inodes.entries number) }
        ensures same { btree_map_len self.new.inodes ≡ btree_map_len self.old.inodes }
    {
        match self.inodes.get_mut(&number) {
            None => unreachable!(),
            Some(inode) => inode.shed(self.alloc, source),
        }
    }
}
