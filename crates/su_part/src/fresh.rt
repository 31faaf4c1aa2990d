// Users' parts that are made: with no inode or one, and copies.
ghost use Rattle.std.specs.Prelude.{◌≡◌, ℕ, None, IsTrue, IfOk, IfErr};
ghost use Rattle.std.specs.FinMap.{get};
ghost use Rattle.su_bytes.specs.declared.refusals.Refusal.TheVariants.{NoMemory};
ghost use Rattle.su_bytes.specs.FileId.{is_file_id};
ghost use Rattle.su_node.specs.InodeChange.{InodeChange.Made};
ghost use Rattle.su_table.specs.Edit.{Edit.Inodes, edit};
ghost use Rattle.su_table.specs.Tree.{Tree};
ghost use Rattle.su_part.specs.Part.{StandsUser, HasAll, HasAt, HasInode, IsAllIn};

use crate::inodes::PartInode;
use crate::users::UserPart;
use std::alloc::Global;
use std::collections::BTreeMap;
use su_bytes::{FileId, Inum, Kind, Refusal};
use su_part_tree::PartTree;

impl UserPart {
    /// Makes the part of a user who has no inode, all of it loaded.
    pub fn empty(alloc: Global) -> UserPart
        ensures stands { (u : ℕ) (T : Tree) → ((n : ℕ) → get T.inodes (u, n) ≡ None)
            → StandsUser u result T }
        ensures all { (n : ℕ) → HasInode n result }
    {
        UserPart {
            table: PartTree::empty(alloc),
            inodes: BTreeMap::new(alloc),
            alloc,
        }
    }

    /// Makes the part of a user who has one inode: a new one of that number, which is empty and has
    /// one link. All of it is loaded. Fails only with `NoMemory`.
    pub fn with_inode(
        alloc: Global,
        number: Inum,
        home: FileId,
        kind: Kind,
    ) -> Result<UserPart, Refusal>
        requires meant { IsTrue (is_file_id home) }
        ensures stands { (u : ℕ) (T : Tree) → ((n : ℕ) → get T.inodes (u, n) ≡ None)
            → IfOk result (λ part.
            StandsUser u part (edit T (Inodes (u, number) (Made home kind)))) }
        ensures all { (n : ℕ) → IfOk result (HasAt n (λ i. IsAllIn i.content)) }
        ensures refused { IfErr result (λ e. e ≡ NoMemory) }
    {
        let key = number.number();
        let inode = PartInode::new(alloc, home, kind);
        let digest = inode.digest();
        let mut table = PartTree::empty(alloc);
        table.put(key, digest)?;
        let mut inodes = BTreeMap::new(alloc);
        inodes.insert(key, inode)?;
        Ok(UserPart {
            table,
            inodes,
            alloc,
        })
    }

    /// Copies the part; what is left on the store is left there in the copy. Fails only with
    /// `NoMemory`.
    pub fn copy(&self) -> Result<UserPart, Refusal>
        ensures stands { (u : ℕ) (T : Tree) → StandsUser u self.now T
            → IfOk result (λ copy. StandsUser u copy T) }
        ensures all { IfOk result (λ copy. HasAll self.now copy) }
        ensures refused { IfErr result (λ e. e ≡ NoMemory) }
    {
        let mut inodes = BTreeMap::new(self.alloc);
        for (number, inode) in &self.inodes {
            inodes.insert(*number, inode.copy()?)?;
        }
        Ok(UserPart {
            table: self.table.copy()?,
            inodes,
            alloc: self.alloc,
        })
    }
}
