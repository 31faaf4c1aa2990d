// Inodes that are put in the place of others.
ghost use Rattle.std.specs.Prelude.{◌≡◌, ◌⊎◌, ℕ, IsSome, IsTrue, OnOk, OnErr, IfOk, IfErr, Some, None};
ghost use Rattle.std.specs.FinMap.{get};
ghost use Rattle.su_bytes.specs.declared.refusals.Refusal.TheVariants.{NoMemory};
ghost use Rattle.su_node.specs.Inode.{Inode};
ghost use Rattle.su_node.specs.InodeChange.{InodeChange.Copied};
ghost use Rattle.su_part_tree.specs.Part.{reaches};
ghost use Rattle.su_table.specs.Edit.{Edit.Inodes, edit};
ghost use Rattle.su_table.specs.Tree.{Tree};
ghost use Rattle.su_tree.specs.Number.{number_bits};
ghost use Rattle.su_part.specs.Item.{MeantInode};
ghost use Rattle.su_part.specs.Known.{KnowsInode};
ghost use Rattle.su_part.specs.Part.{HasAll, IsThere, StandsInode, StandsJust, StandsUser, StaysLoaded, at_number};

use crate::inodes::PartInode;
use crate::users::UserPart;
use std::mem;
use su_bytes::{Inum, Refusal};

impl UserPart {
    /// Puts an inode at a number, and returns what stood there. The number's path is loaded, or its
    /// inode is and it is known. Fails only with `NoMemory`, and only where nothing stands there;
    /// then it stands for what it stood for, and what was loaded is loaded.
    pub fn exchange_inode(
        &mut self,
        number: Inum,
        inode: PartInode,
    ) -> Result<Option<PartInode>, Refusal>
        requires { IsSome (at_number self.old.inodes.entries number)
            ⊎ IsTrue (reaches number_bits number self.old.table) }
        ensures value { (u : ℕ) (T : Tree) → StandsUser u self.old T → IsThere u T number self.old
            → IfOk result (λ o. StandsJust o (get T.inodes (u, number))) }
        ensures ok { (u : ℕ) (T : Tree) (i : Inode) → StandsUser u self.old T
            → KnowsInode u T number self.old → StandsInode inode i → MeantInode i
            → OnOk result (StandsUser u self.new (edit T (Inodes (u, number) (Copied i)))) }
        ensures there { OnOk result (at_number self.new.inodes.entries number ≡ Some inode) }
        ensures stays { OnOk result (StaysLoaded number self.old self.new) }
        ensures refused { IfErr result (λ e. e ≡ NoMemory) }
        ensures err { (u : ℕ) (T : Tree) → StandsUser u self.old T
            → OnErr result (StandsUser u self.new T) }
        ensures absent { (u : ℕ) (T : Tree) → StandsUser u self.old T → IsThere u T number self.old
            → OnErr result (get T.inodes (u, number) ≡ None) }
        ensures keeps { OnErr result (HasAll self.old self.new) }
    {
        let key = number.number();
        let digest = inode.digest();
        if let Some(place) = self.inodes.get_mut(&key) {
            let old = mem::replace(place, inode);
            self.table.set(key, digest);
            return Ok(Some(old));
        }
        let room = self.table.room()?;
        self.inodes.insert(key, inode)?;
        self.table.put_in(key, digest, room);
        Ok(None)
    }
}
