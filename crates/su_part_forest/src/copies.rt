// Copies of forests, and of inodes.
ghost use Rattle.std.specs.Prelude.{◌≡◌, IfOk, IfErr};
ghost use Rattle.std.specs.FinMap.{get};
ghost use Rattle.su_bytes.specs.Place.{Place, GroupFile};
ghost use Rattle.su_bytes.specs.declared.refusals.Refusal.TheVariants.{NoMemory};
ghost use Rattle.su_node.specs.Name.{Name};
ghost use Rattle.su_table.specs.Tree.{Tree};
ghost use Rattle.su_part.specs.Part.{StandsJust};
ghost use Rattle.su_part_forest.specs.Copy.{AreCopies, IsUserCopy, IsGroupCopy};
ghost use Rattle.su_part_forest.specs.Forest.{Stands, IsSound, IsThereAt, HasInodeAt, HasNameAt, HasPointerAt};

use crate::forests::PartForest;
use std::alloc::Global;
use su_bytes::{Place, Refusal};
use su_group_part::GroupPart;
use su_part::{PartInode, UserPart};

/// Copies the parts of users.
fn copy_users(alloc: Global, users: &Vec<UserPart>) -> Result<Vec<UserPart>, Refusal>
    ensures copied { IfOk result (λ copies. AreCopies IsUserCopy users.now.items copies.items) }
    ensures refused { IfErr result (λ e. e ≡ NoMemory) }
{
    let mut copies = Vec::new(alloc);
    for part in users {
        copies.push(part.copy()?)?;
    }
    Ok(copies)
}

/// Copies the parts of groups.
fn copy_groups(alloc: Global, groups: &Vec<GroupPart>) -> Result<Vec<GroupPart>, Refusal>
    ensures copied { IfOk result (λ copies. AreCopies IsGroupCopy groups.now.items copies.items) }
    ensures refused { IfErr result (λ e. e ≡ NoMemory) }
{
    let mut copies = Vec::new(alloc);
    for part in groups {
        copies.push(part.copy()?)?;
    }
    Ok(copies)
}

impl PartForest {
    /// Copies the forest; what is left on the store is left there in the copy, and what is loaded
    /// stays loaded. Fails only with `NoMemory`.
    pub fn copy(&self) -> Result<PartForest, Refusal>
        ensures stands { (T : Tree) → Stands self.now T → IfOk result (λ copy. Stands copy T) }
        ensures inodes { IsSound self.now → (p : Place) → HasInodeAt p self.now
            → IfOk result (HasInodeAt p) }
        ensures names { IsSound self.now → (p : Place) (x : Name) → HasNameAt p x self.now
            → IfOk result (HasNameAt p x) }
        ensures pointers { (g : GroupFile) → HasPointerAt g self.now
            → IfOk result (HasPointerAt g) }
        ensures refused { IfErr result (λ e. e ≡ NoMemory) }
    {
        let users = copy_users(self.alloc, &self.users)?;
        let groups = copy_groups(self.alloc, &self.groups)?;
        Ok(PartForest {
            users,
            groups,
            alloc: self.alloc,
        })
    }

    /// Copies the inode at `place`, if one is loaded there; what of it is left on the store is left
    /// there in the copy. Fails only with `NoMemory`.
    pub fn copy_inode(&self, place: Place) -> Result<Option<PartInode>, Refusal>
        ensures copied { (T : Tree) → Stands self.now T → IsThereAt place T self.now
            → IfOk result (λ copy. StandsJust copy (get T.inodes place)) }
        ensures refused { IfErr result (λ e. e ≡ NoMemory) }
    {
        match self.inode(place) {
            Some(inode) => Ok(Some(inode.copy()?)),
            None => Ok(None),
        }
    }
}
