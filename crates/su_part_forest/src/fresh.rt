// The forest before the first operation.
ghost use Rattle.std.specs.Prelude.{◌≡◌, ℕ, IfOk, IfErr, IfSome, slice_get};
ghost use Rattle.su_bytes.specs.Place.{Place, GroupFile};
ghost use Rattle.su_bytes.specs.Principal.{is_user, is_group};
ghost use Rattle.su_bytes.specs.declared.refusals.Refusal.TheVariants.{NoMemory};
ghost use Rattle.su_node.specs.Name.{Name};
ghost use Rattle.su_table.specs.Tree.{genesis};
ghost use Rattle.su_part.specs.Part.{StandsUser, HasAt, IsAllIn};
ghost use Rattle.su_group_part.specs.Part.{StandsGroup, HasPointer};
ghost use Rattle.su_part_forest.specs.Forest.{Stands, IsPart, HasInodeAt, HasNameAt, HasPointerAt};

use crate::forests::PartForest;
use std::alloc::Global;
use su_bytes::{FileId, Group, Inum, Kind, Refusal, Roster, User};
use su_group_part::GroupPart;
use su_part::UserPart;

/// Makes the parts of all users before the first operation: the root directory stands at number 1
/// of user 0.
fn first_users(alloc: Global) -> Result<Vec<UserPart>, Refusal>
    ensures stands { (u : ℕ) → IfOk result (λ users.
        IsPart (λ p. StandsUser u p genesis) (is_user u) (slice_get users.items u)) }
    ensures all { (u n : ℕ) → IfOk result (λ users.
        IfSome (slice_get users.items u) (HasAt n (λ i. IsAllIn i.content))) }
    ensures refused { IfErr result (λ e. e ≡ NoMemory) }
{
    let root = UserPart::with_inode(alloc, Inum::FIRST, FileId::ROOT, Kind::Dir)?;
    let mut users = Vec::new(alloc);
    users.push(root)?;
    for _ in 0..usize::from(User::LAST.number()) {
        users.push(UserPart::empty(alloc))?;
    }
    Ok(users)
}

/// Makes the parts of all groups before the first operation: number 1 of group 0 points at the root
/// directory.
fn first_groups(alloc: Global) -> Result<Vec<GroupPart>, Refusal>
    ensures stands { (g : ℕ) → IfOk result (λ groups.
        IsPart (λ p. StandsGroup g p genesis) (is_group g) (slice_get groups.items g)) }
    ensures all { (g n : ℕ) → IfOk result (λ groups.
        IfSome (slice_get groups.items g) (HasPointer n)) }
    ensures refused { IfErr result (λ e. e ≡ NoMemory) }
{
    let mut first = GroupPart::empty(alloc);
    first.put_pointer(Inum::FIRST, (User::FIRST, Inum::FIRST))?;
    let mut groups = Vec::new(alloc);
    groups.push(first)?;
    for _ in 0..usize::from(Group::LAST.number()) {
        groups.push(GroupPart::empty(alloc))?;
    }
    Ok(groups)
}

impl PartForest {
    /// Makes the tree before the first operation, all of it loaded: the empty root directory of
    /// group 0, which stands at user 0. It is the same for each roster: a forest has a part for
    /// each user and each group that there can be. Fails only with `NoMemory`.
    pub fn genesis(alloc: Global, _roster: &Roster) -> Result<PartForest, Refusal>
        ensures value { IfOk result (λ forest. Stands forest genesis) }
        ensures inodes { (p : Place) → IfOk result (HasInodeAt p) }
        ensures names { (p : Place) (x : Name) → IfOk result (HasNameAt p x) }
        ensures pointers { (g : GroupFile) → IfOk result (HasPointerAt g) }
        ensures refused { IfErr result (λ e. e ≡ NoMemory) }
    {
        let users = first_users(alloc)?;
        let groups = first_groups(alloc)?;
        Ok(PartForest {
            users,
            groups,
            alloc,
        })
    }
}
