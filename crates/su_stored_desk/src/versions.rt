// Version numbers, counted entry by entry, and which groups an entry carries.
ghost use Rattle.std.specs.Prelude.{◌≡◌, ◌+◌, ◌<◌, ◌^◌, [], map, IfOk, IfErr};
ghost use Rattle.std.specs.List.{All};
ghost use Rattle.su_bytes.specs.declared.refusals.Refusal.TheVariants.{NoMemory};
ghost use Rattle.su_desk.specs.Version.{is_pointer_of, carried_groups, carries, raises, raised, versions};
ghost use Rattle.su_desk.specs.Trial.{carried_handles};
ghost use Rattle.su_table.specs.Tree.{Tree};
ghost use Rattle.su_stored_forest.specs.Shows.{Holds};

use std::alloc::Global;
use su_block::BlockSource;
use su_bytes::{Digest, Group, Principal, Refusal, Roster, User};
use su_op::Area;
use su_stored_forest::StoredForest;

/// Makes the numbers of an empty history, which are all 0. Fails only with `NoMemory`.
pub(crate) fn first_versions(
    alloc: Global,
    roster: &Roster,
) -> Result<Vec<(Principal, u64)>, Refusal>
    ensures value { IfOk result (λ v. v.items ≡ versions roster.now []) }
    ensures refused { IfErr result (λ e. e ≡ NoMemory) }
{
    let principals = roster.principals()?;
    let mut versions = Vec::with_capacity(alloc, principals.len())?;
    for principal in &principals {
        versions.push((*principal, 0))?;
    }
    Ok(versions)
}

/// Raises the numbers of the author of an entry and of the groups that it carries, each by one; at
/// its last value one stays.
pub(crate) fn raise(versions: &mut [(Principal, u64)], author: User, written: &[Area])
    ensures raised { All (λ v. v.1 + 1 < 2 ^ 64) versions.old
        → versions.new ≡ map (raised author written.now) versions.old }
    ensures same { map (λ v. v.0) versions.new ≡ map (λ v. v.0) versions.old }
{
    for version in versions.iter_mut() {
        if raises(version.0, author, written) {
            version.1 = version.1.saturating_add(1);
        }
    }
}

/// Tells whether an entry of that author, which writes these areas, raises the number.
fn raises(principal: Principal, author: User, written: &[Area]) -> bool
    ensures { result ≡ raises author written.now principal }
{
    match principal {
        Principal::User(user) => user == author,
        Principal::Group(group) => carries(written, group),
    }
}

/// Tells whether one of the areas is a pointer of the group.
fn carries(written: &[Area], group: Group) -> bool
    ensures { result ≡ carries group written.now }
{
    written.iter().any(|area| is_pointer_of(area, group))
}

fn is_pointer_of(area: &Area, group: Group) -> bool
    ensures { result ≡ is_pointer_of group area.now }
{
    match area {
        Area::Inode(..) => false,
        Area::Pointer(file) => file.0 == group,
    }
}

/// Returns the groups of the roster of which one of the areas is a pointer, with their i-handles.
/// Fails only with `NoMemory`; nothing is loaded.
pub(crate) fn carried_handles<S: BlockSource>(
    alloc: Global,
    roster: &Roster,
    written: &[Area],
    stored: &StoredForest<S>,
) -> Result<Vec<(Group, Digest)>, Refusal>
    ensures groups { IfOk result (λ groups.
        map (λ g. g.0) groups.items ≡ carried_groups roster.now written.now) }
    ensures value { (T : Tree) → Holds stored.now T → IfOk result (λ groups.
        groups.items ≡ carried_handles roster.now written.now T) }
    ensures refused { IfErr result (λ e. e ≡ NoMemory) }
{
    let principals = roster.principals()?;
    let mut groups = Vec::new(alloc);
    for principal in &principals {
        if let Principal::Group(group) = principal {
            if carries(written, *group) {
                let handle = stored.group_handle(*group);
                groups.push((*group, handle))?;
            }
        }
    }
    Ok(groups)
}
