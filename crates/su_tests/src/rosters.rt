// What makes no roster.
use std::alloc::Global;
use std::test::Fail;
use su_bytes::{FileId, Group, KEY_LENGTH, Refusal, Roster, RosterGroup, RosterUser, User};

// Users of these numbers, with keys of zeros.
fn users(alloc: Global, numbers: &[u64]) -> Result<Vec<RosterUser>, Refusal> {
    let mut users = Vec::new(alloc);
    for number in numbers {
        users.push(RosterUser {
            user: User::new(*number)?,
            key: [0; KEY_LENGTH],
        })?;
    }
    Ok(users)
}

// Group 0 with these members.
fn first_group(alloc: Global, members: &[u64]) -> Result<Vec<RosterGroup>, Refusal> {
    let mut group = RosterGroup {
        group: Group::FIRST,
        members: Vec::new(alloc),
    };
    for number in members {
        group.members.push(User::new(*number)?)?;
    }
    let mut groups = Vec::new(alloc);
    groups.push(group)?;
    Ok(groups)
}

// Whether users of these numbers, and group 0 with these members, make a roster.
fn is_roster(alloc: Global, numbers: &[u64], members: &[u64]) -> Result<bool, Refusal> {
    match Roster::new(users(alloc, numbers)?, first_group(alloc, members)?) {
        Ok(_roster) => Ok(true),
        Err(Refusal::BadRoster) => Ok(false),
        Err(refusal) => Err(refusal),
    }
}

#[test]
fn what_makes_no_roster(rt: HostRuntime) -> Result<(), Fail> {
    // names the type for the prover (docs/ARCHITECTURE.md, "Forms the kit wants")
    let _file: Option<FileId> = None;
    let alloc = rt.alloc();
    assert!(rt; is_roster(alloc, &[0, 1], &[0, 1])?);
    // without user 0; with a user twice; with a group that has nobody
    assert!(rt; !is_roster(alloc, &[1, 2], &[1])?);
    assert!(rt; !is_roster(alloc, &[0, 0], &[0])?);
    assert!(rt; !is_roster(alloc, &[0], &[])?);
    Ok(())
}
