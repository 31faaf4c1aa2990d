// Inodes and forests all of which are in memory.
use crate::clients::file;
use crate::desks::two_users;
use crate::faults::{Fault, Mistake, check};
use crate::seen::{Seen, again};
use std::alloc::Global;
use su_bytes::{Digest, FileId, Group, Inum, Kind, Name, Place, Refusal, User};
use su_node::Inode;
use su_table::Forest;

/// What the files say.
const BYTES: &[u8] = b"hello";

/// Where the first user's first file stands.
pub(crate) fn root() -> Place {
    (User::FIRST, Inum::FIRST)
}

/// Where another one stands.
pub(crate) fn second() -> Result<Place, Refusal> {
    // names the types for the prover (docs/ARCHITECTURE.md, "Forms the kit wants")
    let _none: (Option<FileId>, Option<Refusal>) = (None, None);
    Ok((User::FIRST, Inum::new(2)?))
}

/// A directory gets a name, a file is written and cut; both are read and copied.
pub(crate) fn by_themselves(alloc: Global, seen: &mut Seen) -> Result<(), Fault> {
    // names the types for the prover (docs/ARCHITECTURE.md, "Forms the kit wants")
    let _none: (Option<FileId>, Option<Refusal>) = (None, None);
    let mut dir = Inode::new(alloc, FileId::ROOT, Kind::Dir);
    again!(
        seen,
        dir.is_bare(),
        dir.name_set(Name::new(alloc, b"a")?, file(2)?)
    )?;
    has_name(&dir, seen)?;
    let copy = again!(seen, !dir.is_bare(), dir.copy())?;
    has_name(&copy, seen)?;
    let mut second = Inode::new(alloc, file(2)?, Kind::File);
    again!(seen, second.size() == 0, second.write_at(0, BYTES))?;
    says(&second, BYTES, seen)?;
    again!(seen, second.size() == 5, second.resize(3))?;
    says(&second, b"hel", seen)?;
    again!(seen, second.size() == 3, second.resize(4_097))?;
    let copy = again!(seen, second.size() == 4_097, second.copy())?;
    let read = again!(seen, copy.size() == 4_097, copy.read_at(1, 3))?;
    is_said(read, b"el\0")
}

// It has the one name, which leads to the second file.
fn has_name(dir: &Inode, seen: &mut Seen) -> Result<(), Fault> {
    // names the types for the prover (docs/ARCHITECTURE.md, "Forms the kit wants")
    let _none: (Option<FileId>, Option<Refusal>) = (None, None);
    match again!(seen, !dir.is_bare(), dir.names())? {
        Some(names) => are_names(names.as_slice()),
        None => Err(Fault::Wrong(Mistake::Found)),
    }
}

fn are_names(names: &[(Name, FileId)]) -> Result<(), Fault> {
    // names the types for the prover (docs/ARCHITECTURE.md, "Forms the kit wants")
    let _none: (Option<FileId>, Option<Refusal>) = (None, None);
    let [(name, led)] = names else {
        return Err(Fault::Wrong(Mistake::Found));
    };
    check(
        name.as_bytes() == b"a".as_slice() && *led == file(2)?,
        Mistake::Found,
    )
}

fn says(file: &Inode, bytes: &[u8], seen: &mut Seen) -> Result<(), Fault> {
    let read = again!(seen, file.links() == 1, file.content())?;
    is_said(read, bytes)
}

fn is_said(read: Option<Vec<u8>>, bytes: &[u8]) -> Result<(), Fault> {
    match read {
        Some(read) => check(read.as_slice() == bytes, Mistake::Content),
        None => Err(Fault::Wrong(Mistake::Content)),
    }
}

/// A file with a name is put into a forest, written, cut and read; the forest is copied, and the file
/// exchanged for another one.
pub(crate) fn in_a_forest(alloc: Global, seen: &mut Seen) -> Result<(), Fault> {
    // names the types for the prover (docs/ARCHITECTURE.md, "Forms the kit wants")
    let _none: (Option<FileId>, Option<Refusal>) = (None, None);
    let roster = two_users(alloc)?;
    let mut forest = Forest::genesis(alloc, &roster)?;
    made(alloc, &mut forest, seen)?;
    let place = second()?;
    let handles = handles_of(&forest, seen)?;
    again!(
        seen,
        are_handles(&forest, &handles)?,
        forest.write_at(place, 0, BYTES)
    )?;
    reads(&forest, BYTES, seen)?;
    let handles = handles_of(&forest, seen)?;
    again!(
        seen,
        are_handles(&forest, &handles)?,
        forest.resize(place, 3)
    )?;
    reads(&forest, b"hel", seen)?;
    let handles = handles_of(&forest, seen)?;
    let copy = again!(seen, are_handles(&forest, &handles)?, forest.copy())?;
    again!(
        seen,
        are_handles(&forest, &handles)?,
        forest.exchange_inode(place, Inode::new(alloc, file(2)?, Kind::File))
    )?;
    reads(&forest, b"", seen)?;
    reads(&copy, b"hel", seen)?;
    check(are_handles(&copy, &handles)?, Mistake::Changed)
}

// Puts a file without bytes into a forest, with its pointer and its name.
fn made(alloc: Global, forest: &mut Forest, seen: &mut Seen) -> Result<(), Fault> {
    // names the types for the prover (docs/ARCHITECTURE.md, "Forms the kit wants")
    let _none: (Option<FileId>, Option<Refusal>) = (None, None);
    let place = second()?;
    let handles = handles_of(forest, seen)?;
    again!(
        seen,
        are_handles(forest, &handles)?,
        forest.put_inode(place, Inode::new(alloc, file(2)?, Kind::File))
    )?;
    let handles = handles_of(forest, seen)?;
    again!(
        seen,
        are_handles(forest, &handles)?,
        forest.put_pointer((Group::FIRST, Inum::new(2)?), place)
    )?;
    let handles = handles_of(forest, seen)?;
    again!(
        seen,
        are_handles(forest, &handles)?,
        forest.add_name(root(), Name::new(alloc, b"a")?, file(2)?)
    )?;
    let names = again!(seen, true, forest.list(FileId::ROOT))?;
    are_names(names.as_slice())
}

// The handles of user 0 and of group 0.
fn handles_of(forest: &Forest, seen: &mut Seen) -> Result<[Digest; 2], Fault> {
    // names the types for the prover (docs/ARCHITECTURE.md, "Forms the kit wants")
    let _none: (Option<FileId>, Option<Refusal>) = (None, None);
    Ok([
        again!(seen, true, forest.i_handle(User::FIRST))?,
        again!(seen, true, forest.group_handle(Group::FIRST))?,
    ])
}

fn are_handles(forest: &Forest, handles: &[Digest; 2]) -> Result<bool, Refusal> {
    // names the types for the prover (docs/ARCHITECTURE.md, "Forms the kit wants")
    let _none: (Option<FileId>, Option<Refusal>) = (None, None);
    let [user, group] = handles;
    Ok(forest.i_handle(User::FIRST)? == *user && forest.group_handle(Group::FIRST)? == *group)
}

// The second file has these bytes.
fn reads(forest: &Forest, bytes: &[u8], seen: &mut Seen) -> Result<(), Fault> {
    // names the types for the prover (docs/ARCHITECTURE.md, "Forms the kit wants")
    let _none: (Option<FileId>, Option<Refusal>) = (None, None);
    let second = file(2)?;
    let read = again!(seen, true, forest.read(second))?;
    check(read.as_slice() == bytes, Mistake::Content)?;
    let first = again!(seen, true, forest.read_at(second, 0, 1))?;
    check(
        first.as_slice() == bytes.get(..1).unwrap_or(&[]),
        Mistake::Content,
    )
}
