// Walks of the tree that a client holds.
ghost use Rattle.std.specs.Prelude.{◌≡◌, Ok, IfErr, IfOk, IfSome, map};
ghost use Rattle.su_client.specs.Link.{Follows};
ghost use Rattle.su_client_work.specs.Member.{IsClear, OnlyAsks};
ghost use Rattle.su_draft.specs.Walk.{found};
ghost use Rattle.su_part_tree.specs.Loading.{IsLoadRefusal};
ghost use Rattle.su_people_session.specs.Walks.{AreNamed};
ghost use Rattle.su_view.specs.Holding.{tree_of_list};

use crate::loads::is_of_load;
use crate::names::named;
use crate::troubles::Trouble;
use std::alloc::{AllocError, Global};
use std::io::{Read, Write};
use su_bytes::{FileId, Kind, Name, Refusal};
use su_client_work::Member;
use su_files::Stat;
use su_lms::KeyStore;

/// How many names a walk meets at most.
const MOST_NAMES: u32 = 10_000_000;

const TOO_MANY: &str = "there are more than 10,000,000 names";

/// A file or a folder of the tree, by the path on which it was met.
#[derive(Debug, Drop)]
pub struct Found {
    /// The path of the store on which it was met.
    pub path: Vec<u8>,
    /// Its number.
    pub file: FileId,
    /// What it is, its size and who holds it.
    pub stat: Stat,
}

/// Returns the path of a name in a folder. Fails only where memory is refused.
pub fn path_in(alloc: Global, folder: &[u8], name: &[u8]) -> Result<Vec<u8>, AllocError> {
    let mut path = Vec::from_slice(alloc, folder)?;
    if path.last() != Some(&b'/') {
        path.push(b'/')?;
    }
    path.extend_from_slice(name)?;
    Ok(path)
}

/// Tells what a path leads to in the tree that is held. Refuses a path that leads to nothing, as
/// `Member::find_held` does; or as a load is refused; `NoMemory`.
pub fn found_at<R: Read + Drop, W: Write + Drop, K: KeyStore + Drop>(
    alloc: Global,
    member: &mut Member<R, W, K>,
    path: &[u8],
) -> Result<Found, Refusal>
    ensures asks { OnlyAsks member.old member.new }
    ensures follows { Follows member.old.link member.new.link }
    ensures found { IsClear member.new → IfOk result (λ it.
        found (tree_of_list member.old.holding) path.now ≡ Ok it.file) }
{
    let file = member.find_held(path)?;
    found_as(alloc, member, path, &file)
}

/// Tells what a path leads to in the tree that is held; none where it leads to nothing. Refused only
/// as a load is, and with `NoMemory`.
pub fn found_if_any<R: Read + Drop, W: Write + Drop, K: KeyStore + Drop>(
    alloc: Global,
    member: &mut Member<R, W, K>,
    path: &[u8],
) -> Result<Option<Found>, Refusal>
    ensures asks { OnlyAsks member.old member.new }
    ensures follows { Follows member.old.link member.new.link }
    ensures found { IsClear member.new → IfOk result (λ any. IfSome any (λ it.
        found (tree_of_list member.old.holding) path.now ≡ Ok it.file)) }
    ensures refused { IfErr result IsLoadRefusal }
{
    match found_at(alloc, member, path) {
        Ok(found) => Ok(Some(found)),
        Err(refusal) if is_of_load(&refusal) => Err(refusal),
        Err(_) => Ok(None),
    }
}

/// Tells what a file is that was met on a path.
fn found_as<R: Read + Drop, W: Write + Drop, K: KeyStore + Drop>(
    alloc: Global,
    member: &mut Member<R, W, K>,
    path: &[u8],
    file: &FileId,
) -> Result<Found, Refusal>
    ensures asks { OnlyAsks member.old member.new }
    ensures follows { Follows member.old.link member.new.link }
    ensures file { IfOk result (λ it. it.file ≡ file.now) }
{
    let stat = member.stat_held(*file)?;
    let path = Vec::from_slice(alloc, path)?;
    Ok(Found {
        path,
        file: *file,
        stat,
    })
}

/// Returns what stands in a folder of the tree that is held, by the names, ascending. Refuses what
/// is no folder, as `Member::list_held` does; or as a load is refused; `NoMemory`.
pub fn names_in<R: Read + Drop, W: Write + Drop, K: KeyStore + Drop>(
    alloc: Global,
    member: &mut Member<R, W, K>,
    folder: &Found,
) -> Result<Vec<Found>, Refusal>
    ensures asks { OnlyAsks member.old member.new }
    ensures follows { Follows member.old.link member.new.link }
    ensures named { IsClear member.new → IfOk result (λ all.
        AreNamed member.old.holding folder.now.file all.items) }
{
    let names = member.list_held(folder.file)?;
    let stats = stats_of(alloc, member, names.as_slice())?;
    found_of(alloc, folder.path.as_slice(), names.as_slice(), &stats)
}

/// Tells what each of some files is. Refused as `Member::stat_held` is; `NoMemory`.
fn stats_of<R: Read + Drop, W: Write + Drop, K: KeyStore + Drop>(
    alloc: Global,
    member: &mut Member<R, W, K>,
    names: &[(Name, FileId)],
) -> Result<Vec<Stat>, Refusal>
    ensures asks { OnlyAsks member.old member.new }
    ensures follows { Follows member.old.link member.new.link }
{
    let mut stats = Vec::new(alloc);
    for (_, file) in names {
        let stat = member.stat_held(*file)?;
        stats.push(stat)?;
    }
    Ok(stats)
}

/// Returns the files of these names in a folder, with what each is. Fails only with `NoMemory`, where
/// there is as much told as there are names.
fn found_of(
    alloc: Global,
    folder: &[u8],
    names: &[(Name, FileId)],
    stats: &[Stat],
) -> Result<Vec<Found>, Refusal>
    ensures { IfOk result (λ all.
        map (λ it. it.file) all.items ≡ map (λ name. name.1) names.now) }
{
    let mut all = Vec::new(alloc);
    for (name, file) in names {
        let Some(stat) = stats.get(all.len()) else {
            return Err(Refusal::NoMemory);
        };
        let path = path_in(alloc, folder, name.as_bytes())?;
        all.push(Found {
            path,
            file: *file,
            stat: *stat,
        })?;
    }
    Ok(all)
}

/// Returns what a path leads to and, of a folder, all that is in it: each folder before what it
/// has. Refuses a path that leads to nothing, and more than 10,000,000 names; or as a load is
/// refused; `NoMemory`.
pub fn walked<R: Read + Drop, W: Write + Drop, K: KeyStore + Drop>(
    alloc: Global,
    member: &mut Member<R, W, K>,
    path: &[u8],
) -> Result<Vec<Found>, Trouble> {
    let mut all = Vec::new(alloc);
    all.push(named(alloc, path, found_at(alloc, member, path))?)?;
    let mut next = 0;
    for _ in 0..MOST_NAMES {
        let Some(folder) = all.get(next) else {
            return Ok(all);
        };
        next += 1;
        if folder.stat.kind != Kind::Dir {
            continue;
        }
        let names = named(
            alloc,
            folder.path.as_slice(),
            names_in(alloc, member, folder),
        )?;
        for found in names {
            all.push(found)?;
        }
    }
    Err(Trouble::told(String::from_str(alloc, TOO_MANY)))
}
