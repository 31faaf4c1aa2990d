// Changes at chance, of which many are accepted.
use crate::desks::WholeDesk;
use crate::dice::Dice;
use std::alloc::Global;
use su_bytes::{FileId, Group, Inum, KEY_LENGTH, Kind, Name, Place, Refusal, User};
use su_files::list;
use su_op::{Batch, Change, Create, DropBody, Link, Op, Rename, Take, Truncate, Unlink, Write};
use su_reading::TreeReader;

/// How many users there are.
const USERS: u64 = 2;

/// The last number of an i-table that is met.
const NUMBERS: u64 = 16;

/// Returns one of the users.
pub(crate) fn some_user(dice: &mut Dice) -> Result<User, Refusal> {
    User::new(dice.below(USERS))
}

/// Returns some number of an i-table, often the first.
pub(crate) fn some_number(dice: &mut Dice) -> Result<Inum, Refusal> {
    if dice.one_of(4) {
        return Ok(Inum::FIRST);
    }
    Inum::new(dice.below(NUMBERS) + 1)
}

/// Returns a number at which the user has no inode, mostly.
fn some_free_number(dice: &mut Dice, tree: &mut WholeDesk, user: User) -> Result<Inum, Refusal> {
    // names the type for the prover (docs/ARCHITECTURE.md, "Forms the kit wants")
    let _file: Option<FileId> = None;
    let number = some_number(dice)?;
    Ok(tree.free_number(user, number)?.unwrap_or(number))
}

/// Returns a number at which the group has no file, mostly.
fn some_free_pointer(dice: &mut Dice, tree: &mut WholeDesk, group: Group) -> Result<Inum, Refusal> {
    // names the type for the prover (docs/ARCHITECTURE.md, "Forms the kit wants")
    let _file: Option<FileId> = None;
    let number = some_number(dice)?;
    Ok(tree.free_group_number(group, number)?.unwrap_or(number))
}

/// Returns a place where a file of that kind stands, or of any; or some place.
fn some_place(dice: &mut Dice, tree: &mut WholeDesk, kind: Option<Kind>) -> Result<Place, Refusal> {
    // names the type for the prover (docs/ARCHITECTURE.md, "Forms the kit wants")
    let _file: Option<FileId> = None;
    let start = dice.below(USERS * NUMBERS);
    for at in start..start + USERS * NUMBERS {
        let place = place_at(at % (USERS * NUMBERS))?;
        if is_such(tree, &place, kind)? {
            return Ok(place);
        }
    }
    place_at(start)
}

/// Returns one of the places of all users, by its index.
fn place_at(index: u64) -> Result<Place, Refusal> {
    // names the type for the prover (docs/ARCHITECTURE.md, "Forms the kit wants")
    let _file: Option<FileId> = None;
    Ok((User::new(index % USERS)?, Inum::new(index / USERS + 1)?))
}

/// Tells whether a file of that kind, or of any, stands at a place.
fn is_such(tree: &mut WholeDesk, place: &Place, kind: Option<Kind>) -> Result<bool, Refusal> {
    let Some(head) = tree.head(*place)? else {
        return Ok(false);
    };
    if let Some(kind) = kind {
        if head.kind != kind {
            return Ok(false);
        }
    }
    Ok(tree.body(head.home)? == Some(*place))
}

/// Returns the file that a place is home to, or the root.
fn home_of(tree: &mut WholeDesk, place: Place) -> Result<FileId, Refusal> {
    match tree.head(place)? {
        Some(head) => Ok(head.home),
        None => Ok(FileId::ROOT),
    }
}

/// Returns a file that stands somewhere, and who holds it.
pub(crate) fn some_file(
    dice: &mut Dice,
    tree: &mut WholeDesk,
    kind: Option<Kind>,
) -> Result<(User, FileId), Refusal> {
    let place = some_place(dice, tree, kind)?;
    Ok((place.0, home_of(tree, place)?))
}

/// Returns a name of few.
fn some_name(alloc: Global, dice: &mut Dice) -> Result<Name, Refusal> {
    let letter = b'a' + dice.below(8) as u8;
    Name::new(alloc, &[letter])
}

/// Returns a name of that directory, and where it leads; or some name and file.
fn some_entry(
    alloc: Global,
    dice: &mut Dice,
    tree: &mut WholeDesk,
    dir: &FileId,
) -> Result<(Name, FileId), Refusal> {
    let Ok(mut names) = list(tree, *dir) else {
        return Ok((some_name(alloc, dice)?, some_file(dice, tree, None)?.1));
    };
    if names.is_empty() {
        return Ok((some_name(alloc, dice)?, some_file(dice, tree, None)?.1));
    }
    let at = dice.below(names.len() as u64) as usize;
    Ok(names.swap_remove(at))
}

fn some_create(
    alloc: Global,
    dice: &mut Dice,
    tree: &mut WholeDesk,
) -> Result<(User, Op), Refusal> {
    let (author, dir) = some_file(dice, tree, Some(Kind::Dir))?;
    let body = some_free_number(dice, tree, author)?;
    let file = if dice.one_of(2) {
        FileId::User(author, body)
    } else {
        let group = Group::new(dice.below(2))?;
        FileId::Group(group, some_free_pointer(dice, tree, group)?)
    };
    let kind = if dice.one_of(2) {
        Kind::Dir
    } else {
        Kind::File
    };
    let name = some_name(alloc, dice)?;
    let create = Create {
        dir,
        name,
        file,
        body,
        kind,
    };
    Ok((author, Op::Create(create)))
}

/// Returns a place in a file, at the beginning, at the end of a block, or anywhere.
fn some_offset(dice: &mut Dice) -> u32 {
    match dice.below(4) {
        0 => dice.below(4) as u32,
        1 => 4_094 + dice.below(5) as u32,
        2 => 8_190 + dice.below(5) as u32,
        _ => dice.below(20_000) as u32,
    }
}

/// Returns some bytes, mostly few.
fn some_bytes(alloc: Global, dice: &mut Dice) -> Result<Vec<u8>, Refusal> {
    let count = if dice.one_of(4) {
        dice.below(9_000) + 1
    } else {
        dice.below(6) + 1
    };
    let mut bytes = Vec::new(alloc);
    for _ in 0..count {
        bytes.push(dice.below(256) as u8)?;
    }
    Ok(bytes)
}

fn some_write(alloc: Global, dice: &mut Dice, tree: &mut WholeDesk) -> Result<(User, Op), Refusal> {
    let (author, file) = some_file(dice, tree, Some(Kind::File))?;
    let write = Write {
        file,
        off: some_offset(dice),
        bytes: some_bytes(alloc, dice)?,
    };
    Ok((author, Op::Write(write)))
}

fn some_truncate(dice: &mut Dice, tree: &mut WholeDesk) -> Result<(User, Op), Refusal> {
    let (author, file) = some_file(dice, tree, Some(Kind::File))?;
    let size = some_offset(dice);
    Ok((author, Op::Truncate(Truncate { file, size })))
}

fn some_take(dice: &mut Dice, tree: &mut WholeDesk) -> Result<(User, Op), Refusal> {
    let (_holder, file) = some_file(dice, tree, None)?;
    let author = some_user(dice)?;
    let take = Take {
        file,
        body: some_free_number(dice, tree, author)?,
    };
    Ok((author, Op::Take(take)))
}

fn some_link(alloc: Global, dice: &mut Dice, tree: &mut WholeDesk) -> Result<(User, Op), Refusal> {
    let (author, dir) = some_file(dice, tree, Some(Kind::Dir))?;
    let (_holder, file) = some_file(dice, tree, Some(Kind::File))?;
    let name = some_name(alloc, dice)?;
    Ok((author, Op::Link(Link { dir, name, file })))
}

fn some_unlink(
    alloc: Global,
    dice: &mut Dice,
    tree: &mut WholeDesk,
) -> Result<(User, Op), Refusal> {
    let (author, dir) = some_file(dice, tree, Some(Kind::Dir))?;
    let (name, file) = some_entry(alloc, dice, tree, &dir)?;
    Ok((author, Op::Unlink(Unlink { dir, name, file })))
}

fn some_rename(
    alloc: Global,
    dice: &mut Dice,
    tree: &mut WholeDesk,
) -> Result<(User, Op), Refusal> {
    let (author, from_) = some_file(dice, tree, Some(Kind::Dir))?;
    let to_ = if dice.one_of(2) {
        from_
    } else {
        some_file(dice, tree, Some(Kind::Dir))?.1
    };
    let (old_, file) = some_entry(alloc, dice, tree, &from_)?;
    let rename = Rename {
        from_,
        old_,
        to_,
        new_: some_name(alloc, dice)?,
        file,
    };
    Ok((author, Op::Rename(rename)))
}

fn some_drop(dice: &mut Dice) -> Result<(User, Op), Refusal> {
    let place = (some_user(dice)?, some_number(dice)?);
    Ok((place.0, Op::Drop(DropBody { body: place.1 })))
}

/// Returns an operation, and who can make it at most.
fn some_operation(
    alloc: Global,
    dice: &mut Dice,
    tree: &mut WholeDesk,
) -> Result<(User, Op), Refusal> {
    match dice.below(20) {
        0..=5 => some_create(alloc, dice, tree),
        6..=9 => some_write(alloc, dice, tree),
        10 => some_truncate(dice, tree),
        11..=13 => some_take(dice, tree),
        14 => some_link(alloc, dice, tree),
        15 | 16 => some_unlink(alloc, dice, tree),
        17 | 18 => some_rename(alloc, dice, tree),
        _ => some_drop(dice),
    }
}

/// Returns a batch of one to three operations.
fn some_batch(
    alloc: Global,
    dice: &mut Dice,
    tree: &mut WholeDesk,
) -> Result<(User, Change), Refusal> {
    let (author, operation) = some_operation(alloc, dice, tree)?;
    let mut batch = Batch::of(alloc, operation);
    if dice.one_of(4) {
        for _ in 0..dice.below(3) {
            batch.push(some_operation(alloc, dice, tree)?.1)?;
        }
    }
    Ok((author, Change::Do(batch)))
}

/// Returns the key of that number.
pub(crate) fn key_of(number: u8) -> [u8; KEY_LENGTH] {
    let mut key = [0; KEY_LENGTH];
    key[3] = 5;
    key[7] = 4;
    key[8] = number;
    key
}

/// Returns a change of a tree whose history has so many entries, and an author.
pub(crate) fn some_change(
    alloc: Global,
    dice: &mut Dice,
    tree: &mut WholeDesk,
    entries: u64,
) -> Result<(User, Change), Refusal> {
    match dice.below(20) {
        0..=3 => Ok((
            some_user(dice)?,
            Change::Undo(some_entry_number(dice, entries)),
        )),
        4 => Ok((
            some_user(dice)?,
            Change::Rekey(key_of(dice.below(64) as u8)),
        )),
        _ => some_batch(alloc, dice, tree),
    }
}

/// Returns the number of an entry, mostly of a late one, or one too many.
fn some_entry_number(dice: &mut Dice, entries: u64) -> u64 {
    if dice.one_of(2) {
        entries.saturating_sub(dice.below(6))
    } else {
        dice.below(entries.saturating_add(2))
    }
}
