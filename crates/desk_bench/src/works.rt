// The operations that are measured, each on one file of many.
use std::alloc::Global;
use su_bytes::{FileId, Inum, Kind, Name, Refusal, User};
use su_op::{Change, Create, Op, Rename, Truncate, Unlink, Write};

/// What is done with each file.
#[derive(Clone, Copy, Debug, PartialEq, Eq)]
pub(crate) enum Work {
    /// A byte is written over.
    Write,
    /// It is cut by a byte.
    Truncate,
    /// Its name is changed.
    Rename,
    /// Another file is made.
    Create,
    /// That one is taken away.
    Unlink,
}

/// All of them, in an order in which each can be done.
pub(crate) const WORKS: [Work; 5] = [
    Work::Write,
    Work::Truncate,
    Work::Rename,
    Work::Create,
    Work::Unlink,
];

impl Work {
    /// Returns its name.
    pub(crate) fn name(self) -> &'static str {
        match self {
            Work::Write => "write",
            Work::Truncate => "truncate",
            Work::Rename => "rename",
            Work::Create => "create",
            Work::Unlink => "unlink",
        }
    }

    /// Tells whether it can be done with a file once, and then again only once it was taken back.
    pub(crate) fn is_once(self) -> bool {
        matches!(self, Work::Create | Work::Unlink)
    }
}

/// Which of the two times it is that a work is done with a file.
#[derive(Clone, Copy, Debug, PartialEq, Eq)]
pub(crate) enum Time {
    First,
    Second,
}

/// How many files there are, in one directory.
pub(crate) const FILES: u32 = 2_000;

/// How many bytes each has.
const SIZE: u32 = 4_096;

/// Returns the change that does this work with the file of an index, below 2,000, the first or the second
/// time.
pub(crate) fn change_of(
    alloc: Global,
    work: Work,
    index: u32,
    time: Time,
) -> Result<Change, Refusal> {
    let other = FILES.saturating_add(index);
    let operation = match work {
        Work::Write => Op::Write(write_of(alloc, index, time)?),
        Work::Truncate => Op::Truncate(Truncate {
            file: file_of(index)?,
            size: match time {
                Time::First => SIZE - 1,
                Time::Second => SIZE - 2,
            },
        }),
        Work::Rename => Op::Rename(rename_of(alloc, index, time)?),
        Work::Create => Op::Create(create_of(alloc, b'n', index, other)?),
        Work::Unlink => Op::Unlink(Unlink {
            dir: FileId::ROOT,
            name: name_of(alloc, b'n', index)?,
            file: file_of(other)?,
        }),
    };
    Ok(Change::of(alloc, operation))
}

/// Returns the changes that make the file of an index, with its bytes.
pub(crate) fn first_of(alloc: Global, index: u32) -> Result<[Change; 2], Refusal> {
    let create = Op::Create(create_of(alloc, b'a', index, index)?);
    let mut bytes = Vec::new(alloc);
    bytes.resize(SIZE as usize, b'x')?;
    let write = Op::Write(Write {
        file: file_of(index)?,
        off: 0,
        bytes,
    });
    Ok([Change::of(alloc, create), Change::of(alloc, write)])
}

/// Returns who does it all.
pub(crate) fn author() -> Result<User, Refusal> {
    User::new(0)
}

/// Returns the number of the body that the file of an index has: the root has the first.
fn number_of(index: u32) -> Result<Inum, Refusal> {
    Inum::new(u64::from(index) + 2)
}

fn file_of(index: u32) -> Result<FileId, Refusal> {
    Ok(FileId::User(author()?, number_of(index)?))
}

/// Returns the name of that letter and an index.
fn name_of(alloc: Global, letter: u8, index: u32) -> Result<Name, Refusal> {
    let [a, b, c, d] = index.to_be_bytes();
    Name::new(
        alloc,
        &[
            letter,
            digit(a),
            digit(b),
            digit(c),
            digit(d),
            b'.',
            low(c),
            low(d),
        ],
    )
}

/// Returns a letter for the higher half of a byte.
fn digit(byte: u8) -> u8 {
    b'a' + byte / 16
}

/// Returns a letter for the lower half of a byte.
fn low(byte: u8) -> u8 {
    b'a' + byte % 16
}

fn create_of(alloc: Global, letter: u8, index: u32, number: u32) -> Result<Create, Refusal> {
    Ok(Create {
        dir: FileId::ROOT,
        name: name_of(alloc, letter, index)?,
        file: file_of(number)?,
        body: number_of(number)?,
        kind: Kind::File,
    })
}

fn write_of(alloc: Global, index: u32, time: Time) -> Result<Write, Refusal> {
    let byte = if time == Time::First { b'y' } else { b'z' };
    Ok(Write {
        file: file_of(index)?,
        off: 7,
        bytes: Vec::from_array(alloc, [byte])?,
    })
}

/// Returns the change of a file's name to the other of its two, or back.
fn rename_of(alloc: Global, index: u32, time: Time) -> Result<Rename, Refusal> {
    let (old, new) = if time == Time::First {
        (b'a', b'b')
    } else {
        (b'b', b'a')
    };
    Ok(Rename {
        from_: FileId::ROOT,
        old_: name_of(alloc, old, index)?,
        to_: FileId::ROOT,
        new_: name_of(alloc, new, index)?,
        file: file_of(index)?,
    })
}
