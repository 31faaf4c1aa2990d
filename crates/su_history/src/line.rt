// What a line of a history says.
use std::marker::Model;
use su_bytes::{FileId, User};
use su_op::{Create, DropBody, Link, Rename, Take, Truncate, Unlink};

/// A line of a history: entries that belong together, all by one author.
#[derive(Debug, Drop)]
pub struct Line {
    /// The number of its first entry, from 1.
    pub first: u64,
    /// The number of its last entry.
    pub last: u64,
    pub author: User,
    pub deed: Deed,
    pub fate: Fate,
}

/// What the entries of a line did.
#[derive(Debug, Drop)]
pub enum Deed {
    /// Made an empty file or a directory.
    Made(Create),
    /// Made a file and wrote to it.
    Put {
        made: Create,
        /// How many bytes all its writes have.
        bytes: u64,
    },
    /// Wrote to a file that was there.
    Wrote {
        file: FileId,
        /// How many bytes all its writes have.
        bytes: u64,
    },
    /// Gave a file another size, the last of several in a row.
    Cut(Truncate),
    Linked(Link),
    Renamed(Rename),
    /// Took a name out of a directory.
    Removed(Unlink),
    TookOver(Take),
    Dropped(DropBody),
    /// Did several operations together that no other deed tells of.
    Together(Several),
    /// Undid the operation with that number.
    Undid(u64),
    /// Named the author's next key.
    NamedKey,
}

/// Several operations of one entry.
#[derive(Debug, Drop)]
pub struct Several {
    /// How many they are.
    pub operations: u64,
    /// How many bytes all their writes have; `u64::MAX` where they have more.
    pub bytes: u64,
    /// The files and directories that they name, each as often as it is named.
    pub files: Vec<FileId>,
}

impl Model for Several {
    ghost use Rattle.su_history.specs.Several.{SeveralOperations};

    ghost Value = { SeveralOperations };

    ghost view = { λ s. record { operations = s.operations; bytes = s.bytes; files = s.files.items } };
}

/// What became of the entries of a line.
#[derive(Clone, Copy, Debug, PartialEq, Eq)]
pub enum Fate {
    /// No undo names any of them.
    Live,
    /// An undo names each of them; the number is that of the one that names the last.
    Undone(u64),
    /// It is an undo or a rekey, which nothing undoes.
    Lasting,
}
