// What a history is made of, and what is answered to a change.
ghost use Rattle.std.specs.Prelude.{◌≡◌, IfOk, option_copied};
ghost use Rattle.su_desk.specs.Filling.{filling};
ghost use Rattle.su_desk.specs.History.{entry_at, entry_by, format_after, undoer, undoes};
ghost use Rattle.su_desk.specs.KeptChange.{whole};
ghost use Rattle.su_desk.specs.KeptEntry.{is_operation, undone, without_bytes, written};

use crate::fillings::Filling;
use crate::kept_changes::KeptChange;
use std::alloc::{AllocError, Global};
use std::marker::Model;
use su_bytes::{Format, Refusal, User};
use su_op::Change;

/// An entry of the history: who made which change, and in which format.
#[derive(Debug, Drop)]
pub struct Entry {
    pub author: User,
    pub format: Format,
    pub change: Change,
}

/// An entry as a history keeps it, in few bytes: all of it but the bytes that its writes have, which
/// no memory holds; how many these are is known. Its model is the whole entry.
#[derive(Drop)]
pub struct KeptEntry {
    author: User,
    format: Format,
    change: KeptChange,
}

impl Model for KeptEntry {
    ghost use Rattle.su_desk.specs.declared.entries.Entry.{Entry as TheEntry};
    ghost use Rattle.su_desk.specs.KeptChange.{whole};

    ghost Value = { TheEntry };

    ghost view = { λ k. record { author = k.author; format = k.format; change = whole k.change } };
}

impl KeptEntry {
    /// Makes the entry of a change that is kept. Takes no memory.
    pub fn new(author: User, format: Format, change: KeptChange) -> KeptEntry
        ensures { result ≡ entry_by author format (whole change) }
    {
        KeptEntry {
            author,
            format,
            change,
        }
    }

    /// Returns who made the change.
    pub fn author(&self) -> User
        ensures { result ≡ self.now.author }
    {
        self.author
    }

    /// Returns the format that the change was made in.
    pub fn format(&self) -> Format
        ensures { result ≡ self.now.format }
    {
        self.format
    }

    /// Returns the change, with no bytes in its writes. Fails only where there is no room.
    pub fn change(&self, alloc: Global) -> Result<Change, AllocError>
        ensures { IfOk result (λ change. change ≡ without_bytes self.now.change) }
    {
        self.change.without_bytes(alloc)
    }

    /// Returns how many bytes the change writes; `u64::MAX` where several of its operations write more.
    pub fn written(&self) -> u64
        ensures { result ≡ written self.now.change }
    {
        self.change.written()
    }

    /// Returns what the change does to the bytes of a file, where it is one operation.
    pub fn filling(&self) -> Filling
        ensures { result ≡ filling self.now.change }
    {
        self.change.filling()
    }

    /// Returns the number of the entry that this one undoes, if it is an undo.
    pub fn undone(&self) -> Option<u64>
        ensures { result ≡ undone self.now.change }
    {
        self.change.undone()
    }

    /// Tells whether the change is operations, and no undo or rekey.
    pub fn is_operation(&self) -> bool
        ensures { result ≡ is_operation self.now.change }
    {
        self.change.is_operation()
    }

    /// Tells whether this is the undo of that entry.
    pub(crate) fn undoes(&self, number: u64) -> bool
        ensures { result ≡ undoes number self.now.change }
    {
        self.change.undoes(number)
    }
}

/// What a desk answers to one of several changes.
#[derive(Clone, Copy, Debug, PartialEq, Eq)]
pub enum DeskReply {
    /// The number of the entry, from 1.
    Done(u64),
    Refused(Refusal),
}

/// Returns the entry of a number, if there is one.
pub fn entry_at(entries: &[KeptEntry], number: u64) -> Option<&KeptEntry>
    ensures { option_copied result ≡ entry_at entries.now number }
{
    if number == 0 {
        return None;
    }
    let index = usize::try_from(number - 1).ok()?;
    entries.get(index)
}

/// Returns the format of the last entry, at first the oldest one.
pub fn format_after(entries: &[KeptEntry]) -> Format
    ensures { result ≡ format_after entries.now }
{
    match entries.last() {
        Some(entry) => entry.format(),
        None => Format::V1,
    }
}

/// Returns the number of the first entry that undoes that one, if one does.
pub fn undoer_in(entries: &[KeptEntry], number: u64) -> Option<u64>
    ensures { result ≡ undoer entries.now number }
{
    for (index, entry) in entries.iter().enumerate() {
        if entry.undoes(number) {
            return Some(index as u64 + 1);
        }
    }
    None
}
