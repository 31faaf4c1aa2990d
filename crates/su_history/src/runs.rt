// Which entries are one line, and what they did.
ghost use Rattle.std.specs.Prelude.{◌≡◌, ◌-◌, ◌^◌, ◌<◌, ◌≤◌, ◌⊎◌, ℕ, true, false, length, get_or, IfOk, MatchOption};
ghost use Rattle.std.specs.List.{sum_by};
ghost use Rattle.su_desk.specs.KeptEntry.{without_bytes, written};
ghost use Rattle.su_history.specs.Line.{AreUndoers, NumberedEntry, deed_of_run, edited, fate_of, filled, goes_on, is_same_file, numbered};

use crate::deeds::{deed_of, deed_of_row, is_same};
use crate::line::{Deed, Fate};
use std::alloc::{AllocError, Global};
use su_bytes::FileId;
use su_desk::{Filling, KeptEntry};
use su_op::{Change, Op};

/// Returns the file that an entry makes, writes to or cuts; `None` where it is more than one operation.
fn filled(entry: &KeptEntry) -> Option<FileId>
    ensures { result ≡ filled entry.now.change }
{
    match entry.filling() {
        Filling::Makes(file) => Some(file),
        Filling::Edits(file) => Some(file),
        Filling::Neither => None,
    }
}

/// Returns the file that an entry writes to or cuts; `None` where it is more than one operation.
fn edited(entry: &KeptEntry) -> Option<FileId>
    ensures { result ≡ edited entry.now.change }
{
    match entry.filling() {
        Filling::Makes(_) => None,
        Filling::Edits(file) => Some(file),
        Filling::Neither => None,
    }
}

/// Tells whether an entry writes to or cuts the file that the one before it made, wrote to or cut.
fn is_same_file(before: &KeptEntry, entry: &KeptEntry) -> bool
    ensures { result ≡ is_same_file before.now.change entry.now.change }
{
    match (filled(before), edited(entry)) {
        (Some(file), Some(other)) => is_same(file, other),
        _ => false,
    }
}

/// Tells whether the entry of that index goes on with the one before it.
fn goes_on(entries: &[KeptEntry], undoers: &[Option<u64>], index: usize) -> bool
    requires undoers { AreUndoers entries.now undoers.now }
    requires some { 0 < index }
    requires there { index < length entries.now }
    ensures { (d : NumberedEntry) → result
        ≡ goes_on (get_or (numbered entries.now) (index - 1) d)
        (get_or (numbered entries.now) index d) }
{
    let before = &entries[index - 1];
    let entry = &entries[index];
    let before_undoer = undoers[index - 1];
    let undoer = undoers[index];
    before.author() == entry.author()
        && is_same_file(before, entry)
        && before_undoer.is_some() == undoer.is_some()
}

/// Returns the index behind the run of entries that begins with that one, the longest.
pub(crate) fn end_of_run(entries: &[KeptEntry], undoers: &[Option<u64>], first: usize) -> usize
    requires undoers { AreUndoers entries.now undoers.now }
    requires there { first < length entries.now }
    ensures above { first < result }
    ensures inside { result ≤ length entries.now }
    ensures goes_on { (i : ℕ) (d : NumberedEntry) → first < i → i < result
        → goes_on (get_or (numbered entries.now) (i - 1) d) (get_or (numbered entries.now) i d)
        ≡ true }
    ensures longest { (d : NumberedEntry) → (result ≡ length entries.now)
        ⊎ (goes_on (get_or (numbered entries.now) (result - 1) d)
        (get_or (numbered entries.now) result d) ≡ false) }
{
    for index in first + 1..entries.len() {
        if !goes_on(entries, undoers, index) {
            return index;
        }
    }
    entries.len()
}

/// Returns how many bytes the entries write in all; `None` where they are 2^64 or more.
pub(crate) fn all_written(entries: &[KeptEntry]) -> Option<u64>
    ensures { MatchOption result
        (2 ^ 64 ≤ sum_by (λ e. written e.change) entries.now)
        (λ bytes. bytes ≡ sum_by (λ e. written e.change) entries.now) }
{
    let mut bytes: u64 = 0;
    for entry in entries {
        bytes = bytes.checked_add(entry.written())?;
    }
    Some(bytes)
}

/// Returns what the entries of a run did, from its first to its last, which write so many bytes.
pub(crate) fn deed_of_run(
    alloc: Global,
    first: &KeptEntry,
    last: &KeptEntry,
    bytes: u64,
) -> Result<Deed, AllocError>
    ensures { IfOk result (λ deed. deed ≡ deed_of_run first.now.change last.now.change bytes) }
{
    let change = first.change(alloc)?;
    deed_of_run_from(alloc, &change, first, last, bytes)
}

/// Returns what the entries of a run did, of which the first one's change was read.
fn deed_of_run_from(
    alloc: Global,
    change: &Change,
    first: &KeptEntry,
    last: &KeptEntry,
    bytes: u64,
) -> Result<Deed, AllocError>
    requires read { change.now ≡ without_bytes first.now.change }
    ensures { IfOk result (λ deed. deed ≡ deed_of_run first.now.change last.now.change bytes) }
{
    match change.operation() {
        Some(Op::Truncate(_)) if bytes == 0 => deed_of(alloc, last),
        Some(op) => deed_of_row(op, op, bytes),
        None => deed_of(alloc, first),
    }
}

/// Returns what became of an entry, of which it is told which one undid it.
pub(crate) fn fate_of(entry: &KeptEntry, undoer: Option<u64>) -> Fate
    ensures { result ≡ fate_of entry.now.change undoer }
{
    if !entry.is_operation() {
        return Fate::Lasting;
    }
    match undoer {
        Some(by) => Fate::Undone(by),
        None => Fate::Live,
    }
}
