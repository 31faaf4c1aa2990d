// Which entry of a history changed the bytes of a file last.
ghost use Rattle.std.specs.Prelude.{◌≡◌, IfOk, IfSome, map, option_copied};
ghost use Rattle.std.specs.List.{list_any};
ghost use Rattle.su_bytes.specs.Place.{file_eq};
ghost use Rattle.su_bytes.specs.declared.file_ids.FileId.{FileId};
ghost use Rattle.su_person.specs.LastChange.{changes_bytes, does_change, does_change_at, last_change, touches};

use crate::found_changes::FoundChanges;
use std::alloc::{AllocError, Global};
use su_bytes::{FileId, User};
use su_desk::{Filling, KeptEntry, entry_at};
use su_op::{Batch, Change, Op};

/// Returns the number of the last entry of a history that changed the bytes of a file, and its author,
/// if one did: it made the file, wrote to it or cut it, or undid an entry that had. The newest entries
/// are read, down to that one. Fails only for want of memory.
pub fn last_change(
    alloc: Global,
    entries: &[KeptEntry],
    file: &FileId,
) -> Result<Option<(u64, User)>, AllocError>
    ensures { IfOk result (λ last. last ≡ last_change entries.now file.now) }
{
    for index in (0..entries.len()).rev() {
        let entry = &entries[index];
        let is_touched = touches(alloc, entries, entry, file)?;
        if is_touched {
            return Ok(Some((index as u64 + 1, entry.author())));
        }
    }
    Ok(None)
}

/// Returns the same of each of several files, in their order: in one pass for all of them, which reads
/// an entry once, and once more where it is undone. Fails only for want of memory.
pub fn last_changes(
    alloc: Global,
    entries: &[KeptEntry],
    files: &[FileId],
) -> Result<Vec<Option<(u64, User)>>, AllocError>
    ensures { IfOk result (λ lasts. lasts.items ≡ map (last_change entries.now) files.now) }
{
    let mut found = FoundChanges::none_of(alloc, files)?;
    for index in (0..entries.len()).rev() {
        let entry = &entries[index];
        if let Some(changing) = changed_by(entries, entry) {
            found.note_entry(alloc, changing, index as u64 + 1, entry.author())?;
        }
    }
    found.in_order(alloc, files)
}

/// Tells whether an entry of a history changes the bytes of a file, or undoes one that did. Fails only
/// for want of memory.
fn touches(
    alloc: Global,
    entries: &[KeptEntry],
    entry: &KeptEntry,
    file: &FileId,
) -> Result<bool, AllocError>
    ensures { IfOk result (λ t. t ≡ touches entries.now file.now entry.now.change) }
{
    match changed_by(entries, entry) {
        Some(changing) => entry_changes(alloc, changing, file),
        None => Ok(false),
    }
}

/// Returns the entry that tells which bytes an entry of a history changes: of an undo the undone one,
/// if there is one, else itself.
fn changed_by<'a>(entries: &'a [KeptEntry], entry: &'a KeptEntry) -> Option<&'a KeptEntry>
    ensures { (f : FileId) → touches entries.now f entry.now.change
        ≡ does_change_at f (option_copied result) }
{
    match entry.undone() {
        Some(number) => entry_at(entries, number),
        None => Some(entry),
    }
}

/// Returns the file that an entry makes, writes to or cuts, where it is one operation: no other file's
/// bytes does it change. `None` tells nothing.
pub(crate) fn filled(entry: &KeptEntry) -> Option<FileId>
    ensures { IfSome result (λ g. (f : FileId) → does_change f entry.now.change ≡ file_eq f g) }
{
    match entry.filling() {
        Filling::Makes(file) => Some(file),
        Filling::Edits(file) => Some(file),
        Filling::Neither => None,
    }
}

/// Tells whether an entry changes the bytes of a file. Fails only for want of memory.
fn entry_changes(alloc: Global, entry: &KeptEntry, file: &FileId) -> Result<bool, AllocError>
    ensures { IfOk result (λ does. does ≡ does_change file.now entry.now.change) }
{
    if let Some(other) = filled(entry) {
        return Ok(is_same(file, &other));
    }
    let change = entry.change(alloc)?;
    Ok(does_change(&change, file))
}

/// Tells whether a change has an operation that changes the bytes of a file.
fn does_change(change: &Change, file: &FileId) -> bool
    ensures { result ≡ does_change file.now change.now }
{
    match change {
        Change::Do(batch) => batch_changes(batch, file),
        _ => false,
    }
}

/// Tells whether one of the operations of a batch changes the bytes of a file.
fn batch_changes(batch: &Batch, file: &FileId) -> bool
    ensures { result ≡ list_any (changes_bytes file.now) batch.now }
{
    let (first, more) = batch.parts();
    changes_bytes(first, file) || some_changes(more, file)
}

/// Tells whether one of these operations changes the bytes of a file.
fn some_changes(operations: &[Op], file: &FileId) -> bool
    ensures { result ≡ list_any (changes_bytes file.now) operations.now }
{
    operations.iter().any(|op| changes_bytes(op, file))
}

/// Tells whether an operation makes a file, writes to it or cuts it.
fn changes_bytes(op: &Op, file: &FileId) -> bool
    ensures { result ≡ changes_bytes file.now op.now }
{
    match op {
        Op::Create(create) => is_same(file, &create.file),
        Op::Write(write) => is_same(file, &write.file),
        Op::Truncate(truncate) => is_same(file, &truncate.file),
        _ => false,
    }
}

/// Tells whether both are the same file.
fn is_same(file: &FileId, other: &FileId) -> bool
    ensures { result ≡ file_eq file.now other.now }
{
    file == other
}
