// What operations did, and an entry alone.
ghost use Rattle.std.specs.Prelude.{◌≡◌, ◌||◌, ◌++◌, not, [], ◌∷◌, Some, IfOk, OnOk, MatchOption};
ghost use Rattle.std.specs.List.{filter, list_all};
ghost use Rattle.su_bytes.specs.Place.{file_eq};
ghost use Rattle.su_desk.specs.KeptEntry.{without_bytes};
ghost use Rattle.su_history.specs.Line.{deed_of, deed_of_batch, deed_of_op, deed_of_row, edited_by, edits, files_named, files_of, filled_by, is_no_take, is_row, last_op};

use crate::line::{Deed, Several};
use std::alloc::{AllocError, Global};
use su_bytes::{FileId, Kind};
use su_desk::KeptEntry;
use su_op::{Batch, Change, Op};

/// Returns the file that an operation makes, writes to or cuts.
pub(crate) fn filled_by(op: &Op) -> Option<FileId>
    ensures { result ≡ filled_by op.now }
{
    match op {
        Op::Create(create) if create.kind == Kind::File => Some(create.file),
        _ => edited_by(op),
    }
}

/// Returns the file that an operation writes to or cuts.
pub(crate) fn edited_by(op: &Op) -> Option<FileId>
    ensures { result ≡ edited_by op.now }
{
    match op {
        Op::Write(write) => Some(write.file),
        Op::Truncate(truncate) => Some(truncate.file),
        _ => None,
    }
}

/// Tells whether both are the same file.
pub(crate) fn is_same(file: FileId, other: FileId) -> bool
    ensures { result ≡ file_eq file other }
{
    file == other
}

/// Returns what an entry alone did.
pub(crate) fn deed_of(alloc: Global, entry: &KeptEntry) -> Result<Deed, AllocError>
    ensures { IfOk result (λ deed. deed ≡ deed_of entry.now.change) }
{
    let change = entry.change(alloc)?;
    deed_of_change(alloc, &change, entry)
}

/// Returns what an entry alone did, of which the change was read.
fn deed_of_change(alloc: Global, change: &Change, entry: &KeptEntry) -> Result<Deed, AllocError>
    requires read { change.now ≡ without_bytes entry.now.change }
    ensures { IfOk result (λ deed. deed ≡ deed_of entry.now.change) }
{
    match change {
        Change::Do(batch) => match batch.only() {
            Some(op) => deed_of_row(op, op, entry.written()),
            None => deed_of_batch(alloc, batch, entry.written()),
        },
        Change::Undo(number) => Ok(Deed::Undid(*number)),
        Change::Rekey(_) => Ok(Deed::NamedKey),
    }
}

/// Returns what an operation alone did.
fn deed_of_op(op: &Op) -> Result<Deed, AllocError>
    ensures { IfOk result (λ deed. deed ≡ deed_of_op op.now) }
{
    Ok(match op {
        Op::Create(create) => Deed::Made(create.clone()?),
        Op::Unlink(unlink) => Deed::Removed(unlink.clone()?),
        Op::Write(write) => Deed::Wrote {
            file: write.file,
            bytes: write.bytes.len() as u64,
        },
        Op::Truncate(truncate) => Deed::Cut(truncate.clone()?),
        Op::Take(take) => Deed::TookOver(take.clone()?),
        Op::Link(link) => Deed::Linked(link.clone()?),
        Op::Rename(rename) => Deed::Renamed(rename.clone()?),
        Op::Drop(dropped) => Deed::Dropped(dropped.clone()?),
    })
}

/// Returns what operations in a row on one file did, from the first to the last, which write so many
/// bytes in all. An operation of another kind did what it does alone.
pub(crate) fn deed_of_row(first: &Op, last: &Op, bytes: u64) -> Result<Deed, AllocError>
    ensures { IfOk result (λ deed. deed ≡ deed_of_row first.now (deed_of_op last.now) bytes) }
{
    match first {
        Op::Create(create) if bytes != 0 => Ok(Deed::Put {
            made: create.clone()?,
            bytes,
        }),
        Op::Write(write) => Ok(Deed::Wrote {
            file: write.file,
            bytes,
        }),
        Op::Truncate(truncate) if bytes != 0 => Ok(Deed::Wrote {
            file: truncate.file,
            bytes,
        }),
        Op::Truncate(_) => deed_of_op(last),
        _ => deed_of_op(first),
    }
}

/// Returns what the operations of a batch did, which write so many bytes in all.
fn deed_of_batch(alloc: Global, batch: &Batch, bytes: u64) -> Result<Deed, AllocError>
    ensures { IfOk result (λ deed. deed ≡ deed_of_batch batch.now bytes) }
{
    if let Some((first, behind)) = beside_takes(batch) {
        if is_row(first, behind) {
            return deed_of_row(first, last_op(first, behind), bytes);
        }
    }
    Ok(Deed::Together(Several {
        operations: batch.count() as u64,
        bytes,
        files: files_named(alloc, batch)?,
    }))
}

/// Returns the files and directories that the operations of a batch name, one operation after
/// another.
fn files_named(alloc: Global, batch: &Batch) -> Result<Vec<FileId>, AllocError>
    ensures { IfOk result (λ files. files.items ≡ files_named batch.now) }
{
    let (first, more) = batch.parts();
    let mut files = Vec::new(alloc);
    add_named(&mut files, first)?;
    for op in more {
        add_named(&mut files, op)?;
    }
    Ok(files)
}

/// Appends the files and directories that an operation names.
fn add_named(files: &mut Vec<FileId>, op: &Op) -> Result<(), AllocError>
    ensures { OnOk result (files.new.items ≡ files.old.items ++ files_of (deed_of_op op.now)) }
{
    match op {
        Op::Create(create) => files.extend_from_slice(&[create.dir, create.file]),
        Op::Unlink(unlink) => files.extend_from_slice(&[unlink.dir, unlink.file]),
        Op::Write(write) => files.extend_from_slice(&[write.file]),
        Op::Truncate(truncate) => files.extend_from_slice(&[truncate.file]),
        Op::Take(take) => files.extend_from_slice(&[take.file]),
        Op::Link(link) => files.extend_from_slice(&[link.dir, link.file]),
        Op::Rename(rename) => files.extend_from_slice(&[rename.from_, rename.to_, rename.file]),
        Op::Drop(_) => Ok(()),
    }
}

/// Returns the first operation of a batch that is no take, and all those behind it.
fn beside_takes(batch: &Batch) -> Option<(&Op, &[Op])>
    ensures { MatchOption result (filter is_no_take batch.now ≡ [])
        (λ parts.
        filter is_no_take batch.now ≡ parts.0.now ∷ filter is_no_take parts.1.now) }
{
    let (first, more) = batch.parts();
    if is_no_take(first) {
        return Some((first, more));
    }
    for (index, op) in more.iter().enumerate() {
        if is_no_take(op) {
            return Some((op, &more[index + 1..]));
        }
    }
    None
}

/// Tells whether the first operation makes, writes to or cuts a file, and each one behind it that is
/// no take writes to or cuts that one.
fn is_row(first: &Op, behind: &[Op]) -> bool
    ensures { result ≡ is_row first.now (filter is_no_take behind.now) }
{
    match filled_by(first) {
        Some(file) => are_edits(file, behind),
        None => false,
    }
}

/// Tells whether each of the operations that is no take writes to or cuts that file.
fn are_edits(file: FileId, ops: &[Op]) -> bool
    ensures { result ≡ list_all (λ op. edits (Some file) op || not (is_no_take op)) ops.now }
{
    ops.iter().all(|op| edits(file, op) || !is_no_take(op))
}

/// Returns the last of the operations behind the first one that is no take, else the first one.
fn last_op<'a>(first: &'a Op, behind: &'a [Op]) -> &'a Op
    ensures { result.now ≡ last_op first.now (filter is_no_take behind.now) }
{
    for index in (0..behind.len()).rev() {
        let op = &behind[index];
        if is_no_take(op) {
            return op;
        }
    }
    first
}

/// Tells whether an operation writes to or cuts that file.
fn edits(file: FileId, op: &Op) -> bool
    ensures { result ≡ edits (Some file) op.now }
{
    match edited_by(op) {
        Some(edited) => is_same(file, edited),
        None => false,
    }
}

/// Tells whether an operation is no take.
fn is_no_take(op: &Op) -> bool
    ensures { result ≡ is_no_take op.now }
{
    !matches!(op, Op::Take(_))
}
