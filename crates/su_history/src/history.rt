// The lines of a history.
ghost use Rattle.std.specs.Prelude.{◌≡◌, ◌∷◌, ◌<◌, ◌≤◌, List, length, slice_range, IfOk};
ghost use Rattle.su_history.specs.Line.{AreUndoers, NumberedEntry, line_of, lines, numbered};

use crate::line::Line;
use crate::runs::{all_written, deed_of_run, end_of_run, fate_of};
use crate::undoers::undoers;
use std::alloc::{AllocError, Global};
use su_desk::KeptEntry;

/// Returns the lines of a history, the oldest first. Entries in a row by one author, each of one
/// operation, are one line where the first makes a file, writes to it or cuts it, each other one
/// writes to it or cuts it, and all are live or all undone; every other entry is a line alone. Fails
/// only for want of memory, also where the writes of a line have 2^64 bytes or more.
pub fn lines(alloc: Global, entries: &[KeptEntry]) -> Result<Vec<Line>, AllocError>
    ensures { IfOk result (λ lines_. lines_.items ≡ lines entries.now) }
{
    let undoers = undoers(alloc, entries)?;
    let mut lines = Vec::new(alloc);
    let mut first = 0;
    while first < entries.len() {
        let end = end_of_run(entries, undoers.as_slice(), first);
        lines.push(line(alloc, entries, undoers.as_slice(), first, end)?)?;
        first = end;
    }
    Ok(lines)
}

/// Returns the line of the run from the entry of one index up to that of another, which isn't in it.
fn line(
    alloc: Global,
    entries: &[KeptEntry],
    undoers: &[Option<u64>],
    first: usize,
    end: usize,
) -> Result<Line, AllocError>
    requires undoers { AreUndoers entries.now undoers.now }
    requires some { first < end }
    requires there { end ≤ length entries.now }
    ensures { IfOk result (λ line. (e : NumberedEntry) (es : List NumberedEntry)
        → slice_range (numbered entries.now) first end ≡ e ∷ es
        → line ≡ line_of (record { first = e; others = es })) }
{
    let Some(bytes) = all_written(&entries[first..end]) else {
        return Err(AllocError);
    };
    let opening = &entries[first];
    let closing = &entries[end - 1];
    let undoer = undoers[end - 1];
    Ok(Line {
        first: first as u64 + 1,
        last: end as u64,
        author: opening.author(),
        deed: deed_of_run(alloc, opening, closing, bytes)?,
        fate: fate_of(closing, undoer),
    })
}
