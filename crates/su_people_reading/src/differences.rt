// How a commit changed the bytes of a file.
use crate::histories::names_of;
use std::alloc::{AllocError, Global};
use std::str;
use su_bytes::{FileId, Refusal, Roster};
use su_desk::Entry;
use su_files::read_at;
use su_history_text::FileNames;
use su_no_blocks::NoBlocks;
use su_op::{Change, Op, Write};
use su_people_session::{Keyless, Session, Trouble, name_of};
use su_stored_desk::TrialDesk;
use su_why::entries_of;

/// Returns the text of `diff`: for each write of a commit the bytes that stood where it wrote, and
/// those that it wrote. The history before it is gone through once more for that. `NoOperation`
/// where there is no commit of that number; refuses with a sentence one that wrote no bytes;
/// `NoMemory`.
pub fn diff<T>(session: &mut Session<'_, T, Keyless>, number: u64) -> Result<String, Trouble> {
    let alloc = session.helper.rt.alloc();
    let names = names_of(alloc, &mut session.member)?;
    let team = session.helper.folder.team();
    let entries = entries_of(alloc, session.member.view())?;
    let place = usize::try_from(number)
        .unwrap_or(usize::MAX)
        .saturating_sub(1);
    let Some(entry) = entries.get(place) else {
        return Err(Trouble::from(Refusal::NoOperation(number)));
    };
    let batch = match &entry.change {
        Change::Do(batch) if 0 < batch.written() => batch,
        _ => return Err(Trouble::told(format!(in alloc;
            "commit {number} wrote no bytes: `sundr show {number}` tells what it did"
        ))),
    };
    let author = name_of(alloc, team, entry.author)?;
    let mut desk = desk_after(alloc, team.roster(alloc)?, &entries[..place])?;
    let mut text = String::new(alloc);
    let (first, more) = batch.parts();
    push_operation(&mut text, alloc, &mut desk, entry, first, &names, &author)?;
    for operation in more {
        push_operation(
            &mut text, alloc, &mut desk, entry, operation, &names, &author,
        )?;
    }
    Ok(text)
}

/// A desk all of whose tree is in memory.
type WholeDesk = TrialDesk<NoBlocks>;

/// Makes the desk of a history.
fn desk_after(alloc: Global, roster: Roster, entries: &[Entry]) -> Result<WholeDesk, Refusal> {
    let mut desk = TrialDesk::new(alloc, roster, NoBlocks::new())?;
    for entry in entries {
        let change = entry.change.clone()?;
        desk.apply_as(entry.format, entry.author, change)?;
    }
    Ok(desk)
}

/// Appends how an operation of an entry changes the bytes of a file, where it writes some, and
/// makes it on the desk of what is before it.
fn push_operation(
    text: &mut String,
    alloc: Global,
    desk: &mut WholeDesk,
    entry: &Entry,
    operation: &Op,
    names: &FileNames,
    author: &str,
) -> Result<(), Refusal> {
    if let Op::Write(write) = operation {
        push_write(text, alloc, desk, write, names, author)?;
    }
    let change = Change::of(alloc, operation.clone()?);
    desk.apply_as(entry.format, entry.author, change)?;
    Ok(())
}

/// Appends the bytes that stand where a write writes, and those that it writes.
fn push_write(
    text: &mut String,
    alloc: Global,
    desk: &mut WholeDesk,
    write: &Write,
    names: &FileNames,
    author: &str,
) -> Result<(), Refusal> {
    let off = write.off;
    let length = write.bytes.len() as u64;
    let end = u64::from(off) + length;
    let old = read_at(desk, write.file, u64::from(off), length)?;
    let path = shown_file(alloc, names, &write.file)?;
    let line = format!(in alloc; "{path}  bytes {off} to {end}, by {author}\n")?;
    text.push_str(line.as_str())?;
    push_lines(text, alloc, '-', &old)?;
    push_lines(text, alloc, '+', &write.bytes)?;
    Ok(())
}

/// Returns the path that leads to a file, or its number where none does.
fn shown_file(alloc: Global, names: &FileNames, file: &FileId) -> Result<String, AllocError> {
    match names.path_of(*file) {
        Some(path) => su_spelling::shown(alloc, path),
        None => format!(in alloc; "{file}"),
    }
}

/// Appends each line of a text with a sign before it, or says that the bytes are no text.
fn push_lines(
    text: &mut String,
    alloc: Global,
    sign: char,
    bytes: &[u8],
) -> Result<(), AllocError> {
    let Ok(lines) = str::from_utf8(bytes) else {
        let count = bytes.len();
        let line = format!(in alloc; "{sign}({count} bytes that are no text)\n")?;
        return text.push_str(line.as_str());
    };
    for line in lines.lines() {
        let shown = su_spelling::shown(alloc, line.as_bytes())?;
        text.push(sign)?;
        text.push_str(shown.as_str())?;
        text.push('\n')?;
    }
    Ok(())
}
