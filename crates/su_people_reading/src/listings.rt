// What a folder has, and the bytes of a file.
ghost use Rattle.std.specs.Prelude.{◌≡◌, IfOk, OnOk, map};
ghost use Rattle.su_client_work.specs.Member.{IsClear};
ghost use Rattle.su_people_reading.specs.Reading.{Writes};
ghost use Rattle.su_person.specs.LastChange.{last_change};

use std::alloc::{AllocError, Global};
use std::io::Write;
use su_bytes::{Kind, User};
use su_desk::KeptEntry;
use su_people_session::{
    Found, Keyless, Session, Trouble, found_at, last_name, name_of, named, names_in,
};
use su_person::last_changes;
use su_team::Team;

/// Returns the text of `ls`: a line for each name of a folder, or one for a file. Refuses a path
/// that leads to nothing; `NoMemory`.
pub fn list<T>(
    session: &mut Session<'_, T, Keyless>,
    path: &[u8],
    long: bool,
    json: bool,
) -> Result<String, Trouble> {
    let alloc = session.helper.rt.alloc();
    let found = named(alloc, path, found_at(alloc, &mut session.member, path))?;
    let mut all = Vec::new(alloc);
    if found.stat.kind == Kind::Dir {
        all = named(alloc, path, names_in(alloc, &mut session.member, &found))?;
    } else {
        all.push(found)?;
    }
    let team = session.helper.folder.team();
    let entries = session.member.view().history();
    if json {
        let lasts = lasts_of(alloc, entries, &all)?;
        return Ok(json_of(alloc, team, &all, &lasts)?);
    }
    if long {
        let lasts = lasts_of(alloc, entries, &all)?;
        return Ok(long_lines(alloc, team, &all, &lasts)?);
    }
    Ok(short_lines(alloc, &all)?)
}

/// Returns for each the number and the author of the last change of its bytes, if there was one.
fn lasts_of(
    alloc: Global,
    entries: &[KeptEntry],
    all: &[Found],
) -> Result<Vec<Option<(u64, User)>>, AllocError>
    ensures { IfOk result (λ lasts. lasts.items
        ≡ map (λ found. last_change entries.now found.file) all.now) }
{
    let mut files = Vec::new(alloc);
    for found in all {
        files.push(found.file)?;
    }
    last_changes(alloc, entries, &files)
}

/// Returns a line for each, with its last change.
fn long_lines(
    alloc: Global,
    team: &Team,
    all: &[Found],
    lasts: &[Option<(u64, User)>],
) -> Result<String, AllocError> {
    let mut text = String::new(alloc);
    for (found, last) in all.iter().zip(lasts) {
        let line = long_line(alloc, team, found, *last)?;
        text.push_str(line.as_str())?;
        text.push('\n')?;
    }
    Ok(text)
}

/// Returns a line for each, with its name alone.
fn short_lines(alloc: Global, all: &[Found]) -> Result<String, AllocError> {
    let mut text = String::new(alloc);
    for found in all {
        let line = short_line(alloc, found)?;
        text.push_str(line.as_str())?;
        text.push('\n')?;
    }
    Ok(text)
}

/// Returns the last name of a path as it is shown, a folder's with `/` behind.
fn short_line(alloc: Global, found: &Found) -> Result<String, AllocError> {
    let mut name = su_spelling::shown(alloc, last_name(found.path.as_slice()))?;
    if found.stat.kind == Kind::Dir {
        name.push('/')?;
    }
    Ok(name)
}

/// Returns the name, the size, the holder, and the last change of the bytes with its author.
fn long_line(
    alloc: Global,
    team: &Team,
    found: &Found,
    last: Option<(u64, User)>,
) -> Result<String, AllocError> {
    let name = short_line(alloc, found)?;
    let holder = name_of(alloc, team, found.stat.holder)?;
    let size = size_text(alloc, found)?;
    match last {
        Some((number, author)) => {
            let author = name_of(alloc, team, author)?;
            format!(in alloc; "{name:<24} {size:>10}  commit {number} {author}")
        }
        None => format!(in alloc; "{name:<24} {size:>10}  held by {holder}"),
    }
}

/// Returns the size of a file, and `-` of a folder.
fn size_text(alloc: Global, found: &Found) -> Result<String, AllocError> {
    if found.stat.kind == Kind::Dir {
        return String::from_str(alloc, "-");
    }
    let size = found.stat.size;
    format!(in alloc; "{size}")
}

/// Returns them as a JSON array of objects, each with its last change.
fn json_of(
    alloc: Global,
    team: &Team,
    all: &[Found],
    lasts: &[Option<(u64, User)>],
) -> Result<String, AllocError> {
    let mut text = String::from_str(alloc, "[")?;
    for (place, (found, last)) in all.iter().zip(lasts).enumerate() {
        if place != 0 {
            text.push(',')?;
        }
        let object = json_object(alloc, team, found, *last)?;
        text.push_str(object.as_str())?;
    }
    text.push_str("]\n")?;
    Ok(text)
}

/// Returns one of them as a JSON object.
fn json_object(
    alloc: Global,
    team: &Team,
    found: &Found,
    last: Option<(u64, User)>,
) -> Result<String, AllocError> {
    let shown = su_spelling::shown(alloc, found.path.as_slice())?;
    let path = escaped(alloc, shown.as_str())?;
    let size = found.stat.size;
    let holder = escaped(alloc, name_of(alloc, team, found.stat.holder)?.as_str())?;
    let kind = if found.stat.kind == Kind::Dir {
        "folder"
    } else {
        "file"
    };
    let last = last.map_or(0, |(number, _)| number);
    format!(in alloc;
        "{{\"path\":\"{path}\",\"kind\":\"{kind}\",\"size\":{size},\
\"holder\":\"{holder}\",\"last\":{last}}}"
    )
}

/// Returns a text without control characters as it stands between quotes in JSON (RFC 8259,
/// section 7).
pub(crate) fn escaped(alloc: Global, text: &str) -> Result<String, AllocError> {
    let mut escaped = String::new(alloc);
    for character in text.chars() {
        if character == '"' || character == '\\' {
            escaped.push('\\')?;
        }
        escaped.push(character)?;
    }
    Ok(escaped)
}

/// Writes the bytes of the file at a path. Refuses a path that leads to nothing or to a folder; or as a
/// load is refused; `Unwritten` where they can't be written; `NoMemory`.
pub fn cat<T, O: Write>(
    session: &mut Session<'_, T, Keyless>,
    path: &[u8],
    output: &mut O,
) -> Result<(), Trouble>
    ensures { IsClear session.new.member → OnOk result (Writes session.old.member.holding path.now
        (O.contents output.old) (O.contents output.new)) }
{
    let alloc = session.helper.rt.alloc();
    let file = named(alloc, path, session.member.find_held(path))?;
    let bytes = named(alloc, path, session.member.contents_held(file))?;
    match output.write_all(bytes.as_slice()) {
        Ok(()) => Ok(()),
        Err(reason) => Err(Trouble::Unwritten(reason)),
    }
}
