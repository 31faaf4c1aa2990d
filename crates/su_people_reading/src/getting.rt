// Files and folders of the store are written to local ones.
ghost use Rattle.std.specs.Prelude.{IfOk};
ghost use Rattle.su_client_work.specs.Member.{IsClear};
ghost use Rattle.su_people_reading.specs.Getting.{HandsOn, IsGot};

use crate::targets::{LocalFile, Target};
use std::alloc::{AllocError, Global};
use std::str;
use su_bytes::{FileId, Kind, Refusal};
use su_local::{LocalKind, joined, kind_of, make_folder};
use su_people_line::GetArgs;
use su_people_session::{
    Amount, Answer, Found, Keyless, Progress, Session, Trouble, counted, is_of_source, is_of_state,
    last_name, named, walked,
};
use su_person::Fault;

/// What became of a get.
#[derive(Debug, Drop)]
struct Tally {
    /// What was written.
    written: Amount,
    /// How many files were there already, as they are.
    same: u64,
}

/// Writes the file or the folder at a path to a local one: what is the same there is left, and
/// what differs too, unless it is to be written over. What can't be got is told, and the others go
/// on. Refuses a path that leads to nothing, and with `WrongKind` a folder where folders aren't
/// asked for; later what would stop the others too, as a server that can't be reached; `NoMemory`.
pub fn get_all<T>(
    session: &mut Session<'_, T, Keyless>,
    args: &GetArgs,
    path: &[u8],
) -> Result<Answer, Trouble> {
    let alloc = session.helper.rt.alloc();
    let all = walked(alloc, &mut session.member, path)?;
    refuse_folder(alloc, path, &all, args.recursive)?;
    let local = target_of(session.helper.rt, args.local.as_str(), path, &all)?;
    let mut tally = Tally {
        written: Amount::none(),
        same: 0,
    };
    let mut is_partly = false;
    session.helper.progress = Progress::new(session.helper.rt, "get", amount_of(&all));
    for found in &all {
        if let Err(trouble) = get_one(session, local.as_str(), args.over, path, found, &mut tally) {
            if is_of_source(&trouble) {
                return Err(trouble);
            }
            session.helper.tell(&trouble);
            is_partly = true;
        }
    }
    session.helper.progress.clear();
    let text = summary(alloc, path, &tally)?;
    Ok(Answer { text, is_partly })
}

/// Returns the local path to which what is at a path is written: below the one that is given, under
/// its own name, where that has `/` behind, or is a folder and a file is written; else that one.
fn target_of(rt: &HostRuntime, local: &str, path: &[u8], all: &[Found]) -> Result<String, Trouble> {
    let alloc = rt.alloc();
    let is_file = all
        .first()
        .is_some_and(|found| found.stat.kind != Kind::Dir);
    let is_folder = matches!(kind_of(rt, local), Ok(Some(LocalKind::Folder)));
    let is_into = local.ends_with('/') || is_file && is_folder;
    match str::from_utf8(last_name(path)) {
        Ok(name) if is_into && !name.is_empty() => Ok(joined(alloc, local, name)?),
        _ => Ok(String::from_str(alloc, local)?),
    }
}

/// Returns how much there is to get.
fn amount_of(all: &[Found]) -> Amount {
    let mut amount = Amount::none();
    for found in all {
        if found.stat.kind != Kind::Dir {
            amount.add(u64::from(found.stat.size));
        }
    }
    amount
}

/// Refuses a folder where folders aren't asked for.
fn refuse_folder(
    alloc: Global,
    path: &[u8],
    all: &[Found],
    is_recursive: bool,
) -> Result<(), Trouble> {
    match all.first() {
        Some(found) if found.stat.kind == Kind::Dir && !is_recursive => {
            let refusal = Refusal::WrongKind(found.file);
            Err(Trouble::at(path, alloc, Fault::from(refusal)))
        }
        _ => Ok(()),
    }
}

/// Writes a file, or makes a folder, and notes that the person has seen the file.
fn get_one<T>(
    session: &mut Session<'_, T, Keyless>,
    local: &str,
    over: bool,
    path: &[u8],
    found: &Found,
    tally: &mut Tally,
) -> Result<(), Trouble> {
    let alloc = session.helper.rt.alloc();
    let rt = session.helper.rt;
    let local = local_of(alloc, local, path, found)?;
    let local = local.as_str();
    if found.stat.kind == Kind::Dir {
        return match make_folder(rt, local) {
            Ok(()) => Ok(()),
            Err(reason) => Err(Trouble::local(local, alloc, reason)),
        };
    }
    let mut target = LocalFile::new(rt, local, over);
    let got = got_into(session, found.path.as_slice(), found.file, &mut target)?;
    if got.is_written {
        tally.written.add(got.size);
    } else {
        tally.same = tally.same.saturating_add(1);
    }
    session.helper.progress.file_done(got.size);
    session.leave_tree(got.size);
    let (head, _) = session.member.view().head();
    session
        .helper
        .folder
        .note_seen(head, found.path.as_slice())?;
    Ok(())
}

/// A file that was got.
#[derive(Clone, Copy, Debug, PartialEq, Eq)]
pub struct Got {
    /// How many bytes it has.
    pub size: u64,
    /// Whether the target had other bytes, or none, and was handed these.
    pub is_written: bool,
}

/// Hands the bytes of the file at a path to a target, unless that has them already. Refuses what
/// isn't a file; what the target refuses; or as a load is refused; `NoMemory`.
pub fn got_into<T, G: Target>(
    session: &mut Session<'_, T, Keyless>,
    path: &[u8],
    file: FileId,
    target: &mut G,
) -> Result<Got, Trouble>
    ensures hands { IsClear session.new.member
        → HandsOn session.old.member.holding file (G.handed target.old) (G.handed target.new) }
    ensures got { IsClear session.new.member → IfOk result (λ got.
        IsGot session.old.member.holding file got
        (record { handed = G.handed target.old; found = G.found target.old })
        (record { handed = G.handed target.new; found = G.found target.new })) }
{
    let alloc = session.helper.rt.alloc();
    let bytes = named(alloc, path, session.member.contents_held(file))?;
    let has = target.has(alloc, &bytes)?;
    if !has {
        target.hand(alloc, &bytes)?;
    }
    Ok(Got {
        size: bytes.len() as u64,
        is_written: !has,
    })
}

/// Returns the local path of what was found behind a path of the store.
fn local_of(alloc: Global, local: &str, path: &[u8], found: &Found) -> Result<String, Trouble> {
    let behind = found.path.get(path.len()..).unwrap_or(&[]);
    let Ok(behind) = str::from_utf8(behind) else {
        let shown = su_spelling::shown(alloc, found.path.as_slice())?;
        return Err(Trouble::told(format!(in alloc;
            "{shown}: its name is no text, so it is left out"
        )));
    };
    if is_of_state(behind.as_bytes()) {
        let shown = su_spelling::shown(alloc, found.path.as_slice())?;
        return Err(Trouble::told(format!(in alloc;
            "{shown}: it has the name of a state folder, so it is left out"
        )));
    }
    let behind = behind.trim_start_matches('/');
    if behind.is_empty() {
        return Ok(String::from_str(alloc, local)?);
    }
    Ok(joined(alloc, local, behind)?)
}

/// Returns the line that tells what was got.
fn summary(alloc: Global, path: &[u8], tally: &Tally) -> Result<String, AllocError> {
    let path = su_spelling::shown(alloc, path)?;
    let Amount { files, bytes } = tally.written;
    let files = counted(alloc, files, "file")?;
    let bytes = counted(alloc, bytes, "byte")?;
    let same = counted(alloc, tally.same, "file")?;
    format!(in alloc; "got {path}: {files}, {bytes}; {same} there already\n")
}
