// Folders and files are put to the store together, in as few commits as have room for them.
use crate::groups::{Contents, Placed};
use std::alloc::AllocError;
use std::net::{Net, TcpListener, TcpStream};
use std::thread::Threads;
use su_bytes::{Kind, Refusal};
use su_kept_key::KeptKey;
use su_people_session::{Session, Trouble, is_of_load, is_of_path};
use su_person::{Fault, NewContents, put_together};
use su_plan::Command;

/// How often what is lacking is put together again, as others commit something in between.
const MOST_ROUNDS: u32 = 8;

/// Notes of folders and files whether they are lacking. Refused only as a load is, and with
/// `NoMemory`.
pub(crate) fn note_lacking<'a, T>(
    session: &mut Session<'a, T, KeptKey<'a>>,
    all: &mut [Placed],
) -> Result<(), Refusal> {
    for placed in all.iter_mut() {
        placed.was_lacking = !is_there(session, placed)?;
    }
    Ok(())
}

/// Puts folders and files together, each folder before what it has, and appends the numbers of the
/// commits. Where one of them is refused, each half is put by itself: so what is refused is left,
/// and isn't told. Where others commit something again and again, some may be left too. Refuses
/// what would stop each of them, as a server that can't be reached. What was committed before
/// stays.
pub(crate) fn put_group<'a, T>(
    session: &mut Session<'a, T, KeptKey<'a>>,
    all: &[Placed],
    over: bool,
    numbers: &mut Vec<u64>,
) -> Result<(), Trouble>
where
    T: Net<Listener = TcpListener, Stream = TcpStream> + Threads + Sync,
{
    let Err(fault) = put_rounds(session, all, over, numbers) else {
        return Ok(());
    };
    if !is_of_one(&fault) {
        return Err(Trouble::from(fault));
    }
    if 1 < all.len() {
        let (front, back) = all.split_at(all.len() / 2);
        put_group(session, front, over, numbers)?;
        put_group(session, back, over, numbers)?;
    }
    Ok(())
}

/// Tells whether something is wrong with one of the paths, and not with all.
fn is_of_one(fault: &Fault) -> bool {
    match fault {
        Fault::Refused(refusal) => is_of_path(refusal),
        Fault::Changed { .. } => true,
        _ => false,
    }
}

/// Puts folders and files together until none is lacking, unless others come in between too often;
/// and once where nobody does: two paths of one file can't both have their contents.
fn put_rounds<'a, T>(
    session: &mut Session<'a, T, KeptKey<'a>>,
    all: &[Placed],
    over: bool,
    numbers: &mut Vec<u64>,
) -> Result<(), Fault>
where
    T: Net<Listener = TcpListener, Stream = TcpStream> + Threads + Sync,
{
    for _ in 0..MOST_ROUNDS {
        if are_there(session, all)? || put_round(session, all, over, numbers)? {
            break;
        }
    }
    Ok(())
}

/// Puts what is lacking of folders and files together, until others come in between. Tells whether
/// something was committed for that, and nothing else was.
fn put_round<'a, T>(
    session: &mut Session<'a, T, KeptKey<'a>>,
    all: &[Placed],
    over: bool,
    numbers: &mut Vec<u64>,
) -> Result<bool, Fault>
where
    T: Net<Listener = TcpListener, Stream = TcpStream> + Threads + Sync,
{
    let alloc = session.helper.rt.alloc();
    let (before, _) = session.member.view().head();
    let first = numbers.len();
    let folders = folder_commands(session, all)?;
    let files = new_contents(session, all, over)?;
    put_together(
        &mut session.helper,
        alloc,
        &mut session.member,
        folders,
        files.as_slice(),
        numbers,
    )?;
    let (after, _) = session.member.view().head();
    let made = numbers.len().saturating_sub(first) as u64;
    Ok(0 < made && after.saturating_sub(before) == made)
}

/// Returns the commands that make those of the folders that are lacking.
fn folder_commands<'a, T>(
    session: &mut Session<'a, T, KeptKey<'a>>,
    all: &[Placed],
) -> Result<Vec<Command>, Refusal> {
    let alloc = session.helper.rt.alloc();
    let mut commands = Vec::new(alloc);
    for placed in all {
        if matches!(&placed.contents, Contents::Folder) && !is_there(session, placed)? {
            let path = Vec::from_slice(alloc, placed.path.as_slice())?;
            commands.push(Command::Mkdir { path })?;
        }
    }
    Ok(commands)
}

/// Returns the new contents of the files, with what the user knows of the old ones.
fn new_contents<'a, 'p, T>(
    session: &Session<'a, T, KeptKey<'a>>,
    all: &'p [Placed],
    over: bool,
) -> Result<Vec<NewContents<'p>>, AllocError> {
    let mut files = Vec::new(session.helper.rt.alloc());
    for placed in all {
        if let Contents::File { bytes } = &placed.contents {
            let path = placed.path.as_slice();
            files.push(NewContents {
                path,
                bytes: bytes.as_slice(),
                seen: session.helper.folder.seen_at(path),
                over,
            })?;
        }
    }
    Ok(files)
}

/// Tells whether all of the folders and files are there.
fn are_there<'a, T>(
    session: &mut Session<'a, T, KeptKey<'a>>,
    all: &[Placed],
) -> Result<bool, Refusal> {
    for placed in all {
        if !is_there(session, placed)? {
            return Ok(false);
        }
    }
    Ok(true)
}

/// Tells whether a folder is there, or a file with its contents, in the tree that is held. Refused
/// only as a load is, and with `NoMemory`.
fn is_there<'a, T>(
    session: &mut Session<'a, T, KeptKey<'a>>,
    placed: &Placed,
) -> Result<bool, Refusal> {
    match has_there(session, placed) {
        Ok(is_there) => Ok(is_there),
        Err(refusal) if is_of_load(&refusal) => Err(refusal),
        Err(_) => Ok(false),
    }
}

/// Tells whether a folder is there, or a file with its contents. Refuses a path that leads to
/// nothing.
fn has_there<'a, T>(
    session: &mut Session<'a, T, KeptKey<'a>>,
    placed: &Placed,
) -> Result<bool, Refusal> {
    let file = session.member.find_held(placed.path.as_slice())?;
    match &placed.contents {
        Contents::Folder => Ok(session.member.stat_held(file)?.kind == Kind::Dir),
        Contents::File { bytes } => {
            let held = session.member.contents_held(file)?;
            Ok(held.as_slice() == bytes.as_slice())
        }
    }
}
