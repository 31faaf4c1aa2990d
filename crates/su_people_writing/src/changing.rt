// Names are made, given and taken away.
use std::alloc::{AllocError, Global};
use std::net::{Net, TcpListener, TcpStream};
use std::slice;
use std::thread::Threads;
use su_bytes::{Kind, Refusal};
use su_kept_key::KeptKey;
use su_people_session::{
    Found, Session, Trouble, found_if_any, is_of_load, last_name, named, path_in, walked,
};
use su_person::{Fault, carry_out};
use su_plan::Command;
use su_view::ViewRefusal;

/// Makes folders, in as few commits as have room for them; with those above that are lacking, where
/// these are to be made too, and those that are there are left then. Appends the numbers of the
/// commits. `WrongKind` where one of these paths leads to a file; the refusals of
/// `su_person::carry_out`; what was committed before stays.
pub fn make_folders<'a, T>(
    session: &mut Session<'a, T, KeptKey<'a>>,
    paths: &[Vec<u8>],
    parents: bool,
    numbers: &mut Vec<u64>,
) -> Result<(), Trouble>
where
    T: Net<Listener = TcpListener, Stream = TcpStream> + Threads + Sync,
{
    let alloc = session.helper.rt.alloc();
    let mut wanted = Vec::new(alloc);
    for path in paths {
        if parents {
            add_lacking(session, path.as_slice(), &mut wanted)?;
        } else {
            wanted.push(Vec::from_slice(alloc, path.as_slice())?)?;
        }
    }
    if parents {
        // (a folder comes before those in it)
        wanted.sort_unstable();
        wanted.dedup();
    }
    let commands = folder_commands(alloc, wanted)?;
    do_commands(session, &commands, only(paths), numbers)
}

/// Adds the path of a folder, and those of the folders above it, as far as they are lacking.
fn add_lacking<'a, T>(
    session: &mut Session<'a, T, KeptKey<'a>>,
    path: &[u8],
    lacking: &mut Vec<Vec<u8>>,
) -> Result<(), Trouble> {
    let alloc = session.helper.rt.alloc();
    for end in 1..path.len() + 1 {
        let is_end = end == path.len() || path[end] == b'/';
        if is_end && lacks_folder(session, &path[..end])? {
            lacking.push(Vec::from_slice(alloc, &path[..end])?)?;
        }
    }
    Ok(())
}

/// Returns the commands that make folders at these paths, in their order.
fn folder_commands(alloc: Global, paths: Vec<Vec<u8>>) -> Result<Vec<Command>, AllocError> {
    let mut commands = Vec::new(alloc);
    for path in paths {
        commands.push(Command::Mkdir { path })?;
    }
    Ok(commands)
}

/// Returns the path, where it is the only one.
fn only(paths: &[Vec<u8>]) -> Option<&[u8]> {
    match paths {
        [path] => Some(path.as_slice()),
        _ => None,
    }
}

/// Makes a folder, unless one is there. `WrongKind` where a file is.
pub(crate) fn make_lacking<'a, T>(
    session: &mut Session<'a, T, KeptKey<'a>>,
    path: &[u8],
    numbers: &mut Vec<u64>,
) -> Result<(), Trouble>
where
    T: Net<Listener = TcpListener, Stream = TcpStream> + Threads + Sync,
{
    if !lacks_folder(session, path)? {
        return Ok(());
    }
    let path_ = Vec::from_slice(session.helper.rt.alloc(), path)?;
    let command = Command::Mkdir { path: path_ };
    do_commands(session, slice::from_ref(&command), Some(path), numbers)
}

/// Tells whether a path leads to nothing, so that a folder may be made there. `WrongKind` where it
/// leads to a file; or as a load is refused; `NoMemory`.
pub(crate) fn lacks_folder<'a, T>(
    session: &mut Session<'a, T, KeptKey<'a>>,
    path: &[u8],
) -> Result<bool, Trouble> {
    let alloc = session.helper.rt.alloc();
    match named(alloc, path, found_if_any(alloc, &mut session.member, path))? {
        Some(found) if found.stat.kind == Kind::Dir => Ok(false),
        Some(found) => {
            let refusal = Refusal::WrongKind(found.file);
            Err(Trouble::at(path, alloc, Fault::from(refusal)))
        }
        None => Ok(true),
    }
}

/// Takes names away, in as few commits as have room for that: a folder's with all that is in it,
/// where that is asked for, the deepest first. Appends the numbers of the commits. Refuses a path
/// that leads to nothing; the refusals of `su_person::carry_out`; what was committed before stays.
pub fn remove<'a, T>(
    session: &mut Session<'a, T, KeptKey<'a>>,
    paths: &[Vec<u8>],
    is_recursive: bool,
    numbers: &mut Vec<u64>,
) -> Result<(), Trouble>
where
    T: Net<Listener = TcpListener, Stream = TcpStream> + Threads + Sync,
{
    let mut commands = Vec::new(session.helper.rt.alloc());
    for path in paths {
        add_removals(session, path.as_slice(), is_recursive, &mut commands)?;
    }
    do_commands(session, &commands, only(paths), numbers)
}

/// Adds the commands that take a name away, with all that is in a folder where that is asked for.
fn add_removals<'a, T>(
    session: &mut Session<'a, T, KeptKey<'a>>,
    path: &[u8],
    is_recursive: bool,
    commands: &mut Vec<Command>,
) -> Result<(), Trouble> {
    let alloc = session.helper.rt.alloc();
    if !is_recursive {
        let path = Vec::from_slice(alloc, path)?;
        commands.push(Command::Remove { path })?;
        return Ok(());
    }
    let all = walked(alloc, &mut session.member, path)?;
    for Found { path, .. } in all.into_iter().rev() {
        commands.push(Command::Remove { path })?;
    }
    Ok(())
}

/// Gives what a path leads to another name; within a folder, where that is one, its own. Appends
/// the numbers of the commits. The refusals of `su_person::carry_out`; what was committed before
/// stays.
pub fn rename<'a, T>(
    session: &mut Session<'a, T, KeptKey<'a>>,
    old: &[u8],
    new: &[u8],
    numbers: &mut Vec<u64>,
) -> Result<(), Trouble>
where
    T: Net<Listener = TcpListener, Stream = TcpStream> + Threads + Sync,
{
    let alloc = session.helper.rt.alloc();
    let command = Command::Rename {
        old_: Vec::from_slice(alloc, old)?,
        new_: target_of(session, old, new)?,
    };
    named(alloc, old, session.member.find_held(old))?;
    do_commands(session, slice::from_ref(&command), Some(new), numbers)
}

/// Gives a file one name more; within a folder, where that is one, its own. Appends the numbers of
/// the commits. The refusals of `su_person::carry_out`; what was committed before stays.
pub fn link<'a, T>(
    session: &mut Session<'a, T, KeptKey<'a>>,
    old: &[u8],
    new: &[u8],
    numbers: &mut Vec<u64>,
) -> Result<(), Trouble>
where
    T: Net<Listener = TcpListener, Stream = TcpStream> + Threads + Sync,
{
    let alloc = session.helper.rt.alloc();
    let command = Command::Link {
        old_: Vec::from_slice(alloc, old)?,
        new_: target_of(session, old, new)?,
    };
    named(alloc, old, session.member.find_held(old))?;
    do_commands(session, slice::from_ref(&command), Some(new), numbers)
}

/// Carries out commands, in as few commits as have room for them. A refusal is told of the path of
/// the command that is refused; where commits were made before it, of that one path which all of
/// the commands are about, if they are.
fn do_commands<'a, T>(
    session: &mut Session<'a, T, KeptKey<'a>>,
    commands: &[Command],
    only: Option<&[u8]>,
    numbers: &mut Vec<u64>,
) -> Result<(), Trouble>
where
    T: Net<Listener = TcpListener, Stream = TcpStream> + Threads + Sync,
{
    let alloc = session.helper.rt.alloc();
    let before = numbers.len();
    let done = carry_out(&mut session.helper, &mut session.member, commands, numbers);
    let Err(fault) = done else {
        return Ok(());
    };
    let mut path = only;
    if 1 < commands.len() && numbers.len() == before && !is_unanswered(&fault) {
        path = refused_path(session, commands);
    }
    match path {
        Some(path) => Err(Trouble::at(path, alloc, fault)),
        None => Err(Trouble::from(fault)),
    }
}

/// Tells whether something isn't done as what is asked of the tree isn't answered.
fn is_unanswered(fault: &Fault) -> bool {
    match fault {
        Fault::Refused(ViewRefusal::Plain(refusal)) => is_of_load(refusal),
        _ => false,
    }
}

/// Returns the path of the first of the commands that can't be carried out behind those before it,
/// where it is one that makes a folder or takes a name away.
fn refused_path<'a, 'c, T>(
    session: &mut Session<'a, T, KeptKey<'a>>,
    commands: &'c [Command],
) -> Option<&'c [u8]> {
    let mut planned = 0;
    let mut refused = commands.len();
    while 1 < refused - planned {
        let middle = planned + (refused - planned) / 2;
        if session.member.plan_held(&commands[..middle]).is_ok() {
            planned = middle;
        } else {
            refused = middle;
        }
    }
    match commands.get(planned) {
        Some(Command::Mkdir { path }) => Some(path.as_slice()),
        Some(Command::Remove { path }) => Some(path.as_slice()),
        _ => None,
    }
}

/// Returns the path that a new name has: within a folder, where the path leads to one.
fn target_of<'a, T>(
    session: &mut Session<'a, T, KeptKey<'a>>,
    old: &[u8],
    new: &[u8],
) -> Result<Vec<u8>, Trouble> {
    let alloc: Global = session.helper.rt.alloc();
    let path = match named(alloc, new, found_if_any(alloc, &mut session.member, new))? {
        Some(found) if found.stat.kind == Kind::Dir => path_in(alloc, new, last_name(old))?,
        _ => Vec::from_slice(alloc, new)?,
    };
    Ok(path)
}

/// Returns the line that tells the commits of these numbers. Fails only where memory is refused.
pub fn done_line(alloc: Global, numbers: &[u64]) -> Result<String, AllocError> {
    match (numbers.first(), numbers.last()) {
        (Some(first), Some(last)) if first != last => {
            let count = numbers.len();
            format!(in alloc; "done, with {count} commits ({first} to {last})\n")
        }
        (Some(first), _) => format!(in alloc; "done, with commit {first}\n"),
        _ => String::from_str(alloc, "nothing to be done\n"),
    }
}
