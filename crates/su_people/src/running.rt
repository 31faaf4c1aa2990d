// What a command line of people does.
use crate::blockers::{own_blockers, undo_own};
use crate::outcomes::{Outcome, ending_of};
use std::alloc::Global;
use std::io::Write;
use std::net::{Net, TcpListener, TcpStream};
use std::thread::Threads;
use su_folder::{Server, StateFolder};
use su_kept_key::KeptKey;
use su_lms::KeyStore;
use su_people_line::{Deed, PeopleLine};
use su_people_reading::{
    cat, compare_heads, diff, get_all, history, list, show, status, verify, why,
};
use su_people_session::{
    Answer, Helper, Items, Keyless, Session, Trouble, finish, look, sign, tell,
};
use su_people_writing::{
    done_line, first_look, link, make_folders, new_folder, put_all, rekey, remove, rename,
    undo_range,
};
use su_spelling::read_path;

/// Carries out a command line of people, and writes its answer. Why something isn't done is told
/// on standard error.
pub fn run<T, W: Write>(rt: &HostRuntime, host: &T, line: &PeopleLine, writer: &mut W) -> Outcome
where
    T: Net<Listener = TcpListener, Stream = TcpStream> + Threads + Sync,
{
    match done(rt, host, line, writer) {
        Ok(outcome) => outcome,
        Err(trouble) => {
            tell(rt, None, &trouble);
            ending_of(&trouble)
        }
    }
}

/// Carries out a command line, and writes its answer.
fn done<T, W: Write>(
    rt: &HostRuntime,
    host: &T,
    line: &PeopleLine,
    writer: &mut W,
) -> Result<Outcome, Trouble>
where
    T: Net<Listener = TcpListener, Stream = TcpStream> + Threads + Sync,
{
    let given = line.folder.as_ref().map(|folder| folder.as_str());
    match &line.deed {
        Deed::Init(args) => {
            write(writer, new_folder(rt, args)?.as_str())?;
            write(writer, first_look(rt, host, args)?.as_str())
        }
        Deed::Verify => {
            verify(rt, host, given, writer)?;
            Ok(Outcome::Done)
        }
        Deed::Where { server } => write(writer, where_text(rt, given, server.as_ref())?.as_str()),
        deed if is_look(deed) => looked(rt, host, line, given, writer),
        deed => changed(rt, host, deed, given, writer),
    }
}

/// Tells whether a command only looks, for which no key is needed.
fn is_look(deed: &Deed) -> bool {
    matches!(
        deed,
        Deed::Get(_)
            | Deed::List { .. }
            | Deed::Cat { .. }
            | Deed::History { .. }
            | Deed::Show { .. }
            | Deed::Diff { .. }
            | Deed::WhyBlocked { .. }
            | Deed::Status
            | Deed::Compare(_)
    )
}

/// Returns what of the items of a list a command needs that only looks.
fn items_for(deed: &Deed) -> Items {
    match deed {
        Deed::Show { .. } | Deed::Diff { .. } | Deed::WhyBlocked { .. } => Items::AtHand,
        _ => Items::Left,
    }
}

/// Writes an answer.
fn write<W: Write>(writer: &mut W, text: &str) -> Result<Outcome, Trouble> {
    match writer
        .write_all(text.as_bytes())
        .and_then(|()| writer.flush())
    {
        Ok(()) => Ok(Outcome::Done),
        Err(reason) => Err(Trouble::Unwritten(reason)),
    }
}

/// Carries out a command that only looks, and writes its answer. What it refuses is told by the
/// names of the team.
fn looked<T, W: Write>(
    rt: &HostRuntime,
    host: &T,
    line: &PeopleLine,
    given: Option<&str>,
    writer: &mut W,
) -> Result<Outcome, Trouble>
where
    T: Net<Listener = TcpListener, Stream = TcpStream> + Threads + Sync,
{
    let mut session = look(rt, host, given, items_for(&line.deed))?;
    let answered = match &line.deed {
        Deed::Cat { path } => cat_at(&mut session, path.as_str(), writer),
        deed => look_deed(&mut session, deed, line.json),
    };
    session.helper.end();
    match answered {
        Ok(answer) => write_answer(writer, &answer),
        Err(trouble) => {
            session.helper.tell(&trouble);
            Ok(ending_of(&trouble))
        }
    }
}

/// Writes an answer, of which some may not be done.
fn write_answer<W: Write>(writer: &mut W, answer: &Answer) -> Result<Outcome, Trouble> {
    write(writer, answer.text.as_str())?;
    Ok(if answer.is_partly {
        Outcome::Refused
    } else {
        Outcome::Done
    })
}

/// Writes the bytes of the file at a path, which is spelled so.
fn cat_at<T, W: Write>(
    session: &mut Session<'_, T, Keyless>,
    path: &str,
    writer: &mut W,
) -> Result<Answer, Trouble> {
    let alloc = session.helper.rt.alloc();
    let path = path_of(alloc, path)?;
    cat(session, &path, writer)?;
    Ok(Answer::whole(String::new(alloc)))
}

/// Reads the path of the store that a text spells. A `/` at its end is passed over.
fn path_of(alloc: Global, text: &str) -> Result<Vec<u8>, Trouble> {
    let text = text.trim_end_matches('/');
    Ok(read_path(alloc, text.as_bytes())?)
}

/// Returns the answer of a command that only looks.
fn look_deed<T>(
    session: &mut Session<'_, T, Keyless>,
    deed: &Deed,
    json: bool,
) -> Result<Answer, Trouble> {
    let alloc = session.helper.rt.alloc();
    let text = match deed {
        Deed::Get(args) => {
            let path = path_of(alloc, args.path.as_str())?;
            return get_all(session, args, &path);
        }
        Deed::List { path, long } => {
            let path = path_of(alloc, path.as_ref().map_or("/", |path| path.as_str()))?;
            list(session, &path, *long, json)?
        }
        Deed::History { count, path } => history_at(session, *count, path.as_ref(), json)?,
        Deed::Show { number } => show(session, *number, json)?,
        Deed::Diff { number } => diff(session, *number)?,
        Deed::WhyBlocked { number } => why(session, *number, json)?,
        Deed::Compare(args) => compare_heads(session, args)?,
        _ => status(session, json)?,
    };
    Ok(Answer::whole(text))
}

/// Returns the text of the history of a path, which is spelled so, or of all.
fn history_at<T>(
    session: &mut Session<'_, T, Keyless>,
    count: Option<u64>,
    path: Option<&String>,
    json: bool,
) -> Result<String, Trouble> {
    let alloc = session.helper.rt.alloc();
    match path {
        Some(path) => {
            let path = path_of(alloc, path.as_str())?;
            history(session, count, Some(path.as_slice()), json)
        }
        None => history(session, count, None, json),
    }
}

/// Carries out a command that signs, and writes its answer. What it refuses is told by the names
/// of the team.
fn changed<'a, T, W: Write>(
    rt: &'a HostRuntime,
    host: &'a T,
    deed: &Deed,
    given: Option<&str>,
    writer: &mut W,
) -> Result<Outcome, Trouble>
where
    T: Net<Listener = TcpListener, Stream = TcpStream> + Threads + Sync,
{
    let undone = match deed {
        Deed::UndoWithBlockers { number } => match own_blockers(rt, host, given, *number)? {
            Ok(undone) => undone,
            Err(outcome) => return Ok(outcome),
        },
        _ => Vec::new(rt.alloc()),
    };
    let mut session = sign(rt, host, given)?;
    let outcome = carry_out(&mut session, deed, &undone, writer);
    close(session);
    outcome
}

/// Carries out a command in a session that signs, ends that, and writes the command's answer.
fn carry_out<'a, T, W: Write>(
    session: &mut Session<'a, T, KeptKey<'a>>,
    deed: &Deed,
    undone: &[u64],
    writer: &mut W,
) -> Result<Outcome, Trouble>
where
    T: Net<Listener = TcpListener, Stream = TcpStream> + Threads + Sync,
{
    let mut numbers = Vec::new(session.helper.rt.alloc());
    let answered = change_deed(session, deed, undone, &mut numbers);
    finish(session);
    match answered {
        Ok(answer) => write_answer(writer, &answer),
        Err(trouble) => {
            session.helper.tell(&trouble);
            tell_done(&session.helper, &numbers);
            Ok(ending_of(&trouble))
        }
    }
}

/// Lets a session go, with the locks that it has.
fn close<T, K: KeyStore + Drop>(session: Session<'_, T, K>) {
    drop(session);
}

/// Returns the answer of a command that signs, and appends the numbers of its commits; `undone` are
/// the operations that one takes back which takes back what blocks another.
fn change_deed<'a, T>(
    session: &mut Session<'a, T, KeptKey<'a>>,
    deed: &Deed,
    undone: &[u64],
    numbers: &mut Vec<u64>,
) -> Result<Answer, Trouble>
where
    T: Net<Listener = TcpListener, Stream = TcpStream> + Threads + Sync,
{
    let alloc = session.helper.rt.alloc();
    if let Deed::Put(args) = deed {
        let is_into = args.path.as_str().ends_with('/');
        let path = path_of(alloc, args.path.as_str())?;
        return put_all(session, args, &path, is_into, numbers);
    }
    change_names(session, deed, undone, numbers)?;
    Ok(Answer::whole(done_line(alloc, numbers)?))
}

/// Tells which commits were made before something was refused.
fn tell_done<T>(helper: &Helper<'_, T>, numbers: &[u64]) {
    if let (Some(first), Some(last)) = (numbers.first(), numbers.last()) {
        let _ = eprintln!(helper.rt;
            "sundr: before that commits {first} to {last} were made, which stay"
        );
    }
}

/// Carries out a command that makes, gives or takes names away, or takes operations back.
fn change_names<'a, T>(
    session: &mut Session<'a, T, KeptKey<'a>>,
    deed: &Deed,
    undone: &[u64],
    numbers: &mut Vec<u64>,
) -> Result<(), Trouble>
where
    T: Net<Listener = TcpListener, Stream = TcpStream> + Threads + Sync,
{
    let alloc = session.helper.rt.alloc();
    match deed {
        Deed::MakeFolders { paths, parents } => {
            let paths = paths_of(alloc, paths)?;
            make_folders(session, paths.as_slice(), *parents, numbers)
        }
        Deed::Remove { paths, recursive } => {
            let paths = paths_of(alloc, paths)?;
            remove(session, paths.as_slice(), *recursive, numbers)
        }
        Deed::Move { path, other } => {
            let (path, other) = (
                path_of(alloc, path.as_str())?,
                path_of(alloc, other.as_str())?,
            );
            rename(session, &path, &other, numbers)
        }
        Deed::Link { path, other } => {
            let (path, other) = (
                path_of(alloc, path.as_str())?,
                path_of(alloc, other.as_str())?,
            );
            link(session, &path, &other, numbers)
        }
        Deed::Undo { first, last } => undo_range(session, *first, *last, numbers),
        Deed::UndoWithBlockers { .. } => undo_own(session, undone, numbers),
        Deed::Rekey => rekey(session, numbers),
        _ => Ok(()),
    }
}

/// Reads paths of the store, as they are given.
fn paths_of(alloc: Global, given: &[String]) -> Result<Vec<Vec<u8>>, Trouble> {
    let mut paths = Vec::new(alloc);
    for path in given {
        paths.push(path_of(alloc, path.as_str())?)?;
    }
    Ok(paths)
}

/// Returns the text of `where`, once another server is taken, if one is given.
fn where_text(
    rt: &HostRuntime,
    given: Option<&str>,
    server: Option<&su_people_line::Server>,
) -> Result<String, Trouble> {
    let alloc = rt.alloc();
    let directory = su_folder::find(rt, given)?;
    let mut folder = StateFolder::open(rt, directory.as_str())?;
    if let Some(server) = server {
        folder.set_server(&Server {
            host: String::from_str(alloc, server.host.as_str())?,
            port: server.port,
        })?;
    }
    let server = folder.server();
    Ok(format!(in alloc; "{server}\n")?)
}
