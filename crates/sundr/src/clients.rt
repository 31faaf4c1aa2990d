// A client at work on a script.
ghost use Rattle.std.specs.Prelude.{◌≡◌, ℕ, List, Some, length};
ghost use Rattle.su_arguments.specs.Ranges.{IsUserCount};
ghost use Rattle.su_client_work.specs.Work.{Works};
ghost use Rattle.sundr.specs.Run.{AddsUnlessFault};

use crate::client_faults::ClientFault;
use crate::faults::tell_fault;
use crate::key_files::{open_present, open_signer};
use crate::programs::ClientProgram;
use crate::rosters::read_roster;
use crate::sentences::WITHOUT_LOG;
use std::alloc::Global;
use std::fs::File;
use std::io;
use std::io::{BufReader, ErrorKind, Read, Write};
use std::net::{Net, TcpListener, TcpStream};
use std::thread::Threads;
use su_arguments::ClientArgs;
use su_audit::tell_refused;
use su_block::BlockSource;
use su_bytes::{FileId, Refusal, Roster, User};
use su_client_script::{Ending, Fault, Manner, run_client};
use su_client_work::{LinkSource, LogFault, Member, source_over, take_log};
use su_desk_script::Status;
use su_host::{Link, connect};
use su_kept_key::KeptKey;
use su_lms::{PublicKey, Signer};
use su_no_blocks::NoBlocks;
use su_view::View;

/// Runs a script at a server, for a user with a key, as the command line asks for it. Where there is
/// a log, its commits are taken first, and a refused one is printed as an audit does. `Fault` where
/// the client can't begin: for want of a public key of the user, by the key file, by a public key, by
/// the log, by the port, in this order. Standard error tells that, what a client without a log
/// believes, what refusals may come from, and at the end why a leaf of the key couldn't be stored, or
/// not be put back.
// The client runs in the first thread, whose stack is what the shell allows (`ulimit -s`, mostly
// 8 MiB), as a desk does; the deepest names need 2 MiB at most.
pub(crate) fn client<T, R: Read + Drop, W: Write>(
    rt: &HostRuntime,
    host: &T,
    args: &ClientArgs,
    reader: R,
    writer: &mut W,
) -> Status
where
    T: Net<Listener = TcpListener, Stream = TcpStream> + Threads + Sync,
    requires { IsUserCount (length args.now.keys.items) }
    ensures { (before : List ℕ) → W.contents writer.old ≡ Some before
        → AddsUnlessFault before (W.contents writer.new) result }
{
    match member_of(rt, host, args) {
        Ok(member) => work(rt, host, args, member, reader, writer),
        Err(fault) => tell_client_fault(rt, writer, &fault),
    }
}

/// Runs the script.
fn work<'a, T, R: Read + Drop, W: Write>(
    rt: &'a HostRuntime,
    host: &'a T,
    args: &'a ClientArgs,
    mut member: Member<BufReader<TcpStream>, TcpStream, KeptKey<'a>>,
    reader: R,
    writer: &mut W,
) -> Status
where
    T: Net<Listener = TcpListener, Stream = TcpStream> + Threads + Sync,
    ensures { (before : List ℕ) → W.contents writer.old ≡ Some before
        → AddsUnlessFault before (W.contents writer.new) result }
{
    if args.log.is_none() {
        let _ = eprintln!(rt; "sundr: {WITHOUT_LOG}");
    }
    let mut program = ClientProgram::new(rt, host, args);
    let alloc = rt.alloc();
    if let Err(fault) = take_present_key(rt, host, args, &mut program, &mut member) {
        return tell_fault(rt, fault);
    }
    let manner = Manner {
        stops: args.stop,
        batches: args.batch,
        leaves: !args.keep_tree,
    };
    let ending = run_client(&mut program, alloc, reader, writer, &mut member, manner);
    put_leaf_back(rt, member.store());
    tell_ending(rt, &ending);
    ending.status()
}

/// Puts the leaf that signs next back in the key file, unless a leaf couldn't be stored before.
/// Standard error tells which of the two failed, and why.
fn put_leaf_back(rt: &HostRuntime, key: &KeptKey<'_>) {
    let path = key.path();
    match key.fault() {
        Some(reason) => {
            tell_fault(rt, format_args!("writing {path}: {reason}"));
        }
        None => {
            if let Err(reason) = key.put_back() {
                tell_fault(rt, format_args!("writing {path}: {reason}"));
            }
        }
    }
}

/// Makes the client, whose list are the commits of the log.
fn member_of<'a, T>(
    rt: &'a HostRuntime,
    host: &T,
    args: &ClientArgs,
) -> Result<Member<BufReader<TcpStream>, TcpStream, KeptKey<'a>>, ClientFault>
where
    T: Net<Listener = TcpListener, Stream = TcpStream> + Threads + Sync,
    requires { IsUserCount (length args.now.keys.items) }
{
    let user = user_of(args)?;
    let signer = open_signer(rt, host, args.key.as_str(), args.leaves_ahead)?;
    match view_at(rt, host, args, user) {
        Ok(view) => member_with(rt, host, args, view, signer),
        Err(fault) => Err(fault),
    }
}

/// Makes the client of a view, with the key of the command line or, where the log says that the user
/// has another one by now, with that. `OldKey` where no file of that is known.
fn member_with<'a, T>(
    rt: &'a HostRuntime,
    host: &T,
    args: &ClientArgs,
    view: View<Source>,
    signer: Signer<KeptKey<'a>>,
) -> Result<Member<BufReader<TcpStream>, TcpStream, KeptKey<'a>>, ClientFault>
where
    T: Net<Listener = TcpListener, Stream = TcpStream> + Threads + Sync,
{
    match changed_key(&view, &signer.public()) {
        None => Ok(Member::new(rt.alloc(), view, signer, args.tries)),
        Some(present) => match open_present(rt, host, args, &present) {
            Ok(signer) => Ok(Member::new(rt.alloc(), view, signer, args.tries)),
            Err(fault) => Err(fault),
        },
    }
}

/// Returns the key that the user of a view has, where it isn't the one of the roster any more, nor this
/// one.
fn changed_key<S: BlockSource + Drop>(view: &View<S>, key: &PublicKey) -> Option<PublicKey> {
    let present = view.key(view.user())?;
    let is_first = match view.roster().key(view.user()) {
        Some(first) => present.as_bytes() == first,
        None => true,
    };
    if is_first || present == *key {
        return None;
    }
    Some(present)
}

/// Makes the view of a user at the server, whose list are the commits of the log.
// (It stands apart so that no signer is alive at its exits.)
fn view_at<T>(
    rt: &HostRuntime,
    host: &T,
    args: &ClientArgs,
    user: User,
) -> Result<View<Source>, ClientFault>
where
    T: Net<Listener = TcpListener, Stream = TcpStream> + Threads + Sync,
    requires { IsUserCount (length args.now.keys.items) }
{
    let alloc = rt.alloc();
    let roster = read_roster(rt, args.keys.as_slice())?;
    let log = open_log(rt, args.log.as_ref().map(|path| path.as_str()))?;
    match connect(alloc, host, args.port) {
        Ok(link) => view_of(host, alloc, roster, user, link, log),
        Err(reason) => {
            check_log(host, alloc, roster, user, log)?;
            let port = args.port;
            Err(ClientFault::Unlinked { port, reason })
        }
    }
}

/// Returns the user, of whom there has to be a public key.
fn user_of(args: &ClientArgs) -> Result<User, ClientFault> {
    match User::new(u64::from(args.user)) {
        Ok(user) if usize::from(args.user) < args.keys.len() => Ok(user),
        _ => Err(ClientFault::NoUser { user: args.user }),
    }
}

/// Where a client makes next keys, asks the server for the commits that came since, and goes on with
/// the key that its user has by them: a run that was killed may have named it after the log was saved.
/// What the server refuses now, it refuses at the script's first command too.
fn take_present_key<'a, T>(
    rt: &'a HostRuntime,
    host: &T,
    args: &ClientArgs,
    program: &mut ClientProgram<'a, T>,
    member: &mut Member<BufReader<TcpStream>, TcpStream, KeptKey<'a>>,
) -> Result<(), ClientFault>
where
    T: Net<Listener = TcpListener, Stream = TcpStream> + Threads + Sync,
    ensures { Works member.old member.new }
{
    if args.next_key.is_none() {
        return Ok(());
    }
    if member.look(program).is_err() {
        return Ok(());
    }
    match member.present_key() {
        Some(key) if key != member.public_key() => {
            member.replace_key(open_present(rt, host, args, &key)?);
            Ok(())
        }
        _ => Ok(()),
    }
}

/// Where the items and the parts of the tree come from.
type Source = LinkSource<BufReader<TcpStream>, TcpStream>;

/// A log that is open.
#[derive(Drop)]
struct OpenLog<'a> {
    path: &'a str,
    reader: BufReader<File>,
}

/// Opens the log, if there is one.
fn open_log<'a>(
    rt: &HostRuntime,
    log: Option<&'a str>,
) -> Result<Option<OpenLog<'a>>, ClientFault> {
    let Some(path) = log else {
        return Ok(None);
    };
    match File::open(rt, path).and_then(|file| BufReader::new(rt.alloc(), file)) {
        Ok(reader) => Ok(Some(OpenLog { path, reader })),
        Err(reason) => Err(unread(rt.alloc(), path, reason)),
    }
}

/// Takes the commits of a log in a view.
fn take<T: Threads + Sync, S: BlockSource + Drop>(
    host: &T,
    alloc: Global,
    log: OpenLog<'_>,
    view: &mut View<S>,
) -> Result<(), ClientFault> {
    match take_log(host, alloc, log.reader, view) {
        Ok(_) => Ok(()),
        Err(LogFault::Refused { number, refusal }) => {
            Err(ClientFault::RefusedLog { number, refusal })
        }
        Err(LogFault::Unread(reason)) => Err(unread(alloc, log.path, reason)),
    }
}

/// Returns that a log can't be read.
fn unread(alloc: Global, path: &str, reason: io::Error) -> ClientFault {
    match String::from_str(alloc, path) {
        Ok(path) => ClientFault::UnreadLog { path, reason },
        Err(_) => ClientFault::NoMemory,
    }
}

/// Makes the view of a user, and takes the commits of the log, whose items go to the server: so one
/// that lost some has them again.
fn view_of<T: Threads + Sync>(
    host: &T,
    alloc: Global,
    roster: Roster,
    user: User,
    link: Link,
    log: Option<OpenLog<'_>>,
) -> Result<View<Source>, ClientFault> {
    let mut view = View::new(alloc, roster, user, source_over(alloc, link)?)?;
    let Some(log) = log else {
        return Ok(view);
    };
    take(host, alloc, log, &mut view)?;
    let put = put_items(alloc, &mut view);
    match put {
        _ if has_failed(&mut view) => Err(ClientFault::LinkFailed),
        Ok(()) => Ok(view),
        Err(_) => Err(ClientFault::NoMemory),
    }
}

/// Tells whether the link of a view's source has failed.
fn has_failed(view: &mut View<Source>) -> bool {
    let outbox = view.source_mut().source_mut().source_mut().source_mut();
    outbox.client_mut().has_failed()
}

/// Puts the items of a view's list to the server. Refused with `SourceFailed` where the link fails,
/// and with `NoMemory`.
fn put_items(alloc: Global, view: &mut View<Source>) -> Result<(), Refusal> {
    // names the type for the prover (docs/ARCHITECTURE.md, "Forms the kit wants")
    let _file: Option<FileId> = None;
    let (count, _) = view.head();
    for before in 0..count {
        put_item(alloc, view, before + 1)?;
    }
    let outbox = view.source_mut().source_mut().source_mut().source_mut();
    outbox.settle(alloc)
}

/// Puts the item of the commit of that number, if the view has it; but not into the cache.
fn put_item(alloc: Global, view: &mut View<Source>, number: u64) -> Result<(), Refusal> {
    // as in `put_items`
    let _file: Option<FileId> = None;
    let Some((_, item)) = view.entry(number) else {
        return Ok(());
    };
    let item = Vec::from_slice(alloc, item)?;
    view.source_mut().source_mut().put(alloc, item.as_slice())?;
    Ok(())
}

/// Takes the commits of the log without a server, only to see whether all can be taken.
fn check_log<T: Threads + Sync>(
    host: &T,
    alloc: Global,
    roster: Roster,
    user: User,
    log: Option<OpenLog<'_>>,
) -> Result<(), ClientFault> {
    let Some(log) = log else {
        return Ok(());
    };
    let mut view = View::new(alloc, roster, user, NoBlocks::new())?;
    take(host, alloc, log, &mut view)
}

/// Tells why a client can't begin: a refused log on standard output, anything else on standard
/// error.
fn tell_client_fault<W: Write>(rt: &HostRuntime, writer: &mut W, fault: &ClientFault) -> Status
    ensures { result ≡ Status.Fault }
{
    match fault {
        ClientFault::RefusedLog { number, refusal } => {
            let told = tell_refused(rt.alloc(), writer, *number, refusal);
            tell_log(rt, &told)
        }
        fault => tell_fault(rt, fault),
    }
}

/// Tells on standard error why a refused log couldn't be printed, if so.
fn tell_log(rt: &HostRuntime, told: &su_audit::Ending) -> Status
    ensures { result ≡ Status.Fault }
{
    match told {
        su_audit::Ending::Failed(fault) => tell_fault(rt, fault),
        _ => Status::Fault,
    }
}

/// Tells on standard error why a run ended before its input did; nothing where nobody reads the
/// answers any more.
fn tell_ending(rt: &HostRuntime, ending: &Ending) {
    let _ = match ending {
        Ending::BadLine {
            number,
            mistake: Some(mistake),
        } => eprintln!(rt; "sundr: line {number}: {mistake}"),
        Ending::Refused { number } => {
            eprintln!(rt; "sundr: line {number} was refused, and with --stop the script ends there")
        }
        Ending::Failed(Fault::Writing(error)) if error.kind() == ErrorKind::BrokenPipe => Ok(()),
        Ending::Failed(fault) => eprintln!(rt; "sundr: {fault}"),
        _ => Ok(()),
    };
}
