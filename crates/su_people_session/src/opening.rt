// How a state folder is opened, and what its log says is taken.
ghost use Rattle.std.specs.Prelude.{true};

use crate::links::{Link, Source, connect};
use crate::portions::Portions;
use crate::troubles::Trouble;
use std::alloc::Global;
use std::io::Read;
use std::net::{Net, TcpListener, TcpStream};
use std::thread::Threads;
use su_block::BlockSource;
use su_bytes::Refusal;
use su_client_work::{LogFault, leave_in_scratch, source_with, take_log};
use su_folder::StateFolder;
use su_scratch::FileScratch;
use su_view::{View, ViewRefusal};

/// How many bytes an entry of a log has at most: a commit and an item, each with its length.
const LONGEST_ENTRY: u64 = 200_000;

/// How many bytes of items, or of contents that are read, may come into the tree in memory before it
/// is left in the scratch.
pub(crate) const MOST_GROWN: u64 = 131_072;

/// What of the items of a list a command needs.
#[derive(Clone, Copy, Debug, PartialEq, Eq)]
pub enum Items {
    /// None: they are left to the log of the state folder, and no memory holds them.
    Left,
    /// All: they are at hand.
    AtHand,
}

/// A state folder, and the view of its user that holds the commits of its log, over a link to the
/// folder's server.
#[derive(Drop)]
pub(crate) struct Opened<'a> {
    pub(crate) folder: StateFolder<'a>,
    pub(crate) view: View<Source>,
    /// How many bytes the items had that were taken since the tree was left in the scratch.
    pub(crate) grown: u64,
}

/// Opens a state folder, connects to its server, and takes the commits of its log, from that alone:
/// the server isn't asked. An entry at the end that is cut is dropped, as it is of a write that a stop
/// broke off.
pub(crate) fn open<'a, T>(
    rt: &'a HostRuntime,
    host: &T,
    given: Option<&str>,
    items: Items,
) -> Result<Opened<'a>, Trouble>
where
    T: Net<Listener = TcpListener, Stream = TcpStream> + Threads + Sync,
{
    let directory = su_folder::find(rt, given)?;
    let mut folder = StateFolder::open(rt, directory.as_str())?;
    let link = link_to(rt.alloc(), host, &folder)?;
    let source = source_with(rt.alloc(), scratch_of(&folder), link)?;
    let roster = folder.team().roster(rt.alloc())?;
    let mut view = View::new(rt.alloc(), roster, folder.user(), source)?;
    let grown = take_kept(rt, host, &mut folder, items, &mut view)?;
    let (count, _) = view.head();
    folder.align(count)?;
    Ok(Opened {
        folder,
        view,
        grown,
    })
}

/// Connects to the server of a state folder.
fn link_to<T>(alloc: Global, host: &T, folder: &StateFolder<'_>) -> Result<Link, Trouble>
where
    T: Net<Listener = TcpListener, Stream = TcpStream> + Threads + Sync,
{
    let server = folder.server();
    match connect(alloc, host, server.host.as_str(), server.port) {
        Ok(link) => Ok(link),
        Err(reason) => Err(Trouble::Unlinked {
            server: format!(in alloc; "{server}")?,
            reason,
        }),
    }
}

/// Makes the scratch of a state folder, without a file where none can be made.
fn scratch_of(folder: &StateFolder<'_>) -> FileScratch {
    match folder.scratch() {
        Some(file) => FileScratch::over(file),
        None => FileScratch::none(),
    }
}

/// Takes the commits of a folder's log in a view that holds none, and leaves the tree in the view's
/// scratch each time that it has grown; tells by how many bytes it may have grown since.
fn take_kept<T: Threads + Sync>(
    rt: &HostRuntime,
    host: &T,
    folder: &mut StateFolder<'_>,
    items: Items,
    view: &mut View<Source>,
) -> Result<u64, Trouble> {
    let alloc = rt.alloc();
    let mut log = Portions::new(alloc, folder.read_log()?);
    let mut length = 0u64;
    let mut grown = 0u64;
    for _ in 0..u64::MAX {
        let Some(portion) = next_portion(alloc, &mut log)? else {
            return Ok(grown);
        };
        let (before, _) = view.head();
        if let Err(fault) = take_log(host, alloc, portion, view) {
            let whole = length.saturating_add(length_behind(view, before));
            drop_cut_entry(rt, folder, whole, behind(fault, before, length))?;
            return Ok(grown);
        }
        length = length.saturating_add(portion.len() as u64);
        grown = grown.saturating_add(items_behind(view, before));
        if items == Items::Left {
            view.leave_entries();
        }
        if MOST_GROWN < grown {
            // (where it can't be left, it stays in memory)
            let _ = leave_in_scratch(view);
            grown = 0;
        }
    }
    Ok(grown)
}

/// Returns the next portion of a log, none at its end.
fn next_portion<R: Read>(alloc: Global, log: &mut Portions<R>) -> Result<Option<&[u8]>, Trouble> {
    match log.next(alloc) {
        Ok(portion) => Ok(portion),
        Err(reason) => Err(Trouble::UnreadLog(reason)),
    }
}

/// Returns a fault of a portion of a log as one of the log, where so many commits and bytes are
/// before the portion.
fn behind(fault: LogFault, commits: u64, bytes: u64) -> LogFault {
    match fault {
        LogFault::Refused { number, refusal } => LogFault::Refused {
            number: number.saturating_add(commits),
            refusal: match refusal {
                ViewRefusal::Plain(Refusal::Malformed(place)) => {
                    ViewRefusal::Plain(Refusal::Malformed(place.saturating_add(bytes)))
                }
                refusal => refusal,
            },
        },
        fault => fault,
    }
}

/// Cuts a log behind its whole entries, which have so many bytes, where what comes is an entry that
/// is cut.
fn drop_cut_entry(
    rt: &HostRuntime,
    folder: &mut StateFolder<'_>,
    whole: u64,
    fault: LogFault,
) -> Result<(), Trouble> {
    match fault {
        LogFault::Refused {
            refusal: ViewRefusal::Plain(Refusal::Malformed(place)),
            ..
        } if whole <= place => {}
        LogFault::Refused {
            refusal: ViewRefusal::Plain(Refusal::NoMemory),
            ..
        } => return Err(Trouble::NoMemory),
        LogFault::Refused { number, refusal } => return Err(Trouble::Log { number, refusal }),
        LogFault::Unread(reason) => return Err(Trouble::UnreadLog(reason)),
    }
    let dropped = folder.cut_log(whole, LONGEST_ENTRY)?;
    let _ = eprintln!(rt;
        "sundr: .sundr/log ended in an entry that was cut, of {dropped} bytes, which was dropped"
    );
    Ok(())
}

/// Returns how many bytes the items have of the commits that a view holds behind its first `from_`
/// ones, those that it has left not counted.
pub(crate) fn items_behind<S: BlockSource + Drop>(view: &View<S>, from_: u64) -> u64 {
    let (count, _) = view.head();
    let mut bytes = 0u64;
    for before in from_..count {
        if let Some((_, item)) = view.entry(before + 1) {
            bytes = bytes.saturating_add(item.len() as u64);
        }
    }
    bytes
}

/// Returns how many bytes the log of a view's list has behind its first `from_` commits.
fn length_behind<S: BlockSource + Drop>(view: &View<S>, from_: u64) -> u64 {
    let (count, _) = view.head();
    let mut length = 0u64;
    for before in from_..count {
        if let Some((commit, item)) = view.entry(before + 1) {
            length = length.saturating_add(8);
            length = length.saturating_add(commit.len() as u64);
            length = length.saturating_add(item.len() as u64);
        }
    }
    length
}
