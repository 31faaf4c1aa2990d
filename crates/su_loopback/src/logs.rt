// Logs of an honest server and of one that forks its list, and how they are taken apart.
use crate::clients::new_person;
use crate::liars::{Liar, Sight, serve_lies};
use crate::servers::{listen, serve};
use crate::walks::prints;
use std::alloc::Global;
use std::net::{Net, SocketAddr, TcpListener, TcpStream};
use std::process::Abort;
use std::sync::Wait;
use std::thread::{Threads, join};
use std::time::Clock;
use su_bad::Step;
use su_message::Bytes;

/// A client of a user who begins anew prints this of a script. Returns the log that it saves.
fn begins<R>(
    rt: &R,
    alloc: Global,
    user: u8,
    at: SocketAddr,
    script: &[u8],
    text: &[u8],
) -> Option<Vec<u8>>
where
    R: Net<Listener = TcpListener, Stream = TcpStream> + Threads + Abort + Clock + Sync,
{
    let mut person = new_person(rt, alloc, user, at)?;
    prints(rt, alloc, &mut person, script, text)?;
    Some(person.take_saved(alloc))
}

/// User 0 makes three directories at an honest server. Returns the log.
pub(crate) fn honest_log<R>(rt: &R, alloc: Global) -> Option<Vec<u8>>
where
    R: Net<Listener = TcpListener, Stream = TcpStream> + Threads + Wait + Abort + Clock + Sync,
{
    let listener = listen(rt).ok()?;
    let at = listener.local_addr().ok()?;
    let script = b"mkdir /d\nmkdir /e\nmkdir /f\nsave log\n";
    let (server, log) = join(
        rt,
        || serve(rt, alloc, &listener, 1).ok(),
        || begins(rt, alloc, 0, at, script, b"ok 1\nok 2\nok 3\n"),
    );
    let _report = server?;
    log
}

/// Users 2 and 1 commit once each at a server that shows them the first commit of a log alone, and
/// hides from each what is the user's own. Returns the log of that fork.
pub(crate) fn forked_log<R>(rt: &R, alloc: Global, log: &[u8]) -> Option<Vec<u8>>
where
    R: Net<Listener = TcpListener, Stream = TcpStream> + Threads + Abort + Clock + Sync,
{
    let first = Sight {
        log,
        last: [1, 0, 0],
        names: b"",
    };
    let mut liar = Liar::new(alloc);
    liar.add_lie(alloc, &first, Step::Fork(2, Vec::new(alloc)))?;
    let listener = listen(rt).ok()?;
    let at = listener.local_addr().ok()?;
    let (log, served) = join(
        rt,
        || three_users(rt, alloc, at),
        || serve_lies(alloc, &listener, &mut liar, 3).ok(),
    );
    served?;
    log
}

fn three_users<R>(rt: &R, alloc: Global, at: SocketAddr) -> Option<Vec<u8>>
where
    R: Net<Listener = TcpListener, Stream = TcpStream> + Threads + Abort + Clock + Sync,
{
    let _none = begins(rt, alloc, 2, at, b"mkdir /x\n", b"ok 2\nno 40 OwnMissing\n")?;
    let _none = begins(rt, alloc, 1, at, b"mkdir /x\n", b"ok 3\nno 40 OwnMissing\n")?;
    begins(rt, alloc, 0, at, b"save log\n", b"")
}

/// Splits the first part off a log: bytes before which their number stands.
fn split_part(log: &[u8]) -> Option<(&[u8], &[u8])> {
    let (number, behind) = log.split_first_chunk::<4>()?;
    behind.split_at_checked(u32::from_be_bytes(*number) as usize)
}

/// Splits the first record off a log: a commit, its item, and the rest.
pub(crate) fn split_record(log: &[u8]) -> Option<(&[u8], &[u8], &[u8])> {
    let (commit, behind) = split_part(log)?;
    let (item, behind) = split_part(behind)?;
    Some((commit, item, behind))
}

/// Splits a log behind so many records.
pub(crate) fn split_log(log: &[u8], count: u32) -> Option<(&[u8], &[u8])> {
    let mut rest = log;
    for _ in 0..count {
        let (_commit, _item, behind) = split_record(rest)?;
        rest = behind;
    }
    log.split_at_checked(log.len().checked_sub(rest.len())?)
}

/// The commit behind so many records of a log, and its item.
pub(crate) fn record_behind(log: &[u8], count: u32) -> Option<(&[u8], &[u8])> {
    let (_front, rest) = split_log(log, count)?;
    let (commit, item, _behind) = split_record(rest)?;
    Some((commit, item))
}

/// The commit behind so many records of a log, as a list of records that a server shows.
pub(crate) fn shown_behind(alloc: Global, log: &[u8], count: u32) -> Option<Vec<Option<Bytes>>> {
    let (commit, _item) = record_behind(log, count)?;
    let bytes = Bytes::copy_of(alloc, commit).ok()?;
    vec![in alloc; Some(bytes)].ok()
}
