// What users see of one another at one server, and at a server that begins anew.
use crate::clients::{Person, new_person, returning, roster};
use crate::servers::{listen, serve};
use std::alloc::Global;
use std::net::{Net, SocketAddr, TcpListener, TcpStream};
use std::process::Abort;
use std::sync::Wait;
use std::test::Fail;
use std::thread::{Threads, join};
use std::time::Clock;
use su_audit::{Ending, Watcher, run_audit};
use su_keeper::Forgetful;
use su_server::Report;
use su_session::End;

/// Watches an audit, and does nothing.
#[derive(Drop)]
struct Nobody;

impl Watcher for Nobody {
    fn taken(&mut self, _count: u64) {}

    fn ended(&mut self) {}
}

#[test]
fn walk(rt: HostRuntime) -> Result<(), Fail> {
    let alloc = rt.alloc();
    let log = walked(&rt, alloc)?;
    audited(&rt, alloc, &log)
}

#[test]
fn a_server_that_begins_anew(rt: HostRuntime) -> Result<(), Fail> {
    let alloc = rt.alloc();
    let log = walked(&rt, alloc)?;
    returned(&rt, alloc, &log)
}

// Two users work at one server. Returns the log that one of them saves.
fn walked<R>(rt: &R, alloc: Global) -> Result<Vec<u8>, Fail>
where
    R: Net<Listener = TcpListener, Stream = TcpStream> + Threads + Wait + Abort + Clock + Sync,
{
    let listener = listen(rt)?;
    let at = listener.local_addr()?;
    let (server, clients) = join(
        rt,
        || serve(rt, alloc, &listener, 2).ok(),
        || two_users(rt, alloc, at),
    );
    let log = clients.ok_or("the clients failed")?;
    let report = server.ok_or("the server failed")?;
    assert_eq!(rt; report.closed.records, 3);
    ended_well(rt, &report, 2);
    Ok(log)
}

// So many sessions were ended by their clients.
fn ended_well(rt: &impl Abort, report: &Report<Forgetful>, sessions: usize) {
    assert_eq!(rt; report.sessions.len(), sessions);
    for served in &report.sessions {
        assert_eq!(rt; served.end_, End::Closed);
    }
}

// User 0 makes a directory, in which user 1 makes a file: so user 0 can't undo it.
fn two_users<R>(rt: &R, alloc: Global, at: SocketAddr) -> Option<Vec<u8>>
where
    R: Net<Listener = TcpListener, Stream = TcpStream> + Threads + Abort + Clock + Sync,
{
    let mut zero = new_person(rt, alloc, 0, at)?;
    let mut one = new_person(rt, alloc, 1, at)?;
    prints(rt, alloc, &mut zero, b"mkdir /d\n", b"ok 1\n")?;
    prints(rt, alloc, &mut one, b"create /d/f\n", b"ok 2\nok 3\n")?;
    prints(rt, alloc, &mut zero, b"ls /d\n", b"f G0:3\n")?;
    prints(
        rt,
        alloc,
        &mut zero,
        b"undo 1\n",
        b"no 39 Change 28 Blocked 3\n",
    )?;
    prints(rt, alloc, &mut zero, b"save log\n", b"")?;
    Some(zero.take_saved(alloc))
}

// A script of a user prints this, and ends.
pub(crate) fn prints<R>(
    rt: &R,
    alloc: Global,
    user: &mut Person,
    script: &[u8],
    text: &[u8],
) -> Option<()>
where
    R: Net<Listener = TcpListener, Stream = TcpStream> + Threads + Abort + Clock + Sync,
{
    let printed = user.run(rt, alloc, script)?;
    assert!(rt; printed.as_slice() == text);
    Some(())
}

// The audit of a log takes its three commits.
fn audited<R: Threads + Abort + Sync>(rt: &R, alloc: Global, log: &[u8]) -> Result<(), Fail> {
    let mut printed = Vec::new(alloc);
    let ending = run_audit(rt, alloc, log, &mut printed, roster(alloc)?, &mut Nobody);
    assert!(rt; matches!(ending, Ending::Taken));
    assert!(rt; printed.as_slice() == b"ok 3\n".as_slice());
    Ok(())
}

// Two clients of user 1 look at a server that has no records.
fn returned<R>(rt: &R, alloc: Global, log: &[u8]) -> Result<(), Fail>
where
    R: Net<Listener = TcpListener, Stream = TcpStream> + Threads + Wait + Abort + Clock + Sync,
{
    let listener = listen(rt)?;
    let at = listener.local_addr()?;
    let (server, clients) = join(
        rt,
        || serve(rt, alloc, &listener, 2).ok(),
        || with_and_without(rt, alloc, at, log),
    );
    clients.ok_or("the clients failed")?;
    let report = server.ok_or("the server failed")?;
    assert_eq!(rt; report.closed.records, 0);
    ended_well(rt, &report, 2);
    Ok(())
}

// One has the log with the user's own commits, and misses them; another begins anew, and sees
// nothing.
fn with_and_without<R>(rt: &R, alloc: Global, at: SocketAddr, log: &[u8]) -> Option<()>
where
    R: Net<Listener = TcpListener, Stream = TcpStream> + Threads + Abort + Clock + Sync,
{
    let (mut old, count) = returning(rt, alloc, 1, at, log)?;
    let mut new = new_person(rt, alloc, 1, at)?;
    assert_eq!(rt; count, 3);
    prints(rt, alloc, &mut old, b"ls /\n", b"no 40 OwnMissing\n")?;
    prints(rt, alloc, &mut new, b"ls /\n", b"")
}
