// What a client makes of a server that lies to it: it refuses what it is shown, holds what it held,
// and takes the truth when that is shown.
use crate::clients::returning;
use crate::liars::{Liar, Sight, serve_lies};
use crate::logs::{forked_log, honest_log, record_behind, shown_behind, split_log};
use crate::servers::listen;
use crate::walks::prints;
use std::alloc::Global;
use std::net::{Net, SocketAddr, TcpListener, TcpStream};
use std::process::Abort;
use std::test::Fail;
use std::thread::{Threads, join};
use std::time::Clock;
use su_bad::Step;
use su_block::digest_of;

/// A user's client that holds a list, and what an honest server shows it.
#[derive(Drop)]
struct Case<'a> {
    user: u8,
    held: Sight<'a>,
    truth: Sight<'a>,
}

// What an honest server shows of the first commits of user 0's log.
fn honest(log: &[u8], count: u32) -> Option<Sight<'_>> {
    let (front, _rest) = split_log(log, count)?;
    let names = b"d G0:2\ne G0:3\nf G0:4\n".get(..(count as usize).saturating_mul(7))?;
    Some(Sight {
        log: front,
        last: [u64::from(count), 0, 0],
        names,
    })
}

// What an honest server shows of the fork.
fn forked(log: &[u8]) -> Sight<'_> {
    Sight {
        log,
        last: [1, 3, 2],
        names: b"d G0:2\n",
    }
}

impl Case<'_> {
    // A server that shows what the client holds, and then the truth.
    fn honest_server(&self, alloc: Global) -> Option<Liar> {
        let mut liar = Liar::new(alloc);
        liar.add(alloc, &self.truth)?;
        liar.add(alloc, &self.held)?;
        Some(liar)
    }

    // Behind this step of a server the client refuses what it is shown.
    fn refuses<R>(&self, rt: &R, alloc: Global, step: Step, refusal: &[u8]) -> Option<()>
    where
        R: Net<Listener = TcpListener, Stream = TcpStream> + Threads + Abort + Clock + Sync,
    {
        let mut liar = self.honest_server(alloc)?;
        liar.add_lie(alloc, &self.truth, step)?;
        self.is_lied_to(rt, alloc, liar, 1, &[refusal])
    }

    // Of a server that is mute over three links the client is told nothing, at two lines.
    fn hears_nothing<R>(&self, rt: &R, alloc: Global) -> Option<()>
    where
        R: Net<Listener = TcpListener, Stream = TcpStream> + Threads + Abort + Clock + Sync,
    {
        let mut liar = self.honest_server(alloc)?;
        for _ in 0..3 {
            liar.add_lie(alloc, &self.truth, Step::Mute)?;
        }
        let refusal = b"no 43 LinkFailed\n".as_slice();
        self.is_lied_to(rt, alloc, liar, 4, &[refusal, refusal])
    }

    // The client meets a server over so many links that shows it what it holds, and then lies.
    fn is_lied_to<R>(
        &self,
        rt: &R,
        alloc: Global,
        liar: Liar,
        links: u32,
        refusals: &[&[u8]],
    ) -> Option<()>
    where
        R: Net<Listener = TcpListener, Stream = TcpStream> + Threads + Abort + Clock + Sync,
    {
        let mut liar = liar;
        liar.add(alloc, &self.held)?;
        let listener = listen(rt).ok()?;
        let at = listener.local_addr().ok()?;
        let (client, served) = join(
            rt,
            || self.stays_as_it_is(rt, alloc, at, refusals),
            || serve_lies(alloc, &listener, &mut liar, links).ok(),
        );
        served?;
        client
    }

    // The client reads what it holds, refuses what it is shown then at one line after the other,
    // saves what it held, and takes the truth.
    fn stays_as_it_is<R>(
        &self,
        rt: &R,
        alloc: Global,
        at: SocketAddr,
        refusals: &[&[u8]],
    ) -> Option<()>
    where
        R: Net<Listener = TcpListener, Stream = TcpStream> + Threads + Abort + Clock + Sync,
    {
        let (mut person, _count) = returning(rt, alloc, self.user, at, self.held.log)?;
        prints(rt, alloc, &mut person, b"ls /\n", self.held.names)?;
        for refusal in refusals {
            prints(rt, alloc, &mut person, b"ls /\n", refusal)?;
        }
        prints(rt, alloc, &mut person, b"save log\n", b"")?;
        assert!(rt; person.take_saved(alloc).as_slice() == self.held.log);
        prints(rt, alloc, &mut person, b"ls /\n", self.truth.names)
    }
}

#[test]
fn who_holds_one_commit_is_lied_to(rt: HostRuntime) -> Result<(), Fail> {
    let log = honest_log(&rt, rt.alloc()).ok_or("no log")?;
    behind_one(&rt, rt.alloc(), &log).ok_or("a row failed")?;
    Ok(())
}

fn behind_one<R>(rt: &R, alloc: Global, log: &[u8]) -> Option<()>
where
    R: Net<Listener = TcpListener, Stream = TcpStream> + Threads + Abort + Clock + Sync,
{
    let (_commit, item) = record_behind(log, 1)?;
    let case = Case {
        user: 1,
        held: honest(log, 1)?,
        truth: honest(log, 3)?,
    };
    case.refuses(rt, alloc, Step::Swap(2, 3), b"no 34 WrongPrev 1\n")?;
    case.refuses(rt, alloc, Step::Drop(2), b"no 34 WrongPrev 1\n")?;
    case.refuses(rt, alloc, Step::Forge(2), b"no 33 BadSignature\n")?;
    let wrong = Step::WrongBlock(digest_of(item));
    case.refuses(rt, alloc, wrong, b"no 6 WrongBlock\n")
}

#[test]
fn a_server_falls_mute(rt: HostRuntime) -> Result<(), Fail> {
    let log = honest_log(&rt, rt.alloc()).ok_or("no log")?;
    silence(&rt, rt.alloc(), &log).ok_or("the row failed")?;
    Ok(())
}

fn silence<R>(rt: &R, alloc: Global, log: &[u8]) -> Option<()>
where
    R: Net<Listener = TcpListener, Stream = TcpStream> + Threads + Abort + Clock + Sync,
{
    let case = Case {
        user: 1,
        held: honest(log, 1)?,
        truth: honest(log, 3)?,
    };
    case.hears_nothing(rt, alloc)
}

#[test]
fn who_holds_three_commits_is_lied_to(rt: HostRuntime) -> Result<(), Fail> {
    let log = honest_log(&rt, rt.alloc()).ok_or("no log")?;
    let fork = forked_log(&rt, rt.alloc(), &log).ok_or("no fork")?;
    behind_three(&rt, rt.alloc(), &log, &fork).ok_or("a row failed")?;
    Ok(())
}

// Of another third commit a client that holds three sees that its own isn't shown, as it takes none.
fn behind_three<R>(rt: &R, alloc: Global, log: &[u8], fork: &[u8]) -> Option<()>
where
    R: Net<Listener = TcpListener, Stream = TcpStream> + Threads + Abort + Clock + Sync,
{
    let other = shown_behind(alloc, fork, 2)?;
    let again = shown_behind(alloc, log, 2)?;
    let case = Case {
        user: 0,
        held: honest(log, 3)?,
        truth: honest(log, 3)?,
    };
    case.refuses(rt, alloc, Step::RollBack(2), b"no 40 OwnMissing\n")?;
    case.refuses(rt, alloc, Step::Fork(3, other), b"no 40 OwnMissing\n")?;
    case.refuses(rt, alloc, Step::Fork(4, again), b"no 34 WrongPrev 3\n")
}

#[test]
fn users_of_a_fork_refuse_each_other(rt: HostRuntime) -> Result<(), Fail> {
    let log = honest_log(&rt, rt.alloc()).ok_or("no log")?;
    let fork = forked_log(&rt, rt.alloc(), &log).ok_or("no fork")?;
    third_commits(&rt, rt.alloc(), &log, &fork).ok_or("a row failed")?;
    Ok(())
}

// User 0 is shown the third commit of the fork, and user 1, who made that, user 0's third.
fn third_commits<R>(rt: &R, alloc: Global, log: &[u8], fork: &[u8]) -> Option<()>
where
    R: Net<Listener = TcpListener, Stream = TcpStream> + Threads + Abort + Clock + Sync,
{
    let (of_one, of_zero) = (shown_behind(alloc, fork, 2)?, shown_behind(alloc, log, 2)?);
    let zero = Case {
        user: 0,
        held: honest(log, 2)?,
        truth: honest(log, 3)?,
    };
    zero.refuses(rt, alloc, Step::Fork(3, of_one), b"no 34 WrongPrev 2\n")?;
    let one = Case {
        user: 1,
        held: forked(fork),
        truth: forked(fork),
    };
    one.refuses(rt, alloc, Step::Fork(4, of_zero), b"no 34 WrongPrev 3\n")
}
