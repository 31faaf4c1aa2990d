// The sessions of a listener.
ghost use Rattle.std.specs.Prelude.{◌≡◌, ◌<◌, length, IfSome};
ghost use Rattle.std.specs.Iterator.{at_most};

use crate::crowds::Crowd;
use crate::stops::Stop;
use crate::watched::{LOOKS_A_SECOND, Patience, Watched};
use std::alloc::Global;
use std::io::Write;
use std::net::{OpenListener, OpenStream};
use std::time::{Clock, Duration};
use std::{io, thread};
use su_bytes::Refusal;
use su_session::refuse;
use su_threads::Duplex;

/// How many connections in a row may fail before no more are awaited. Behind each of them the
/// server waits for 10 ms.
pub const MOST_FAILURES: u32 = 1000;

/// How many connections wait for a worker at most, before others wait with the system.
const MOST_WAITING: usize = 64;

/// After how many rounds of 100 ms a connection that waits for a worker is refused: 10 seconds.
const MOST_ROUNDS: u32 = 100;

/// How many seconds a write waits for a peer that doesn't read. One that takes nothing in that time
/// ends the session; as a message can take a few writes until the link is full, that is after some
/// half a minute.
const WRITES_FOR_SECONDS: u64 = 10;

/// A connection that waits for a worker, and for how many rounds it has.
#[derive(Drop)]
struct Waiting<S> {
    stream: S,
    rounds: u32,
}

/// The connections that a listener is offered, as sessions: so many, and then no more. Each begins
/// once a worker is free, first those that have sent something. Where none is for 10 seconds, the
/// connection is refused with `Busy`, and is no session; sessions that are silent make room meanwhile.
/// What fails while it is accepted is no session either; after `MOST_FAILURES` such failures in a row
/// no more come, nor once the server is to end.
#[derive(Drop)]
pub struct Connections<'a, L: OpenListener, C> {
    listener: &'a L,
    clock: &'a C,
    alloc: Global,
    stop: &'a Stop,
    crowd: &'a Crowd,
    patience: Patience,
    left: u32,
    waiting: Vec<Waiting<L::Stream>>,
}

impl<'a, L: OpenListener, C: Clock> Connections<'a, L, C>
where
    L::Stream: OpenStream + Write,
{
    /// Makes the sessions of the next `count` connections, each with a worker of the crowd.
    pub fn new(
        alloc: Global,
        listener: &'a L,
        clock: &'a C,
        stop: &'a Stop,
        crowd: &'a Crowd,
        patience: Patience,
        count: u32,
    ) -> Connections<'a, L, C>
        ensures { result.left ≡ count }
    {
        Connections {
            listener,
            clock,
            alloc,
            stop,
            crowd,
            patience,
            left: count,
            waiting: Vec::new(alloc),
        }
    }

    /// Waits until a connection comes. Returns whether more are to be awaited.
    fn await_first(&mut self) -> bool
        ensures { self.new.left ≡ self.old.left }
    {
        if self.listener.set_nonblocking(false).is_err() {
            return false;
        }
        for _ in 0..MOST_FAILURES {
            let accepted = self.listener.accept();
            if self.stop.is_set() {
                return false;
            }
            if let Ok((stream, _peer)) = accepted {
                self.line_up(stream);
                return true;
            }
            thread::sleep(self.clock, Duration::from_millis(10));
        }
        false
    }

    /// Lets a connection wait. Where there is no memory for that, it is closed.
    fn line_up(&mut self, stream: L::Stream)
        ensures { self.new.left ≡ self.old.left }
    {
        let _ = self.waiting.push(Waiting { stream, rounds: 0 });
    }

    /// Takes those that have come besides, as far as there is room, and waits for 100 ms. Returns
    /// whether more are to be awaited.
    fn await_round(&mut self) -> bool
        ensures { self.new.left ≡ self.old.left }
    {
        if self.listener.set_nonblocking(true).is_err() {
            return false;
        }
        for _ in self.waiting.len()..MOST_WAITING {
            match self.listener.accept() {
                Ok((stream, _peer)) => self.line_up(stream),
                Err(_) => break,
            }
        }
        thread::sleep(self.clock, Duration::from_millis(100));
        count_round(&mut self.waiting);
        !self.stop.is_set()
    }

    /// Refuses the connections that have waited for too long, from the one that came first on.
    fn refuse_late(&mut self)
        ensures { self.new.left ≡ self.old.left }
    {
        for _ in 0..MOST_WAITING {
            match self.waiting.first() {
                Some(waiting) if MOST_ROUNDS <= waiting.rounds => {}
                _ => return,
            }
            let Waiting {
                mut stream,
                rounds: _,
            } = self.waiting.remove(0);
            let soon = Some(Duration::from_millis(100));
            if stream.set_write_timeout(soon).is_ok() {
                refuse(self.alloc, Refusal::Busy(u16::MAX), &mut stream);
            }
        }
    }

    /// Begins the session of a connection, if a worker is free: of the one that came first of those
    /// that have sent something, or else of all. `None` also where its stream fails.
    fn begin(&mut self) -> Option<Session<'a, L::Stream>>
        ensures { self.new.left ≡ self.old.left }
    {
        if self.waiting.is_empty() || !self.crowd.enter() {
            return None;
        }
        let first = first_that_sent(&self.waiting).unwrap_or(0);
        let Waiting {
            stream: writer,
            rounds: _,
        } = self.waiting.remove(first);
        match reader_of(&writer) {
            Ok(stream) => {
                let reader = Watched::new(stream, self.stop, self.crowd, self.patience);
                Some(Duplex { reader, writer })
            }
            Err(_) => {
                self.crowd.leave();
                None
            }
        }
    }
}

/// Counts a round more for each connection that waits.
fn count_round<S>(waiting: &mut [Waiting<S>]) {
    for connection in waiting {
        connection.rounds = connection.rounds.saturating_add(1);
    }
}

/// Finds the first connection whose peer has sent something.
fn first_that_sent<S: OpenStream>(waiting: &[Waiting<S>]) -> Option<usize>
    ensures { IfSome result (λ index. index < length waiting.now) }
{
    waiting.iter().position(|one| has_sent(&one.stream))
}

/// Whether something that a peer has sent waits to be read.
fn has_sent<S: OpenStream>(stream: &S) -> bool {
    let mut byte = [0u8; 1];
    stream.set_nonblocking(true).is_ok() && matches!(stream.peek(&mut byte), Ok(1))
}

/// A session with a worker: its two ends are two handles of one stream.
type Session<'a, S> = Duplex<Watched<'a, S>, S>;

/// Makes the reading handle of a stream. Small replies leave at once, a read ends for a look, and a
/// write for a peer that doesn't read.
fn reader_of<S: OpenStream>(writer: &S) -> io::Result<S> {
    writer.set_nonblocking(false)?;
    writer.set_nodelay(true)?;
    let look = Duration::from_millis(u64::from(1000 / LOOKS_A_SECOND));
    writer.set_read_timeout(Some(look))?;
    writer.set_write_timeout(Some(Duration::from_secs(WRITES_FOR_SECONDS)))?;
    writer.try_clone()
}

impl<'a, L: OpenListener, C: Clock> Iterator for Connections<'a, L, C>
where
    L::Stream: OpenStream + Write,
{
    type Item = Session<'a, L::Stream>;

    ghost remaining = { λ s. at_most s.left };

    fn next(&mut self) -> Option<Session<'a, L::Stream>> {
        if self.left == 0 {
            return None;
        }
        self.left -= 1;
        for _ in 0..u64::MAX {
            if self.waiting.is_empty() && !self.await_first() {
                break;
            }
            if let Some(session) = self.begin() {
                return Some(session);
            }
            if !self.waiting.is_empty() && !self.await_round() {
                break;
            }
            self.refuse_late();
        }
        self.left = 0;
        None
    }
}
