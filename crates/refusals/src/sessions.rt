// A session of ten messages of which a read or a write fails.
use crate::faults::{Fault, Mistake, check};
use std::alloc::Global;
use std::io;
use std::io::{ErrorKind, Read, Write};
use su_message::{Reply, Request};
use su_session::{End, Incoming, Service, serve};

/// A message that gives a turn back, with its length before it.
const MESSAGE: [u8; 5] = [0, 0, 0, 1, 3];

/// How many of them come.
const COUNT: usize = 10;

/// How many bytes a read gives, and a write takes.
const STEP: usize = 3;

/// More reads or writes than a session has.
const MOST_CALLS: usize = 1_000;

/// The reading end of a session, of which one read fails: the one of a number, from 1.
#[derive(Drop)]
struct Ear<'a> {
    rest: &'a [u8],
    /// The number of the read that fails, from now on; 0 where none does.
    left: usize,
}

impl Read for Ear<'_> {
    fn read(&mut self, buf: &mut [u8]) -> io::Result<usize> {
        let is_due = self.left == 1;
        self.left = self.left.saturating_sub(1);
        if is_due {
            return Err(io::Error::from(ErrorKind::ConnectionReset));
        }
        let count = STEP.min(buf.len());
        let Some(step) = buf.get_mut(..count) else {
            return Ok(0);
        };
        self.rest.read(step)
    }
}

impl Incoming for Ear<'_> {}

/// The writing end of a session, of which one write fails: the one of a number, from 1.
#[derive(Drop)]
struct Mouth {
    written: Vec<u8>,
    /// The number of the write that fails, from now on; 0 where none does.
    left: usize,
}

impl Write for Mouth {
    fn write(&mut self, bytes: &[u8]) -> io::Result<usize> {
        let is_due = self.left == 1;
        self.left = self.left.saturating_sub(1);
        if is_due {
            return Err(io::Error::from(ErrorKind::ConnectionReset));
        }
        let step = bytes.get(..STEP).unwrap_or(bytes);
        self.written.extend_from_slice(step)?;
        Ok(step.len())
    }

    fn flush(&mut self) -> io::Result<()> {
        Ok(())
    }
}

/// Replies that the turn is given back, and counts.
#[derive(Drop)]
struct Counting {
    asked: usize,
}

impl Service for Counting {
    ghost answers = { λ _ _ _ _. Unit {0} };

    fn answer(&mut self, _alloc: Global, _request: &Request) -> Reply {
        self.asked = self.asked.saturating_add(1);
        Reply::Given
    }
}

/// What is left of a session.
#[derive(Drop)]
struct Ended {
    asked: usize,
    answered: u64,
    end_: End,
    written: Vec<u8>,
}

/// Serves ten messages, where these calls fail.
fn session(alloc: Global, read: usize, write: usize) -> Result<Ended, Fault> {
    let mut input = Vec::new(alloc);
    for _ in 0..COUNT {
        input.extend_from_slice(&MESSAGE)?;
    }
    let mut ear = Ear {
        rest: &input,
        left: read,
    };
    let mut mouth = Mouth {
        written: Vec::new(alloc),
        left: write,
    };
    let mut service = Counting { asked: 0 };
    let served = serve(alloc, &mut ear, &mut mouth, &mut service);
    Ok(Ended {
        asked: service.asked,
        answered: served.answered,
        end_: served.end_,
        written: mouth.written,
    })
}

/// Lets each read of a session fail: just the messages that stood whole before it were answered, and
/// all that is written are their replies.
pub(crate) fn where_a_read_fails(alloc: Global) -> Result<(), Fault> {
    let whole = session(alloc, 0, 0)?;
    for at in 1..MOST_CALLS {
        let ended = session(alloc, at, 0)?;
        if matches!(ended.end_, End::Closed) {
            return check(COUNT < at && is_whole(&ended), Mistake::Calls);
        }
        check(matches!(ended.end_, End::ReadFailed), Mistake::End)?;
        let came = ((at - 1) * STEP / MESSAGE.len()).min(COUNT);
        check(ended.asked == came, Mistake::Message)?;
        check(ended.answered as usize == came, Mistake::Message)?;
        let told = whole.written.len() / COUNT * came;
        check(
            whole.written.get(..told) == Some(ended.written.as_slice()),
            Mistake::Reply,
        )?;
    }
    Err(Fault::Wrong(Mistake::Calls))
}

/// Lets each write of a session fail: at most one message more was asked than was answered, and what
/// is written is a front of the replies.
pub(crate) fn where_a_write_fails(alloc: Global) -> Result<(), Fault> {
    let whole = session(alloc, 0, 0)?;
    for at in 1..MOST_CALLS {
        let ended = session(alloc, 0, at)?;
        if matches!(ended.end_, End::Closed) {
            return check(COUNT < at && is_whole(&ended), Mistake::Calls);
        }
        check(matches!(ended.end_, End::LinkFailed), Mistake::End)?;
        let answered = ended.answered as usize;
        check(
            ended.asked == answered || ended.asked == answered.saturating_add(1),
            Mistake::Message,
        )?;
        check(
            whole
                .written
                .as_slice()
                .starts_with(ended.written.as_slice()),
            Mistake::Reply,
        )?;
        check(
            (whole.written.len() / COUNT).saturating_mul(answered) <= ended.written.len(),
            Mistake::Reply,
        )?;
    }
    Err(Fault::Wrong(Mistake::Calls))
}

fn is_whole(ended: &Ended) -> bool {
    ended.asked == COUNT && ended.answered as usize == COUNT
}
