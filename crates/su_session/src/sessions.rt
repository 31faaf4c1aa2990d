// Sessions over a reader and a writer.
ghost use Rattle.std.specs.Prelude.{◌≡◌, ◌+◌, ◌<◌, ◌≤◌, ℕ, List, length, IfOk, Option};
ghost use Rattle.std.specs.Io.KnownBytes.{ReadConsumes};
ghost use Rattle.su_session.specs.Session.{Serves, Session};
ghost use Rattle.su_session.specs.Step.{at, Readies, Refills, Steps};

use crate::exchanges::{exchange, give_back, refuse};
use crate::incoming::Incoming;
use crate::services::Service;
use crate::talks::Talk;
use std::alloc::Global;
use std::io;
use std::io::{ErrorKind, Read, Write};
use su_frames::{Frames, Sent};

/// How often a reader is read at most.
pub const MOST_READS: u32 = 10_000_000;

/// Bytes that are asked for in one read.
const CHUNK: usize = 4096;

/// How a session ended.
#[derive(Clone, Copy, Debug, PartialEq, Eq)]
pub enum End {
    /// The input ended behind whole messages.
    Closed,
    /// The input ended inside a message.
    Cut,
    /// A length of 0, or above the longest, was refused.
    Refused,
    /// A read failed.
    ReadFailed,
    /// A write failed, or there was no memory for the session itself.
    LinkFailed,
    /// The reader was read as often as it may be, and each time there came at least a byte.
    Spent,
}

/// What became of a session.
#[derive(Clone, Copy, Debug, PartialEq, Eq)]
pub struct Served {
    /// How many messages there were whose reply was written whole.
    pub answered: u64,
    /// How it ended.
    pub end_: End,
}

/// What one step of a session did.
#[derive(Clone, Copy)]
enum Progress {
    /// A message was answered.
    Answered,
    /// No whole message stands next.
    Waits,
    /// The session has ended.
    Ends(End),
}

/// What one read did.
#[derive(Clone, Copy)]
enum Refill {
    /// There may be more.
    More,
    /// The input has ended.
    Ended,
    /// The read failed.
    Failed,
    /// There was no memory for what came.
    Lost,
}

/// Serves a session: the service answers each message of the reader, in order, and each reply is
/// written before the next message is answered. A message that can't be read is answered by its
/// refusal; a length that no message has, by its refusal, and then the session ends. A turn that is
/// held at the end is given back.
pub fn serve<R: Incoming, W: Write, S: Service>(
    alloc: Global,
    reader: &mut R,
    writer: &mut W,
    service: &mut S,
) -> Served
    ensures { Serves S.answers service.old (R.remaining reader.old) (W.contents writer.old)
        result service.new (R.remaining reader.new) (W.contents writer.new) }
{
    let mut talk = Talk {
        frames: Frames::new(alloc),
        answered: 0,
        turn: false,
        was_free: false,
        reads: 0,
    };
    let end = talk.converse(alloc, reader, writer, service);
    give_back(alloc, talk.turn, service);
    Served {
        answered: talk.answered,
        end_: end,
    }
}

impl Talk {
    /// Answers all messages of a reader.
    fn converse<R: Incoming, W: Write, S: Service>(
        &mut self,
        alloc: Global,
        reader: &mut R,
        writer: &mut W,
        service: &mut S,
    ) -> End
        requires { self.old.reads ≡ 0 }
        ensures { Session S.answers
            (at service.old self.old (R.remaining reader.old) (W.contents writer.old)) result
            (at service.new self.new (R.remaining reader.new) (W.contents writer.new)) }
    {
        for _ in 0..MOST_READS {
            if let Some(end) = self.answer_ready(alloc, writer, service) {
                return end;
            }
            match self.refill(reader) {
                Refill::More => {}
                Refill::Ended => {
                    if self.frames.waiting().is_empty() {
                        return End::Closed;
                    }
                    return End::Cut;
                }
                Refill::Failed => return End::ReadFailed,
                Refill::Lost => return End::LinkFailed,
            }
        }
        match self.answer_ready(alloc, writer, service) {
            Some(end) => end,
            None => End::Spent,
        }
    }

    /// Answers all whole messages that have come.
    fn answer_ready<W: Write, S: Service>(
        &mut self,
        alloc: Global,
        writer: &mut W,
        service: &mut S,
    ) -> Option<End>
        ensures reads { self.new.reads ≡ self.old.reads }
        // Whatever the reader has left.
        ensures says { (known : Option (List ℕ)) → Readies S.answers
            (at service.old self.old known (W.contents writer.old)) result
            (at service.new self.new known (W.contents writer.new)) }
    {
        loop {
            match self.step(alloc, writer, service) {
                Progress::Answered => {}
                Progress::Waits => return None,
                Progress::Ends(end) => return Some(end),
            }
        }
    }

    /// Answers the message that stands next, if it has come whole.
    fn step<W: Write, S: Service>(
        &mut self,
        alloc: Global,
        writer: &mut W,
        service: &mut S,
    ) -> Progress
        ensures reads { self.new.reads ≡ self.old.reads }
        // Whatever the reader has left.
        ensures says { (known : Option (List ℕ)) → Steps S.answers
            (at service.old self.old known (W.contents writer.old)) result
            (at service.new self.new known (W.contents writer.new)) }
    {
        match self.frames.next() {
            Ok(None) => Progress::Waits,
            Ok(Some(message)) => {
                match exchange(alloc, message.as_slice(), &mut self.turn, writer, service) {
                    Sent::Whole => {
                        self.answered += 1;
                        self.was_free |= !self.turn;
                        Progress::Answered
                    }
                    Sent::Unflushed => {
                        self.answered += 1;
                        Progress::Ends(End::LinkFailed)
                    }
                    Sent::Broken => Progress::Ends(End::LinkFailed),
                }
            }
            Err(_) => match self.frames.failed() {
                Some(refusal) => Progress::Ends(refuse(alloc, refusal, writer)),
                None => Progress::Ends(End::LinkFailed),
            },
        }
    }

    /// Reads once, where no whole message waits, and tells before whether the turn is held, and
    /// that it was given back where one read brought that and the request for the next turn.
    fn refill<R: Incoming>(&mut self, reader: &mut R) -> Refill
        requires few { self.old.reads < 10000000 }
        requires partial { length self.old.frames < 131076 }
        ensures bytes { Refills self.old (R.remaining reader.old) result
            self.new (R.remaining reader.new) }
        ensures reads { self.new.reads ≡ self.old.reads + 1 }
    {
        self.reads += 1;
        if self.was_free {
            reader.note_turn(false);
        }
        reader.note_turn(self.turn);
        self.was_free = false;
        let mut chunk = [0u8; CHUNK];
        match read_anew(reader, &mut chunk) {
            Ok(0) => Refill::Ended,
            Ok(count) => match self.frames.feed(&chunk[..count]) {
                Ok(()) => Refill::More,
                Err(_) => Refill::Lost,
            },
            Err(_) => Refill::Failed,
        }
    }
}

/// Reads, and anew where that is interrupted; as often as a session reads at most.
fn read_anew<R: Read>(reader: &mut R, chunk: &mut [u8; CHUNK]) -> io::Result<usize>
    ensures bound { IfOk result (λ count. count ≤ 4096) }
    ensures bytes { ReadConsumes (R.remaining reader.old) (R.remaining reader.new) result chunk.new }
{
    for _ in 0..MOST_READS {
        match reader.read(chunk) {
            Err(error) if error.kind() == ErrorKind::Interrupted => {}
            told => return told,
        }
    }
    Err(io::Error::from(ErrorKind::Interrupted))
}
