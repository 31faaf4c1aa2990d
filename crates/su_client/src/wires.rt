// What a link reads and writes.
ghost use Rattle.std.specs.Prelude.{◌≡◌, ◌<◌, [], false, true, length};
ghost use Rattle.su_client.specs.Asking.{Fetches, Hearing, Refills, Sending, Writing};

use std::alloc::Global;
use std::io::{ErrorKind, Read, Write};
use std::marker::Model;
use su_frames::{Frames, Sent, send};
use su_message::Reply;

/// How often the link is written to at most for one message.
const MOST_WRITES: u32 = 10_000_000;

/// How often in a row the writer may take nothing, or the reader bring nothing.
const MOST_WAITS: u32 = 600;

/// How often the link is read at most for one reply.
const MOST_READS: u32 = 10_000_000;

/// Bytes that are asked for in one read.
const CHUNK: usize = 8192;

/// The reader and the writer of a link, with what has come and isn't used yet.
#[derive(Drop)]
pub(crate) struct Wire<R: Read, W: Write> {
    reader: R,
    writer: W,
    frames: Frames,
    failed: bool,
    /// How often in a row nothing came.
    waits: u32,
    alloc: Global,
}

impl<R: Read, W: Write> Model for Wire<R, W> {
    ghost use Rattle.su_client.specs.Link.{LinkState};

    ghost Value = { LinkState };

    ghost view = { λ l. record {
      known = R.remaining l.reader;
      held = W.contents l.writer;
      waits = l.frames;
      failed = l.failed;
    } };
}

impl<R: Read + Drop, W: Write + Drop> Wire<R, W> {
    /// Makes it of a reader and a writer.
    pub fn new(alloc: Global, reader: R, writer: W) -> Wire<R, W>
        ensures { result ≡ record {
          known = R.remaining reader;
          held = W.contents writer;
          waits = [];
          failed = false;
        } }
    {
        Wire {
            reader,
            writer,
            frames: Frames::new(alloc),
            failed: false,
            waits: 0,
            alloc,
        }
    }

    /// Tells whether the link has failed.
    pub fn has_failed(&self) -> bool
        ensures { result ≡ self.now.failed }
    {
        self.failed
    }

    /// Writes a message whole. Where the writer takes nothing for a while, and replies are on their
    /// way, what has come of them is read meanwhile: the server may wait to be rid of them. False
    /// where the link fails, or there is no memory.
    pub fn send(&mut self, message: &[u8], are_replies_due: bool) -> bool
        ensures { Sending message.now self.old result self.new }
    {
        let mut bytes = Vec::new(self.alloc);
        let Sent::Whole = send(self.alloc, message, &mut bytes) else {
            return false;
        };
        self.write_whole(bytes.as_slice(), are_replies_due)
    }

    /// Writes all these bytes.
    fn write_whole(&mut self, bytes: &[u8], are_replies_due: bool) -> bool
        requires { 0 < length bytes.now }
        ensures { Writing bytes.now self.old result self.new }
    {
        let mut done = 0;
        let mut waits = 0u32;
        for _ in 0..MOST_WRITES {
            match self.writer.write(&bytes[done..]) {
                Ok(0) => return false,
                Ok(count) => {
                    done += count;
                    waits = 0;
                    if done == bytes.len() {
                        return self.writer.flush().is_ok();
                    }
                }
                Err(error) => {
                    if !self.make_room(error.kind(), waits, are_replies_due) {
                        return false;
                    }
                    waits = waits.saturating_add(1);
                }
            }
        }
        false
    }

    /// Makes room where a write failed so, after so many in a row: reads once, if replies are on
    /// their way (all that are due may have come: then nothing does, for a while). False where there
    /// is nothing to wait for any more, or reading fails.
    fn make_room(&mut self, kind: ErrorKind, waits: u32, are_replies_due: bool) -> bool
        ensures { Refills self.old result self.new }
    {
        match kind {
            _ if MOST_WAITS < waits => false,
            ErrorKind::Interrupted => true,
            ErrorKind::WouldBlock if are_replies_due => self.refill(),
            ErrorKind::WouldBlock => true,
            _ => false,
        }
    }

    /// Reads the reply that comes next. None where the link fails, what comes is no reply, or there
    /// is no memory for it.
    pub fn reply(&mut self) -> Option<Reply>
        ensures { Hearing self.old result self.new }
    {
        let answer = self.next_message()?;
        match Reply::decode(self.alloc, answer.as_slice()) {
            Ok(reply) => Some(reply),
            Err(_) => None,
        }
    }

    /// Reads the message that comes next. None where the link fails or ends before it, or there is
    /// no memory for it.
    fn next_message(&mut self) -> Option<Vec<u8>>
        ensures { Fetches self.old result self.new }
    {
        for _ in 0..MOST_READS {
            match self.frames.next() {
                Ok(Some(message)) => return Some(message),
                Ok(None) => {}
                Err(_) => return None,
            }
            if !self.refill() {
                return None;
            }
        }
        None
    }

    /// Reads once. False where the input has ended, the read failed, nothing has come for long, or
    /// there is no memory for what came.
    fn refill(&mut self) -> bool
        ensures { Refills self.old result self.new }
    {
        let mut chunk = [0u8; CHUNK];
        match self.reader.read(&mut chunk) {
            Ok(0) => false,
            Ok(count) => {
                self.waits = 0;
                match self.frames.feed(&chunk[..count]) {
                    Ok(()) => true,
                    Err(_) => false,
                }
            }
            Err(error) => self.goes_on(error.kind()),
        }
    }

    /// Tells whether to read again where a read failed so.
    fn goes_on(&mut self, kind: ErrorKind) -> bool
        ensures { self.new ≡ self.old }
    {
        match kind {
            ErrorKind::Interrupted => true,
            ErrorKind::WouldBlock => {
                self.waits = self.waits.saturating_add(1);
                self.waits <= MOST_WAITS
            }
            _ => false,
        }
    }

    /// Lets the link have failed.
    pub fn fail(&mut self)
        ensures { self.new ≡ record self.old { failed = true } }
    {
        self.failed = true;
    }
}
