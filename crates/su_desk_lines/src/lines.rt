// Reading lines from any reader, as they come.
ghost use Rattle.std.specs.Prelude.{◌≡◌, ◌<◌, ◌≤◌, [], drop, vec_len, Some, true, IfOk, OnOk, MatchOption, slice_get, take};
ghost use Rattle.std.specs.Bool.{OnFalse};
ghost use Rattle.std.specs.Io.KnownBytes.{prepend_known};
ghost use Rattle.su_desk_lines.specs.Lines.{is_unbroken, Takes, Refills, Reads};

use memchr::memchr;
use std::alloc::{AllocError, Global};
use std::io;
use std::io::{ErrorKind, Read};

/// Bytes of the longest line, its end not counted.
pub const LONGEST_LINE: usize = 140_000;

/// How often a reader is read at most.
const MOST_READS: u32 = 10_000_000;

/// Bytes asked for in one read.
const CHUNK: usize = 4096;

/// What comes next in a script.
#[derive(Drop)]
pub enum NextLine {
    /// A line, without its end.
    Line(Vec<u8>),
    /// A line of more than `LONGEST_LINE` bytes, which is not kept.
    TooLong,
    /// No line is left.
    End,
}

/// Takes a reader's bytes line by line. What was read beyond a line is kept for the next.
#[derive(Drop)]
pub struct LineReader<R> {
    reader: R,
    filled: Vec<u8>,
    start: usize,
    reads_left: u32,
    alloc: Global,
    ghost within: { start ≤ vec_len filled },
}

impl<R: Read + Drop> LineReader<R> {
    ghost use Rattle.su_desk_lines.specs.Unread.{unread};

    /// Wraps a reader, of which nothing is read yet.
    pub fn new(alloc: Global, reader: R) -> LineReader<R>
        ensures { unread R.remaining result ≡ R.remaining reader }
    {
        LineReader {
            reader,
            filled: Vec::new(alloc),
            start: 0,
            reads_left: MOST_READS,
            alloc,
        }
    }

    /// Reads the next line, and waits for no more bytes than it needs. Fails where the reader fails
    /// or never ends, or where there is no memory for the line.
    pub fn next_line(&mut self) -> io::Result<NextLine>
        ensures { IfOk result (λ next.
            Reads next (unread R.remaining self.old) (unread R.remaining self.new)) }
    {
        let mut line = Vec::new(self.alloc);
        loop {
            let ended = self.take(&mut line)?;
            if LONGEST_LINE < line.len() {
                return Ok(NextLine::TooLong);
            }
            if ended {
                return Ok(NextLine::Line(line));
            }
            if !self.refill()? {
                if line.is_empty() {
                    return Ok(NextLine::End);
                }
                return Ok(NextLine::Line(line));
            }
        }
    }

    /// Moves the bytes that were read to `line`, through the next line feed, which is dropped.
    /// Whether it met one.
    fn take(&mut self, line: &mut Vec<u8>) -> Result<bool, AllocError>
        ensures taken { IfOk result (λ ended. Takes ended line.old.items line.new.items
            (drop self.old.start self.old.filled.items)
            (drop self.new.start self.new.filled.items)) }
        ensures reader { R.remaining self.new.reader ≡ R.remaining self.old.reader }
        ensures reads { self.new.reads_left ≡ self.old.reads_left }
        ensures empty { IfOk result (λ ended.
            OnFalse ended (drop self.new.start self.new.filled.items ≡ [])) }
    {
        let rest = &self.filled[self.start..];
        match line_end(rest) {
            Some(end) => {
                line.extend_from_slice(&rest[..end])?;
                self.start += end + 1;
                Ok(true)
            }
            None => {
                line.extend_from_slice(rest)?;
                self.start = self.filled.len();
                Ok(false)
            }
        }
    }

    /// Reads once, where all that was read is taken. False at the end of the input.
    fn refill(&mut self) -> io::Result<bool>
        requires { drop self.old.start self.old.filled.items ≡ [] }
        ensures bytes { IfOk result (λ more.
            Refills more (R.remaining self.old.reader) (unread R.remaining self.new)) }
        ensures reads { OnOk result (self.new.reads_left < self.old.reads_left) }
    {
        if self.reads_left == 0 {
            return Err(io::Error::other("it has no end"));
        }
        self.reads_left -= 1;
        let mut chunk = [0u8; CHUNK];
        match self.reader.read(&mut chunk) {
            Ok(count) => {
                self.start = 0;
                self.filled.clear();
                self.filled.extend_from_slice(&chunk[..count])?;
                Ok(0 < count)
            }
            Err(error) if error.kind() == ErrorKind::Interrupted => Ok(true),
            Err(error) => Err(error),
        }
    }
}

/// The place of the first line feed, if there is one.
fn line_end(bytes: &[u8]) -> Option<usize>
    ensures { MatchOption result (is_unbroken bytes.now ≡ true) (λ end.
        (slice_get bytes.now end ≡ Some 10) × (is_unbroken (take end bytes.now) ≡ true)) }
{
    memchr(b'\n', bytes)
}
