// A log, portion by portion.
ghost use Rattle.std.specs.Prelude.{◌<◌, ◌≤◌, length, IfSome};

use std::alloc::{AllocError, Global};
use std::io;
use std::io::Read;

/// How many bytes are read of a log before a portion of it is given.
const PORTION: usize = 262_144;

/// How many bytes are read at a time.
const STEP: usize = 65_536;

/// A log that is read in portions of whole entries, so that no memory holds all of it.
#[derive(Drop)]
pub(crate) struct Portions<R> {
    reader: R,
    /// What was read, and how many bytes of it were given.
    bytes: Vec<u8>,
    given: usize,
    has_ended: bool,
}

impl<R: Read> Portions<R> {
    /// Makes it of what reads the log.
    pub fn new(alloc: Global, reader: R) -> Portions<R> {
        Portions {
            reader,
            bytes: Vec::new(alloc),
            given: 0,
            has_ended: false,
        }
    }

    /// Returns the next portion, which has whole entries; none at the end of the log. The last one
    /// may end in an entry that is cut; and where the length of an entry can't be, the portion goes
    /// on behind that as far as it was read. Fails where the log can't be read, or memory is
    /// refused.
    pub fn next(&mut self, alloc: Global) -> io::Result<Option<&[u8]>> {
        self.bytes = behind(alloc, &self.bytes, self.given)?;
        self.fill(alloc)?;
        let whole = whole_entries(&self.bytes);
        self.given = if self.has_ended || whole == 0 {
            self.bytes.len()
        } else {
            whole
        };
        if self.given == 0 {
            return Ok(None);
        }
        Ok(self.bytes.get(..self.given))
    }

    /// Reads until there is a portion, or the log ends.
    fn fill(&mut self, alloc: Global) -> io::Result<()> {
        let mut step = vec![in alloc; 0u8; STEP]?;
        for _ in 0..PORTION {
            if self.has_ended || PORTION <= self.bytes.len() {
                return Ok(());
            }
            let count = self.reader.read(&mut step)?;
            self.has_ended = count == 0;
            if let Some(read) = step.get(..count) {
                self.bytes.extend_from_slice(read)?;
            }
        }
        Ok(())
    }
}

/// Returns a copy of the bytes behind so many.
fn behind(alloc: Global, bytes: &[u8], count: usize) -> Result<Vec<u8>, AllocError> {
    match bytes.get(count..) {
        Some(rest) => Vec::from_slice(alloc, rest),
        None => Ok(Vec::new(alloc)),
    }
}

/// Returns how many of these bytes are whole entries of a log.
fn whole_entries(bytes: &[u8]) -> usize {
    let mut end = 0;
    for _ in 0..bytes.len() {
        let Some(next) = entry_end(bytes, end) else {
            return end;
        };
        end = next;
    }
    end
}

/// Returns where the entry of a log ends that begins there, if it does: a commit and an item, each
/// behind its length.
fn entry_end(bytes: &[u8], start: usize) -> Option<usize> {
    let item = part_end(bytes, start)?;
    part_end(bytes, item)
}

/// Returns where the part of an entry ends that begins there, if it does.
fn part_end(bytes: &[u8], start: usize) -> Option<usize>
    ensures { IfSome result (λ end. end ≤ length bytes.now) }
{
    let (size, behind) = bytes.get(start..)?.split_first_chunk::<4>()?;
    let size = u32::from_be_bytes(*size) as usize;
    if behind.len() < size {
        return None;
    }
    Some(bytes.len() - behind.len() + size)
}
