// Cutting a stream into messages.
ghost use Rattle.std.specs.Prelude.{◌≡◌, ◌≤◌, ◌++◌, [], length, OnOk, OnErr};
ghost use Rattle.su_frames.specs.Stream.{fault, frame, IsMessage, Measures, Nexts};

use std::alloc::{AllocError, Global};
use std::marker::Model;
use su_bytes::Refusal;

/// The longest message, in bytes.
pub const LONGEST_MESSAGE: usize = 131_072;

/// Cuts a stream of bytes into messages, however it arrives. Its model is the bytes that were fed
/// and not yet taken.
#[derive(Drop)]
pub struct Frames {
    bytes: Vec<u8>,
    start: usize,
    alloc: Global,
}

impl Model for Frames {
    ghost use Rattle.std.specs.Prelude.{◌≤◌, ℕ, List, drop, vec_len};

    ghost Value = { List ℕ };

    ghost view = { λ f. drop f.start f.bytes.items };

    ghost invariant = { λ f. f.start ≤ vec_len f.bytes };
}

impl Frames {
    /// Makes one to which nothing was fed.
    pub fn new(alloc: Global) -> Frames
        ensures { result ≡ [] }
    {
        Frames {
            bytes: Vec::new(alloc),
            start: 0,
            alloc,
        }
    }

    /// Adds bytes that arrived. Where there is no memory, it changes nothing. It costs what wasn't
    /// taken yet.
    pub fn feed(&mut self, piece: &[u8]) -> Result<(), AllocError>
        ensures ok { OnOk result (self.new ≡ self.old ++ piece.now) }
        ensures err { OnErr result (self.new ≡ self.old) }
    {
        self.compact();
        self.bytes.extend_from_slice(piece)
    }

    /// Lets go of what was taken.
    fn compact(&mut self)
        ensures { self.new ≡ self.old }
    {
        let left = self.bytes.len() - self.start;
        self.bytes.rotate_left(self.start);
        self.bytes.truncate(left);
        self.start = 0;
    }

    /// Lends the bytes that were fed and not yet taken.
    pub fn waiting(&self) -> &[u8]
        ensures { result.now ≡ self.now }
    {
        &self.bytes[self.start..]
    }

    /// Takes the next message, if it has come whole. `Malformed` (at 0) where the length that
    /// stands next is 0, `TooLong` where it is above `LONGEST_MESSAGE`, and so ever after;
    /// `NoMemory`, where there is none for a message that has come whole. A refusal changes
    /// nothing.
    pub fn next(&mut self) -> Result<Option<Vec<u8>>, Refusal>
        ensures { Nexts self.old result self.new }
    {
        match measure(self.waiting())? {
            Some(size) => {
                let bytes = &self.waiting()[4..4 + size];
                let Ok(message) = Vec::from_slice(self.alloc, bytes) else {
                    return Err(Refusal::NoMemory);
                };
                self.start += 4 + size;
                Ok(Some(message))
            }
            None => Ok(None),
        }
    }

    /// Tells why the length that stands next is refused, if it is.
    pub fn failed(&self) -> Option<Refusal>
        ensures { result ≡ fault self.now }
    {
        match measure(self.waiting()) {
            Ok(_) => None,
            Err(refusal) => Some(refusal),
        }
    }
}

/// How many bytes the message has that stands next, if it has come whole.
fn measure(bytes: &[u8]) -> Result<Option<usize>, Refusal>
    ensures { Measures bytes.now result }
{
    if bytes.len() < 4 {
        return Ok(None);
    }
    let size = u32::from_be_bytes([bytes[0], bytes[1], bytes[2], bytes[3]]) as usize;
    if size == 0 {
        return Err(Refusal::Malformed(0));
    }
    if LONGEST_MESSAGE < size {
        return Err(Refusal::TooLong);
    }
    if bytes.len() < 4 + size {
        return Ok(None);
    }
    Ok(Some(size))
}
