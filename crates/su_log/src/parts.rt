// Reading a log, part by part.
ghost use Rattle.std.specs.Prelude.{◌≡◌, ◌<◌, ◌≤◌, ◌^◌, ◌⊎◌, ℕ, List, Some, length, take, IfOk, MatchOption};
ghost use Rattle.std.specs.Io.KnownBytes.{Consumes, IsAtEnd};
ghost use Rattle.su_format.specs.Part.{u32_bytes};
ghost use Rattle.su_log.specs.Log.{Reads};

use std::alloc::Global;
use std::io;
use std::io::{ErrorKind, Read};

/// How often a reader is read at most for one part.
const MOST_READS: u32 = 10_000_000;

/// Bytes asked for in one read.
const CHUNK: usize = 4096;

/// What comes next in a log.
#[derive(Drop)]
pub(crate) enum Part {
    /// Bytes, whose number stood before them.
    Bytes(Vec<u8>),
    /// No whole part: its number is cut, or goes past the end.
    Cut,
    /// The end.
    End,
}

/// Reads the next part of a log: the number of its bytes (`u32`), and these. It keeps no more room
/// than bytes are there. Fails where the reader fails or never ends, or there is no memory.
pub(crate) fn next_part<R: Read>(alloc: Global, reader: &mut R) -> io::Result<Part>
    ensures { IfOk result (λ part. (input : List ℕ) → R.remaining reader.old ≡ Some input
        → Reads part input (R.remaining reader.new)) }
{
    let number = read_up_to(alloc, reader, 4)?;
    let Some(size) = size_in(number.as_slice()) else {
        return Ok(if number.is_empty() {
            Part::End
        } else {
            Part::Cut
        });
    };
    let bytes = read_up_to(alloc, reader, size)?;
    if bytes.len() < size {
        return Ok(Part::Cut);
    }
    Ok(Part::Bytes(bytes))
}

/// The number that the first four bytes spell, if there are four.
fn size_in(bytes: &[u8]) -> Option<usize>
    ensures { MatchOption result (length bytes.now < 4) (λ size. (4 ≤ length bytes.now)
        × (u32_bytes size ≡ take 4 bytes.now) × (size < 2 ^ 32)) }
{
    let (number, _) = bytes.split_first_chunk::<4>()?;
    Some(number_in(number))
}

/// The number that these bytes spell.
fn number_in(bytes: &[u8; 4]) -> usize
    ensures spelled { u32_bytes result ≡ bytes.now }
    ensures small { result < 2 ^ 32 }
{
    u32::from_be_bytes(*bytes) as usize
}

/// Reads so many bytes, or fewer where the input ends before.
fn read_up_to<R: Read>(alloc: Global, reader: &mut R, count: usize) -> io::Result<Vec<u8>>
    ensures bytes { IfOk result (λ bytes.
        Consumes (R.remaining reader.old) (R.remaining reader.new) bytes.items) }
    ensures all { IfOk result (λ bytes. (length bytes.items ≡ count)
        ⊎ ((length bytes.items < count) × IsAtEnd (R.remaining reader.new))) }
{
    let mut bytes = Vec::new(alloc);
    for _read in 0..MOST_READS {
        let missing = count - bytes.len();
        if missing == 0 {
            return Ok(bytes);
        }
        let mut chunk = [0u8; CHUNK];
        match reader.read(&mut chunk[..missing.min(CHUNK)]) {
            Ok(0) => return Ok(bytes),
            Ok(got) => bytes.extend_from_slice(&chunk[..got])?,
            Err(error) if error.kind() == ErrorKind::Interrupted => {}
            Err(error) => return Err(error),
        }
    }
    Err(io::Error::other("it has no end"))
}
