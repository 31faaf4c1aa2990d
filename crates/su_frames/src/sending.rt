// Putting messages on a stream.
ghost use Rattle.std.specs.Prelude.{◌≡◌, ◌<◌, ◌≤◌, ℕ, length, take, IfOk, OnOk, OnErr};
ghost use Rattle.std.specs.Io.KnownBytes.{Appends};
ghost use Rattle.su_frames.specs.Sending.{Sends};
ghost use Rattle.su_frames.specs.Stream.{frame, IsMessage};

use crate::frames::LONGEST_MESSAGE;
use std::alloc::{AllocError, Global};
use std::io::{ErrorKind, Write};

/// What became of a message.
#[derive(Clone, Copy)]
pub enum Sent {
    /// It was written.
    Whole,
    /// It was written, and then the link failed.
    Unflushed,
    /// A front of it was written that isn't all, or nothing.
    Broken,
}

/// The link took a front of the bytes alone, or none.
#[derive(Clone, Copy)]
struct WriteFault;

/// Writes a message behind its length, from one buffer. `Broken` where it is no message: empty, or
/// longer than `LONGEST_MESSAGE`; where there is no memory; and where the writer fails, or takes
/// nothing.
pub fn send<W: Write>(alloc: Global, message: &[u8], writer: &mut W) -> Sent
    ensures { Sends (frame message.now) (W.contents writer.old) result (W.contents writer.new) }
{
    if message.is_empty() || LONGEST_MESSAGE < message.len() {
        return Sent::Broken;
    }
    let Ok(bytes) = frame(alloc, message) else {
        return Sent::Broken;
    };
    if write_whole(writer, bytes.as_slice()).is_err() {
        return Sent::Broken;
    }
    match writer.flush() {
        Ok(()) => Sent::Whole,
        Err(_) => Sent::Unflushed,
    }
}

/// The bytes of a message on the stream, in one buffer. Fails where there is no memory.
fn frame(alloc: Global, message: &[u8]) -> Result<Vec<u8>, AllocError>
    requires { IsMessage message.now }
    ensures { IfOk result (λ bytes. bytes.items ≡ frame message.now) }
{
    let mut framed = Vec::with_capacity(alloc, 4 + message.len())?;
    framed.extend_from_slice(&(message.len() as u32).to_be_bytes())?;
    framed.extend_from_slice(message)?;
    Ok(framed)
}

/// Writes all the bytes, of which there is one at least. Fails where the writer fails, or takes
/// nothing.
fn write_whole<W: Write>(writer: &mut W, bytes: &[u8]) -> Result<(), WriteFault>
    requires { 0 < length bytes.now }
    ensures ok { OnOk result (Appends (W.contents writer.old) (W.contents writer.new) bytes.now) }
    // Not all of them were written.
    ensures err { OnErr result ((n : ℕ) × (n < length bytes.now)
        × Appends (W.contents writer.old) (W.contents writer.new) (take n bytes.now)) }
{
    let mut done = 0;
    for _ in 0..u64::MAX {
        match writer.write(&bytes[done..]) {
            Ok(0) => return Err(WriteFault),
            Ok(count) => {
                done += count;
                if done == bytes.len() {
                    return Ok(());
                }
            }
            Err(error) => {
                if error.kind() != ErrorKind::Interrupted {
                    return Err(WriteFault);
                }
            }
        }
    }
    Err(WriteFault)
}
