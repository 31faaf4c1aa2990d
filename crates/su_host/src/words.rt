// The word on standard input that ends a server.
use crate::ends::Ends;
use crate::faults::tell_fault;
use mio::unix::SourceFd;
use mio::{Events, Interest, Poll, Token};
use std::io;
use std::io::{ErrorKind, IsTerminal, Read};
use std::net::Net;
use std::time::Duration;
use su_server::Stop;

/// The line that ends a server, without its end.
const WORD: &[u8] = b"stop";

/// How many milliseconds input is waited for, before it is looked whether the server is over.
const LOOK: u64 = 100;

/// Reads standard input until a line `stop` comes, and returns whether the server is to end: for
/// that line, where it came before the input ended or the server was over, or since memory is
/// refused to what waits for it, of which standard error tells. Where input can't be waited for, as
/// from a file, none comes. A terminal is left alone: a server in the background that reads from it
/// would be halted.
pub(crate) fn is_to_stop<T: Net>(rt: &HostRuntime, host: &T, ends: &Ends, over: &Stop) -> bool {
    match read_word(rt, host, over) {
        Ok(false) => false,
        Ok(true) => {
            ends.stop.set();
            true
        }
        Err(fault) if fault.kind() == ErrorKind::OutOfMemory => {
            ends.fail();
            tell_fault(
                rt,
                "out of memory to wait for standard input, which may ask for the end",
            );
            true
        }
        Err(_) => false,
    }
}

/// Whether a line `stop` came; fails where input can't be waited for, or read.
fn read_word<T: Net>(rt: &HostRuntime, host: &T, over: &Stop) -> io::Result<bool> {
    if rt.stdin().is_terminal() {
        return Ok(false);
    }
    let mut poll = Poll::new(host)?;
    let input = 0;
    poll.registry()
        .register(&mut SourceFd(&input), Token(0), Interest::READABLE)?;
    let mut events = Events::with_capacity(rt.alloc(), 1)?;
    let mut reader = rt.reader();
    let mut matched = Some(0);
    for _ in 0..u64::MAX {
        if over.is_set() {
            break;
        }
        poll.poll(&mut events, Some(Duration::from_millis(LOOK)))?;
        if events.is_empty() {
            continue;
        }
        let mut bytes = [0u8; 4096];
        let count = reader.read(&mut bytes)?;
        let came = bytes.get(..count).unwrap_or(&[]);
        if came.is_empty() {
            break;
        }
        if has_word(&mut matched, came) {
            return Ok(true);
        }
    }
    Ok(false)
}

/// Whether a line `stop` ends in these bytes. Of the line that has begun before them so many bytes
/// are those of the word; none where it is another line.
fn has_word(matched: &mut Option<usize>, bytes: &[u8]) -> bool {
    for byte in bytes {
        if *byte == b'\n' && *matched == Some(WORD.len()) {
            return true;
        }
        *matched = match *matched {
            _ if *byte == b'\n' => Some(0),
            Some(count) if WORD.get(count) == Some(byte) => Some(count + 1),
            _ => None,
        };
    }
    false
}
