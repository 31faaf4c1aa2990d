// The reading end of a session, which ends where it is silent for too long.
use crate::crowds::Crowd;
use crate::stops::Stop;
use std::io;
use std::io::{ErrorKind, Read};
use su_session::Incoming;

/// How many times a second a read that waits for bytes looks whether it is to end.
pub(crate) const LOOKS_A_SECOND: u32 = 2;

/// For how many looks a session has to be silent before it makes room for a connection: 5 seconds.
const LOOKS_BEFORE_ROOM: u32 = 10;

/// For how long a session may be silent.
#[derive(Clone, Copy)]
pub struct Patience {
    /// How many seconds of a turn, in all.
    pub turn_seconds: u32,
    /// How many minutes on end, where it hasn't the turn.
    pub idle_minutes: u32,
}

/// The reading end of a session that has a worker, which it gives back in the end. It ends with a
/// fault once the server is to end, and where nothing comes for too long: for as many looks of one
/// turn as it may, for as many on end without the turn, or for 5 seconds without the turn while a
/// connection waits for a worker. A read of the stream itself has to end after a while where nothing
/// comes: that is a look.
pub struct Watched<'a, T> {
    stream: T,
    stop: &'a Stop,
    crowd: &'a Crowd,
    patience: Patience,
    /// How many more looks of the turn may be silent; none where it hasn't the turn.
    left: Option<u32>,
    /// How many looks were silent since something came.
    silent: u32,
}

impl<T: Drop> Drop for Watched<'_, T> {
    fn drop(self) {
        let Watched {
            stream: _stream,
            stop: _,
            crowd,
            patience: _,
            left: _,
            silent: _,
        } = self;
        crowd.leave();
    }
}

impl<'a, T> Watched<'a, T> {
    /// Has the reads of a stream, whose session has a worker of the crowd, end when the server does,
    /// and where nothing comes for too long.
    pub(crate) fn new(
        stream: T,
        stop: &'a Stop,
        crowd: &'a Crowd,
        patience: Patience,
    ) -> Watched<'a, T> {
        Watched {
            stream,
            stop,
            crowd,
            patience,
            left: None,
            silent: 0,
        }
    }

    /// Counts a look in which nothing came. Returns whether the session may go on.
    fn may_be_silent(&mut self) -> bool {
        self.silent = self.silent.saturating_add(1);
        match self.left {
            Some(0) => false,
            Some(left) => {
                self.left = Some(left - 1);
                true
            }
            None => self.may_be_idle(),
        }
    }

    /// Whether the session, which hasn't the turn, may go on being silent.
    fn may_be_idle(&self) -> bool {
        let most = self
            .patience
            .idle_minutes
            .saturating_mul(60 * LOOKS_A_SECOND);
        if most <= self.silent {
            return false;
        }
        self.silent < LOOKS_BEFORE_ROOM || !self.crowd.is_to_make_room()
    }
}

/// (Of the bytes that will come nothing is known, as of a socket.)
impl<T: Read> Read for Watched<'_, T> {
    fn read(&mut self, buf: &mut [u8]) -> io::Result<usize> {
        for _ in 0..u64::MAX {
            if self.stop.is_set() {
                break;
            }
            match self.stream.read(buf) {
                Err(reason) if reason.kind() == ErrorKind::WouldBlock => {
                    if !self.may_be_silent() {
                        return Err(io::Error::from(ErrorKind::TimedOut));
                    }
                }
                other => {
                    self.silent = 0;
                    return other;
                }
            }
        }
        Err(io::Error::from(ErrorKind::ConnectionAborted))
    }
}

impl<T: Read> Incoming for Watched<'_, T> {
    /// Counts the silent looks of each turn anew.
    fn note_turn(&mut self, has_turn: bool) {
        let most = self.patience.turn_seconds.saturating_mul(LOOKS_A_SECOND);
        self.left = match self.left {
            _ if !has_turn => None,
            None => Some(most),
            left => left,
        };
    }
}
