// A server that lies at a port of the loopback.
use crate::logs::split_record;
use std::alloc::Global;
use std::io;
use std::io::Read;
use std::marker::Model;
use std::net::{TcpListener, TcpStream};
use su_bad::{BadServer, Step};
use su_block::MemoryBlocks;
use su_bytes::{FileId, User};
use su_message::{Bytes, LastNumbers, Reply, Request};
use su_session::{Incoming, Service};

/// How many records a log has at most.
const MOST: u32 = 16;

/// What an honest server shows: the records of a log, and the number of each user's last one, 0 where
/// there is none. With what `ls /` prints of it.
#[derive(Drop)]
pub(crate) struct Sight<'a> {
    pub(crate) log: &'a [u8],
    pub(crate) last: [u64; 3],
    pub(crate) names: &'a [u8],
}

/// A server that shows one thing after another, that which was added last first. It goes on to the
/// next one where the turn is given back and where a session ends, and stays at the last one.
pub(crate) struct Liar {
    shown: Vec<BadServer>,
}

impl Drop for Liar {
    // (By hand, so that a caller's proof needs no case for each part of what is shown.)
    fn drop(self) {
        let Liar { shown: _shown } = self;
    }
}

// Of what it shows contracts see nothing.
impl Model for Liar {
    ghost Value = { Unit {0} };

    ghost view = { λ _. tt };
}

impl Service for Liar {
    ghost answers = { λ _ _ _ _. Unit {0} };

    fn answer(&mut self, alloc: Global, request: &Request) -> Reply {
        let reply = self.say(alloc, request);
        if matches!(request, Request::Give) {
            self.go_on();
        }
        reply
    }
}

impl Liar {
    /// Makes one that shows nothing.
    pub(crate) fn new(alloc: Global) -> Liar {
        Liar {
            shown: Vec::new(alloc),
        }
    }

    fn say(&mut self, alloc: Global, request: &Request) -> Reply {
        match self.shown.last_mut() {
            Some(server) => server.answer(alloc, request),
            None => Reply::Nothing,
        }
    }

    fn go_on(&mut self) {
        if 1 < self.shown.len() {
            let _over = self.shown.pop();
        }
    }

    /// Adds what is shown without lies.
    pub(crate) fn add(&mut self, alloc: Global, sight: &Sight<'_>) -> Option<()> {
        let server = BadServer::new(
            alloc,
            Vec::new(alloc),
            last_numbers(alloc, sight.last)?,
            MemoryBlocks::new(alloc),
        );
        self.shown.push(server).ok()?;
        self.hand_in(alloc, sight.log)
    }

    /// Adds what is shown behind that step.
    pub(crate) fn add_lie(&mut self, alloc: Global, sight: &Sight<'_>, step: Step) -> Option<()> {
        self.add(alloc, sight)?;
        self.shown.last_mut()?.take_step(step).ok()
    }

    /// Hands in the items and the commits of a log.
    fn hand_in(&mut self, alloc: Global, log: &[u8]) -> Option<()> {
        let mut rest = log;
        for _ in 0..MOST {
            if rest.is_empty() {
                break;
            }
            let (commit, item, behind) = split_record(rest)?;
            let _put = self.say(alloc, &Request::Put(Bytes::copy_of(alloc, item).ok()?));
            let _stored = self.say(alloc, &Request::Commit(Bytes::copy_of(alloc, commit).ok()?));
            rest = behind;
        }
        Some(())
    }
}

/// The numbers of the last records of the users 0 to 2.
fn last_numbers(alloc: Global, numbers: [u64; 3]) -> Option<LastNumbers> {
    // names the type for the prover (docs/ARCHITECTURE.md, "Forms the kit wants")
    let _file: Option<FileId> = None;
    let [zero, one, two] = numbers;
    let (first, second) = (User::new(1).ok()?, User::new(2).ok()?);
    let users = vec![in alloc; (User::FIRST, zero), (first, one), (second, two)].ok()?;
    Some(LastNumbers::new(users))
}

/// The reading end of a session.
#[derive(Drop)]
struct Ear {
    stream: TcpStream,
}

impl Read for Ear {
    fn read(&mut self, buf: &mut [u8]) -> io::Result<usize> {
        self.stream.read(buf)
    }
}

impl Incoming for Ear {}

/// Serves so many connections of a listener, one after another.
pub(crate) fn serve_lies(
    alloc: Global,
    listener: &TcpListener,
    liar: &mut Liar,
    sessions: u32,
) -> io::Result<()> {
    for _ in 0..sessions {
        let (mut writer, _peer) = listener.accept()?;
        writer.set_nodelay(true)?;
        let mut reader = Ear {
            stream: writer.try_clone()?,
        };
        let _served = su_session::serve(alloc, &mut reader, &mut writer, liar);
        liar.go_on();
    }
    Ok(())
}
