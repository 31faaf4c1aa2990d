// Two sessions that are served at once, by a gate that holds one until the other goes on.
ghost use Rattle.std.specs.Prelude.{◌≡◌};

use std::alloc::Global;
use std::process::Abort;
use std::sync::Wait;
use std::sync::atomic::{AtomicBool, AtomicU64, Ordering};
use std::test::Fail;
use std::thread;
use std::thread::Threads;
use std::time::{Clock, Duration};
use su_bytes::{KEY_LENGTH, Refusal, Roster};
use su_keeper::Forgetful;
use su_seat_service::Gate;
use su_server::serve_book;
use su_session::End;
use su_shared_items::SharedBlocks;
use su_threads::Duplex;

/// A session over memory.
type Memory = Duplex<&'static [u8], Vec<u8>>;

/// Asks for a record that isn't there, twice.
const READS: &[u8] =
    b"\x00\x00\x00\x09\x04\x00\x00\x00\x00\x00\x00\x00\x01\x00\x00\x00\x09\x04\x00\x00\x00\x00\x00\x00\x00\x01";

/// How often a gate looks whether the other session was there.
const TURNS: u32 = 10_000;

/// Of sessions 1 and 2, holds the first one that comes until a request of the other was answered.
#[derive(Drop)]
struct Meeting<'a, R> {
    clock: &'a R,
    entered: AtomicU64,
    first_left: AtomicBool,
    second_left: AtomicBool,
    missed: AtomicBool,
}

impl<'a, R: Clock> Gate for Meeting<'a, R> {
    fn open(&self, _records: u64) {}

    fn enter(&self, session: u64) {
        if self.entered.fetch_add(1, Ordering::SeqCst) != 0 {
            return;
        }
        for _ in 0..TURNS {
            let met = if session == 1 {
                self.second_left.load(Ordering::SeqCst)
            } else {
                self.first_left.load(Ordering::SeqCst)
            };
            if met {
                return;
            }
            thread::sleep(self.clock, Duration::from_millis(1));
        }
        self.missed.store(true, Ordering::SeqCst);
    }

    fn leave(&self, session: u64) {
        if session == 1 {
            self.first_left.store(true, Ordering::SeqCst);
        } else {
            self.second_left.store(true, Ordering::SeqCst);
        }
    }
}

/// Sessions that ask these bytes.
fn sessions(alloc: Global, asked: &[&'static [u8]]) -> Result<Vec<Memory>, Fail> {
    let mut sessions = Vec::new(alloc);
    for reader in asked {
        sessions.push(Duplex {
            reader: *reader,
            writer: Vec::new(alloc),
        })?;
    }
    Ok(sessions)
}

/// The roster of one user, whose key is spelled as it should be; nobody can sign by it.
fn one_user(alloc: Global) -> Result<Roster, Refusal> {
    let mut key = [0; KEY_LENGTH];
    key[3] = 5;
    key[7] = 3;
    Roster::of_keys(alloc, &[key])
}

#[test]
fn gate_two_sessions(rt: HostRuntime) -> Result<(), Fail> {
    two_workers(&rt, rt.alloc())
}

// One worker waits within its request for the other one, which is served meanwhile.
fn two_workers<R: Threads + Wait + Abort + Clock + Sync>(
    rt: &R,
    alloc: Global,
) -> Result<(), Fail> {
    let gate = Meeting {
        clock: rt,
        entered: AtomicU64::new(0),
        first_left: AtomicBool::new(false),
        second_left: AtomicBool::new(false),
        missed: AtomicBool::new(false),
    };
    let blocks = SharedBlocks::new(alloc)?;
    let both = sessions(alloc, &[READS, READS])?.into_iter();
    let report = serve_book(
        rt,
        alloc,
        both,
        2,
        1,
        one_user(alloc)?,
        &blocks,
        Forgetful,
        &gate,
    )?;
    assert!(rt; !gate.missed.load(Ordering::SeqCst));
    assert_eq!(rt; gate.entered.load(Ordering::SeqCst), 4);
    assert_eq!(rt; report.sessions.len(), 2);
    for served in &report.sessions {
        assert_eq!(rt; served.answered, 2);
        assert!(rt; served.end_ == End::Closed);
    }
    assert_eq!(rt; report.closed.calls, 0);
    Ok(())
}
