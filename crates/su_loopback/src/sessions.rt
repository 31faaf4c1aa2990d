// Two sessions, each served by one of two workers, with what became of each.
use std::alloc::Global;
use std::marker::Model;
use std::process::Abort;
use std::sync::Wait;
use std::test::Fail;
use std::thread::Threads;
use su_message::{Reply, Request};
use su_session::{End, Service};
use su_threads::{Attend, Duplex, serve_all};

/// Answers each request alike, and counts the sessions that it serves, their numbers, and those of
/// them that ended one after another.
#[derive(Drop)]
struct Same {
    sessions: u64,
    numbers: u64,
    ended: u64,
}

// Of what it counts contracts see nothing: to begin a session or to end it changes no answer.
impl Model for Same {
    ghost Value = { Unit {0} };

    ghost view = { λ _. tt };
}

impl Service for Same {
    ghost answers = { λ _ _ _ _. Unit {0} };

    fn answer(&mut self, _alloc: Global, _request: &Request) -> Reply {
        Reply::Given
    }
}

impl Attend for Same {
    fn begin(&mut self, session: u64) {
        self.sessions = self.sessions.saturating_add(1);
        self.numbers = self.numbers.saturating_add(session);
    }

    fn end(&mut self) {
        // each ends before the next one begins
        if self.ended.saturating_add(1) == self.sessions {
            self.ended = self.sessions;
        }
    }
}

#[test]
fn two_sessions_and_two_workers(rt: HostRuntime) -> Result<(), Fail> {
    two_sessions(&rt, rt.alloc())
}

// One session asks twice and ends well, another asks once and is cut.
fn two_sessions<R: Threads + Wait + Abort + Sync>(rt: &R, alloc: Global) -> Result<(), Fail> {
    let mut sessions = Vec::new(alloc);
    let twice: &[u8] = b"\x00\x00\x00\x01\x03\x00\x00\x00\x01\x03";
    let cut: &[u8] = b"\x00\x00\x00\x01\x03\x00";
    sessions.push(Duplex {
        reader: twice,
        writer: Vec::new(alloc),
    })?;
    sessions.push(Duplex {
        reader: cut,
        writer: Vec::new(alloc),
    })?;
    let (all, back) = serve_all(rt, alloc, sessions.into_iter(), services(alloc, 2)?)?;
    assert_eq!(rt; all.len(), 2);
    assert_eq!(rt; back.len(), 2);
    // each number was begun once, and ended
    assert_eq!(rt; back[0].sessions.saturating_add(back[1].sessions), 2);
    assert_eq!(rt; back[0].numbers.saturating_add(back[1].numbers), 3);
    assert_eq!(rt; back[0].ended.saturating_add(back[1].ended), 2);
    assert_eq!(rt; all[0].answered, 2);
    assert_eq!(rt; all[0].end_, End::Closed);
    assert_eq!(rt; all[1].answered, 1);
    assert_eq!(rt; all[1].end_, End::Cut);
    Ok(())
}

// So many services.
fn services(alloc: Global, count: usize) -> Result<Vec<Same>, Fail> {
    let mut services = Vec::new(alloc);
    for _ in 0..count {
        services.push(Same {
            sessions: 0,
            numbers: 0,
            ended: 0,
        })?;
    }
    Ok(services)
}
