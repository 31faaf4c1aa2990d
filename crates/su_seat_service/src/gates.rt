// Who is let in, request by request.
ghost use Rattle.std.specs.Prelude.{◌≡◌};

use std::alloc::Global;
use std::marker::Model;
use su_message::{Reply, Request};
use su_session::{Attend, Service};

/// Is opened before the first session comes, and passed before and after each request of a session.
pub trait Gate {
    /// Is opened, once, over a book that has so many records by then.
    fn open(&self, records: u64);

    /// Lets a request of this session in.
    fn enter(&self, session: u64);

    /// Sees a request of this session out.
    fn leave(&self, session: u64);
}

/// A gate that is always open.
#[derive(Clone, Copy, Debug, Drop)]
pub struct OpenGate;

impl Gate for OpenGate {
    fn open(&self, _records: u64) {}

    fn enter(&self, _session: u64) {}

    fn leave(&self, _session: u64) {}
}

/// A service behind a gate, for one session after another. Its model is the service within.
#[derive(Drop)]
pub struct Gated<'a, S, G> {
    service: S,
    gate: &'a G,
    session: u64,
}

impl<'a, S, G> Model for Gated<'a, S, G> {
    ghost Value = { S };

    ghost view = { λ g. g.service };
}

impl<'a, S, G: Gate> Gated<'a, S, G> {
    /// Puts a gate before a service. Its sessions begin with the one of number 0.
    pub fn new(service: S, gate: &'a G) -> Gated<'a, S, G>
        ensures { result ≡ service }
    {
        Gated {
            service,
            gate,
            session: 0,
        }
    }

    /// Hands the service back.
    pub fn into_service(self) -> S
        ensures { result ≡ self.entry }
    {
        self.service
    }
}

/// The gate is passed under the number of the session that was begun last. The service within
/// attends each session too.
impl<'a, S: Attend, G: Gate> Attend for Gated<'a, S, G> {
    fn begin(&mut self, session: u64) {
        self.session = session;
        self.service.begin(session);
    }

    fn end(&mut self) {
        self.service.end();
    }
}

/// It answers what the service within answers, which is asked between entering and leaving.
impl<'a, S: Service, G: Gate> Service for Gated<'a, S, G> {
    ghost answers = { S.answers };

    fn answer(&mut self, alloc: Global, request: &Request) -> Reply {
        self.gate.enter(self.session);
        let reply = self.service.answer(alloc, request);
        self.gate.leave(self.session);
        reply
    }
}
