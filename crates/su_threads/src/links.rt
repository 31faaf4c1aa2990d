// The two ends of a session.
ghost use Rattle.std.specs.Prelude.{◌≡◌, ℕ, List, Option};
ghost use Rattle.su_message.specs.declared.requests.Request.{Request};
ghost use Rattle.su_message.specs.declared.replies.Reply.{Reply};
ghost use Rattle.su_session.specs.declared.sessions.Served.{Served};
ghost use Rattle.su_session.specs.Session.{Serves};

use std::alloc::Global;
use std::io::Write;
use su_session::{Incoming, Served, Service, serve};

/// Is what one session runs over.
pub trait Link {
    // What a session may be, for a service that answers so: the service before, what became of the
    // session, the service after.
    ghost runs: { {S : Type 0} → (S → Request → Reply → S → Type 0)
        → Self → S → Served → S → Type 0 };

    /// Runs the session: the service answers its messages.
    fn run<S: Service>(self, alloc: Global, service: &mut S) -> Served
        ensures { runs S.answers self service.old result service.new };
}

/// A reader of messages, and a writer of replies.
#[derive(Drop)]
pub struct Duplex<R, W> {
    pub reader: R,
    pub writer: W,
}

impl<R: Incoming + Drop, W: Write + Drop> Link for Duplex<R, W> {
    ghost runs = { λ answers link s served t. (known' held' : Option (List ℕ))
        × Serves answers s (R.remaining link.reader) (W.contents link.writer)
        served t known' held' };

    fn run<S: Service>(self, alloc: Global, service: &mut S) -> Served {
        let Duplex {
            mut reader,
            mut writer,
        } = self;
        serve(alloc, &mut reader, &mut writer, service)
    }
}
