// Who answers requests.
ghost use Rattle.std.specs.Prelude.{◌≡◌};
ghost use Rattle.su_message.specs.declared.requests.Request.{Request};
ghost use Rattle.su_message.specs.declared.replies.Reply.{Reply};

use std::alloc::Global;
use su_message::{Reply, Request};

/// Answers the requests of a session. Its own want of memory is a reply.
pub trait Service {
    // What may be answered: the service before it, the request, the reply, the service after it.
    ghost answers: { Self → Request → Reply → Self → Type 0 };

    /// Answers the request.
    fn answer(&mut self, alloc: Global, request: &Request) -> Reply
        ensures { answers self.old request.now result self.new };
}
