// What a client at work asks of the program around it.
ghost use Rattle.std.specs.Prelude.{IfOk};
ghost use Rattle.su_client.specs.Link.{LinkState, IsFresh};

use std::io;
use std::io::{Read, Write};
use std::thread::Threads;
use std::time::Duration;
use su_client::Client;

/// What a client at work asks of the program around it. Nothing rests on what comes of it: whatever a
/// link brings is checked.
pub trait Surroundings<R: Read, W: Write> {
    // The links that it may make.
    ghost may_connect: { LinkState → Type 0 };

    /// What starts threads.
    type Host: Threads + Sync;

    /// Lends what starts threads.
    fn host(&self) -> &Self::Host;

    /// Waits for so long before the client asks again for a turn that another has.
    fn pause(&mut self, time: Duration);

    /// Makes a link to the same server anew, once the one before has failed.
    fn connect(&mut self) -> io::Result<Client<R, W>>
        ensures may { IfOk result (λ client. may_connect client.link) }
        ensures fresh { IfOk result (λ client. IsFresh client.link) };
}
