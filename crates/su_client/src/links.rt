// The link to a server, with requests that are sent ahead.
ghost use Rattle.std.specs.Prelude.{◌≡◌, [], ℕ, List, true, false};
ghost use Rattle.su_bytes.specs.declared.refusals.Refusal.TheVariants.{LinkFailed};
ghost use Rattle.su_client.specs.Link.{LinkState, Asked, Exchanged, Follows, GoesAhead, IsRefusal, MayGive, Refuses};
ghost use Rattle.su_client.specs.Asking.{Exchanges, Sending};

use crate::refusals::{may_refuse, told};
use crate::wires::Wire;
use std::alloc::Global;
use std::collections::VecDeque;
use std::io::{Read, Write};
use std::marker::Model;
use su_bytes::Refusal;
use su_message::{Reply, Request};

/// How many requests are sent ahead at most.
pub const MOST_AHEAD: usize = 512;

/// How many bytes the messages of those may have.
const MOST_BYTES: usize = 1_048_576;

/// A link to a server, of which nothing is known but what comes over it. A request may be sent ahead
/// of its time; its reply is read when it is asked for, in its turn. Its model is the link as if no
/// request left before it is asked for.
#[derive(Drop)]
pub(crate) struct Link<R: Read, W: Write> {
    wire: Wire<R, W>,
    /// The messages that were sent ahead and not asked for yet, in order.
    ahead: VecDeque<Vec<u8>>,
    /// How many bytes those have.
    bytes: usize,
    alloc: Global,
}

impl<R: Read, W: Write> Model for Link<R, W> {
    ghost use Rattle.su_client.specs.Link.{LinkState};
    ghost use Rattle.su_client.specs.Ahead.{without};

    ghost Value = { LinkState };

    ghost view = { λ l. without l.wire l.ahead.items };
}

impl<R: Read + Drop, W: Write + Drop> Link<R, W> {
    /// Makes the link over a reader and a writer.
    pub fn new(alloc: Global, reader: R, writer: W) -> Link<R, W>
        ensures { result ≡ record {
          known = R.remaining reader;
          held = W.contents writer;
          waits = [];
          failed = false;
        } }
    {
        Link {
            wire: Wire::new(alloc, reader, writer),
            ahead: VecDeque::new(alloc),
            bytes: 0,
            alloc,
        }
    }

    /// Tells whether the link has failed.
    pub fn has_failed(&self) -> bool
        ensures { result ≡ self.now.failed }
    {
        self.wire.has_failed()
    }

    /// Asks a request, and reads the reply. `NoMemory` where there is none for the request: then
    /// nothing is sent. `LinkFailed` where the link fails, what comes is no reply, or there is no
    /// memory for it, and where other requests were sent ahead: from then on the link has failed.
    pub fn ask(&mut self, request: &Request) -> Result<Reply, Refusal>
        ensures { Asked request.now self.old self.new result }
    {
        if self.has_failed() {
            return Err(Refusal::LinkFailed);
        }
        let message = request.encode(self.alloc)?;
        match self.exchange(message.as_slice()) {
            Some(reply) => Ok(reply),
            None => Err(self.fail()),
        }
    }

    /// Sends a request ahead of its time, and tells whether it is on its way: it isn't where many
    /// are, nor without memory for it, nor over a link that fails. What is sent ahead has to be asked
    /// for next, in order, or passed by.
    pub fn send_ahead(&mut self, request: &Request) -> bool
        ensures { GoesAhead self.old self.new }
    {
        if self.has_failed() || MOST_AHEAD <= self.ahead.len() {
            return false;
        }
        let Ok(message) = request.encode(self.alloc) else {
            return false;
        };
        let bytes = self.bytes.saturating_add(message.len());
        if MOST_BYTES < bytes || self.ahead.reserve(1).is_err() {
            return false;
        }
        let are_replies_due = !self.ahead.is_empty();
        if !self.wire.send(message.as_slice(), are_replies_due) {
            self.ahead.clear();
            self.wire.fail();
            return false;
        }
        self.bytes = bytes;
        self.ahead.push_back_reserved(message);
        true
    }

    /// Reads the replies to what was sent ahead, which aren't asked for any more.
    pub fn pass_ahead(&mut self)
        ensures { Follows self.old self.new }
    {
        for _ in 0..self.ahead.len() {
            self.pass_one();
        }
    }

    /// Reads the replies to what was sent ahead before this request, which isn't asked for any more:
    /// to all of it, where the request wasn't sent.
    pub fn pass_to(&mut self, request: &Request)
        ensures follows { Follows self.old self.new }
        ensures no_more { (s : List ℕ) → MayGive self.new s → MayGive self.old s }
    {
        let Ok(message) = request.encode(self.alloc) else {
            return;
        };
        for _ in 0..self.ahead.len() {
            if self.is_next(message.as_slice()) {
                return;
            }
            self.pass_one();
        }
    }

    /// Tells whether a message is the first of those that were sent ahead.
    fn is_next(&self, message: &[u8]) -> bool {
        match self.ahead.front() {
            Some(first) => first.as_slice() == message,
            None => false,
        }
    }

    /// Reads the reply to the first of those.
    fn pass_one(&mut self)
        ensures follows { Follows self.old self.new }
        ensures no_more { (s : List ℕ) → MayGive self.new s → MayGive self.old s }
    {
        if self.has_failed() {
            return;
        }
        let Some(first) = self.ahead.pop_front() else {
            return;
        };
        self.bytes = self.bytes.saturating_sub(first.len());
        let Some(_) = self.wire.reply() else {
            self.wire.fail();
            return;
        };
    }

    /// Finds the refusal that a reply tells of, where it may refuse the request; the link stays as
    /// it was. Where the reply tells of none that may, the link has failed.
    pub fn refusal(&mut self, request: &Request, reply: &Reply) -> Refusal
        ensures told { Refuses request.now reply.now self.old self.new result }
        ensures refused { (a : LinkState) → Exchanged request.now a self.old reply.now
            → IsRefusal request.now a self.new result }
    {
        let Reply::Refused(number, argument) = reply else {
            return self.fail();
        };
        match told(*number, *argument) {
            Some(refusal) => {
                if may_refuse(request, &refusal) {
                    refusal
                } else {
                    self.fail()
                }
            }
            None => self.fail(),
        }
    }

    /// Lets the link have failed.
    pub fn fail(&mut self) -> Refusal
        ensures refusal { result ≡ LinkFailed }
        ensures failed { self.new ≡ record self.old { failed = true } }
    {
        self.wire.fail();
        Refusal::LinkFailed
    }

    /// Sends a message, unless it was sent ahead, and reads the reply. None where the link fails,
    /// what comes is no reply, there is no memory for it, or another message was sent ahead.
    fn exchange(&mut self, message: &[u8]) -> Option<Reply>
        ensures { Exchanges message.now self.old result self.new }
    {
        if !self.is_sent(message) {
            return None;
        }
        self.wire.reply()
    }

    /// Sends a message, unless it is the next of those that were sent ahead. False where the link
    /// fails, there is no memory, or another message is the next.
    fn is_sent(&mut self, message: &[u8]) -> bool
        ensures { Sending message.now self.old result self.new }
    {
        let Some(first) = self.ahead.pop_front() else {
            return self.wire.send(message, false);
        };
        self.bytes = self.bytes.saturating_sub(first.len());
        if first.as_slice() != message {
            return false;
        }
        true
    }
}
