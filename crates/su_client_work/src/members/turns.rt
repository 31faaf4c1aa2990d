// How a client takes its turn.
ghost use Rattle.std.specs.Prelude.{◌≡◌, ◌<◌, ◌+◌, false, IfOk, IfErr, OnOk, OnErr};
ghost use Rattle.su_bytes.specs.declared.refusals.Refusal.TheVariants.{LinkFailed};
ghost use Rattle.su_message.specs.declared.requests.Request.TheVariants.{Grant};
ghost use Rattle.su_message.specs.declared.replies.Reply.TheVariants.{Granted};
ghost use Rattle.su_client.specs.Link.{IsFresh, Exchanged, Follows, GoesAhead, IsRefusal};
ghost use Rattle.su_client_work.specs.Member.{Stays};
ghost use Rattle.su_client_work.specs.Turn.{Comes, IsGranted, IsGrantedOver, IsUngranted, IsUngrantedOver};

use crate::members::Member;
use crate::surroundings::Surroundings;
use std::io::{Read, Write};
use std::time::Duration;
use su_bytes::Refusal;
use su_client::Client;
use su_lms::KeyStore;
use su_message::{LastNumbers, Request};

/// How many milliseconds a client waits before it asks again for a turn that another has.
const PAUSE: u64 = 1;

/// The seat that `Busy` names where no worker of the server is free: no seat has this number.
const NO_SEAT: u16 = u16::MAX;

impl<R: Read + Drop, W: Write + Drop, K: KeyStore + Drop> Member<R, W, K> {
    /// Sends a request ahead of its time, and tells whether it is on its way.
    pub(super) fn send_ahead(&mut self, request: &Request) -> bool
        ensures stays { Stays self.old self.new }
        ensures ahead { GoesAhead self.old.link self.new.link }
    {
        self.view
            .source_mut()
            .source_mut()
            .source_mut()
            .source_mut()
            .client_mut()
            .send_ahead(request)
    }

    /// Passes what was sent ahead by, as it isn't asked for any more.
    pub(super) fn pass_over(&mut self)
        ensures stays { Stays self.old self.new }
        ensures follows { Follows self.old.link self.new.link }
    {
        self.early.forget();
        self.view
            .source_mut()
            .source_mut()
            .source_mut()
            .source_mut()
            .client_mut()
            .pass_ahead();
    }

    /// Puts the items that wait, if that can be, and forgets them and the one at hand.
    fn clear(&mut self)
        ensures stays { Stays self.old self.new }
        ensures follows { Follows self.old.link self.new.link }
    {
        let outbox = self
            .view
            .source_mut()
            .source_mut()
            .source_mut()
            .source_mut();
        let _ = outbox.settle(self.alloc);
        outbox.forget();
    }

    /// Takes the turn. Where the link has failed, as that of a session that was ended, nothing has
    /// happened yet, so a new link is made, once, and the turn is asked for over it. The refusals
    /// are those of `await_turn`, and `LinkFailed` where no link can be made.
    pub(super) fn take_turn<A: Surroundings<R, W>>(
        &mut self,
        around: &mut A,
    ) -> Result<(u64, LastNumbers), Refusal>
        ensures stays { Stays self.old self.new }
        ensures link { Comes A.may_connect self.old.link self.new.link }
        ensures granted { IfOk result (λ g.
            IsGranted A.may_connect self.old.link self.new.link g.0 g.1) }
        ensures refused { IfErr result (IsUngranted A.may_connect self.old.link self.new.link) }
    {
        match self.await_turn(around) {
            Err(Refusal::LinkFailed) => {
                match self.connect_anew(around) {
                    Ok(()) => self.await_turn(around),
                    Err(refusal) => Err(refusal),
                }
            }
            answered => answered,
        }
    }

    /// Puts a new link in the place of one that has failed. `LinkFailed` where none can be made.
    fn connect_anew<A: Surroundings<R, W>>(&mut self, around: &mut A) -> Result<(), Refusal>
        ensures stays { Stays self.old self.new }
        ensures new { OnOk result (IsFresh self.new.link × A.may_connect self.new.link) }
        ensures refused { IfErr result (λ e. e ≡ LinkFailed) }
        ensures err { OnErr result (self.new.link ≡ self.old.link) }
    {
        match around.connect() {
            Ok(link) => {
                self.put_link(link);
                self.early.forget();
                self.stays = false;
                self.reload();
                Ok(())
            }
            Err(_) => Err(Refusal::LinkFailed),
        }
    }

    /// Puts a link in the place of the client's own.
    fn put_link(&mut self, link: Client<R, W>)
        ensures { self.new ≡ record self.old { link = link.link } }
    {
        let outbox = self
            .view
            .source_mut()
            .source_mut()
            .source_mut()
            .source_mut();
        *outbox.client_mut() = link;
    }

    /// Makes the tree anew in memory, where some of it may be left to a server that may have let it
    /// go. Where it can't be, for want of memory or of entries that the view has left, what is left is
    /// asked for as before.
    pub(super) fn reload(&mut self)
        ensures { self.new ≡ self.old }
    {
        if self.has_left && self.view.reload().is_ok() {
            self.has_left = false;
        }
    }

    /// Asks for the turn until it is granted, or as often as it is asked for at most. A server
    /// without a free worker is asked no more, as it ends the link.
    fn await_turn<A: Surroundings<R, W>>(
        &mut self,
        around: &mut A,
    ) -> Result<(u64, LastNumbers), Refusal>
        ensures stays { Stays self.old self.new }
        ensures follows { Follows self.old.link self.new.link }
        ensures granted { IfOk result (λ g.
            IsGrantedOver self.old.link self.new.link g.0 g.1) }
        ensures refused { IfErr result (IsUngrantedOver self.old.link self.new.link) }
    {
        let tries = self.tries;
        for _ in 1..tries {
            let answered = self.ask_turn();
            if !is_busy(&answered) {
                return answered;
            }
            around.pause(Duration::from_millis(PAUSE));
        }
        self.ask_turn()
    }

    /// Asks for the turn once. With the request those for the users' last commits leave, as far as
    /// the client knows these, unless all have left before.
    fn ask_turn(&mut self) -> Result<(u64, LastNumbers), Refusal>
        ensures stays { Stays self.old self.new }
        ensures follows { Follows self.old.link self.new.link }
        ensures granted { IfOk result (λ g.
            IsGrantedOver self.old.link self.new.link g.0 g.1) }
        ensures refused { IfErr result (IsUngrantedOver self.old.link self.new.link) }
    {
        self.prepare_turn();
        self.grant()
    }

    /// Asks for the turn, whose request is sent ahead or not.
    fn grant(&mut self) -> Result<(u64, LastNumbers), Refusal>
        ensures stays { Stays self.old self.new }
        ensures follows { Follows self.old.link self.new.link }
        ensures granted { IfOk result (λ g.
            Exchanged Grant self.old.link self.new.link (Granted g.0 g.1)) }
        ensures refused { IfErr result (IsRefusal Grant self.old.link self.new.link) }
    {
        self.early.is_asked = false;
        self.view
            .source_mut()
            .source_mut()
            .source_mut()
            .source_mut()
            .client_mut()
            .grant()
    }

    /// Sends the request for the turn ahead, and with it those for the users' last commits, unless
    /// that was done. What else was sent ahead is passed by.
    fn prepare_turn(&mut self)
        ensures stays { Stays self.old self.new }
        ensures follows { Follows self.old.link self.new.link }
    {
        if self.early.is_asked {
            return;
        }
        self.pass_over();
        self.clear();
        self.send_turn();
    }

    /// Sends the request for the turn ahead, and with it those for the users' last commits.
    fn send_turn(&mut self)
        ensures stays { Stays self.old self.new }
        ensures ahead { GoesAhead self.old.link self.new.link }
    {
        let outbox = self
            .view
            .source_mut()
            .source_mut()
            .source_mut()
            .source_mut();
        self.early.send_turn(outbox.client_mut());
    }
}

/// Tells whether another has the turn, for which a client may ask again.
fn is_busy(answered: &Result<(u64, LastNumbers), Refusal>) -> bool {
    match answered {
        Err(Refusal::Busy(seat)) => *seat != NO_SEAT,
        _ => false,
    }
}
