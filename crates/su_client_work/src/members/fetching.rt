// How a client fetches commits, and what they name, ahead of their turn.
ghost use Rattle.std.specs.Prelude.{◌<◌, ◌+◌, Some, false, IfOk, IfNone};
ghost use Rattle.su_client_work.specs.declared.ready.TheConstants.{MOST_READY};
ghost use Rattle.su_message.specs.declared.requests.Request.TheVariants.{Fetch};
ghost use Rattle.su_client.specs.Link.{Exchanged, Follows, kept_or_nothing};
ghost use Rattle.su_client_work.specs.Member.{Stays};
ghost use Rattle.su_client_work.specs.Turn.{SaysNothing, commit_or_nothing};

use crate::logs::presumed_keys;
use crate::members::Member;
use crate::ready::{Fetched, MOST_READY, Ready};
use crate::shown::Shown;
use crate::surroundings::Surroundings;
use std::io::{Read, Write};
use su_bytes::{Digest, Refusal};
use su_lms::KeyStore;
use su_message::{Bytes, Request};
use su_version::Commit;

impl<R: Read + Drop, W: Write + Drop, K: KeyStore + Drop> Member<R, W, K> {
    /// Fetches the commits behind so many, up to `count` or many, but for those that are shown, and
    /// finds out on all cores which of them all are signed. The requests leave together, and behind
    /// them those for the items of all.
    pub(super) fn fetch_ready<A: Surroundings<R, W>>(
        &mut self,
        around: &mut A,
        held: u64,
        count: u64,
        shown: &Shown,
    ) -> Result<Ready, Refusal>
        ensures stays { Stays self.old self.new }
        ensures follows { Follows self.old.link self.new.link }
    {
        let end = count.min(held.saturating_add(MOST_READY));
        let mut leave = self.send_fetches(held, end, shown);
        let keys = presumed_keys(self.alloc, &self.view)?;
        let mut fetched = Fetched::new(self.alloc, keys);
        for before in held..end {
            self.fetch_one(before + 1, shown, &mut fetched, &mut leave)?;
        }
        Ok(fetched.examined(around.host(), self.alloc, end))
    }

    /// Sends the requests for these commits ahead of their time, but for those that are shown, and
    /// tells whether all are on their way.
    fn send_fetches(&mut self, held: u64, end: u64, shown: &Shown) -> bool
        ensures stays { Stays self.old self.new }
        ensures follows { Follows self.old.link self.new.link }
    {
        self.pass_over();
        for before in held..end {
            if !self.send_fetch(before + 1, shown) {
                return false;
            }
        }
        true
    }

    /// Sends the request for the commit of that number ahead of its time, unless it is shown, and
    /// tells whether it is on its way, if so.
    fn send_fetch(&mut self, number: u64, shown: &Shown) -> bool
        ensures stays { Stays self.old self.new }
        ensures follows { Follows self.old.link self.new.link }
    {
        if shown.of(number).is_some() {
            return true;
        }
        self.send_ahead(&Request::Fetch(number))
    }

    /// Adds the commit of that number, as it is shown, or else fetched. Where all requests before
    /// are on their way, that for its item is sent ahead.
    fn fetch_one(
        &mut self,
        number: u64,
        shown: &Shown,
        fetched: &mut Fetched,
        leave: &mut bool,
    ) -> Result<(), Refusal>
        ensures stays { Stays self.old self.new }
        ensures follows { Follows self.old.link self.new.link }
    {
        let named = self.named_by(number, shown, fetched)?;
        *leave = self.send_get(named, *leave);
        Ok(())
    }

    /// Adds the commit of that number, as it is shown, or else fetched, and tells the digest of its
    /// item.
    fn named_by(
        &mut self,
        number: u64,
        shown: &Shown,
        fetched: &mut Fetched,
    ) -> Result<Option<Digest>, Refusal>
        ensures stays { Stays self.old self.new }
        ensures follows { Follows self.old.link self.new.link }
    {
        if let Some(commit) = shown.of(number) {
            let bytes = commit.encode(self.alloc)?;
            return fetched.push(self.alloc, bytes);
        }
        match self.fetch(number)? {
            Some(bytes) => fetched.push(self.alloc, bytes.into_vec()),
            None => Ok(None),
        }
    }

    /// Sends the request for an item ahead of its time, if there is one and those before are on
    /// their way, and tells whether all are.
    fn send_get(&mut self, named: Option<Digest>, leave: bool) -> bool
        ensures stays { Stays self.old self.new }
        ensures follows { Follows self.old.link self.new.link }
    {
        match named {
            Some(digest) if leave => self.send_ahead(&Request::Get(digest)),
            _ => leave,
        }
    }

    /// Fetches the commit of that number; none where the server says that it has none.
    pub(super) fn fetch_commit(&mut self, number: u64) -> Result<Option<Commit>, Refusal>
        ensures stays { Stays self.old self.new }
        ensures follows { Follows self.old.link self.new.link }
        ensures shown { IfOk result (λ commit. Exchanged (Fetch number) self.old.link
            self.new.link (commit_or_nothing commit)) }
    {
        match self.fetch(number)? {
            Some(bytes) => Ok(Some(Commit::decode(self.alloc, bytes.as_slice())?)),
            None => Ok(None),
        }
    }

    /// Fetches the bytes of the commit of that number; none where the server says that it has none.
    fn fetch(&mut self, number: u64) -> Result<Option<Bytes>, Refusal>
        ensures stays { Stays self.old self.new }
        ensures follows { Follows self.old.link self.new.link }
        ensures fetched { IfOk result (λ bytes. Exchanged (Fetch number) self.old.link
            self.new.link (kept_or_nothing bytes)) }
    {
        self.view
            .source_mut()
            .source_mut()
            .source_mut()
            .source_mut()
            .client_mut()
            .fetch(number)
    }

    /// Passes what was sent ahead by, and fetches the bytes of the commit of that number.
    pub(super) fn fetch_alone(&mut self, number: u64) -> Result<Option<Bytes>, Refusal>
        ensures stays { Stays self.old self.new }
        ensures follows { Follows self.old.link self.new.link }
        ensures nothing { IfOk result (λ bytes.
            IfNone bytes (SaysNothing self.old.link self.new.link)) }
    {
        self.pass_over();
        self.fetch(number)
    }
}
