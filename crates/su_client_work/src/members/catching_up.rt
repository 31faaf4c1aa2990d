// How a client takes the commits that it lacks.
ghost use Rattle.std.specs.Prelude.{◌≡◌, ◌<◌, ◌+◌, ℕ, [], Some, false, length, nat_le, slice_get, IfOk, OnOk};
ghost use Rattle.su_client_work.specs.declared.ready.TheConstants.{MOST_READY};
ghost use Rattle.su_message.specs.declared.requests.Request.TheVariants.{Fetch};
ghost use Rattle.su_client.specs.Link.{Follows};
ghost use Rattle.su_log.specs.Record.{IsExamined};
ghost use Rattle.su_client_work.specs.Member.{OnlyTakes, Stays};
ghost use Rattle.su_client_work.specs.Turn.{AreShown, HasMore, IsCaughtUp, IsShown, PassesShown};

use crate::logs::take_commit;
use crate::members::Member;
use crate::ready::{MOST_READY, Ready};
use crate::shown::Shown;
use crate::surroundings::Surroundings;
use std::io::{Read, Write};
use su_bytes::{Refusal, User};
use su_lms::KeyStore;
use su_log::Record;
use su_message::Request;
use su_view::ViewRefusal;

impl<R: Read + Drop, W: Write + Drop, K: KeyStore + Drop> Member<R, W, K> {
    /// Takes what the list lacks of so many commits, and checks what the server shows as the last
    /// commits of these users, each of which is held then, if the server tells no lies.
    pub(super) fn catch_up<A: Surroundings<R, W>>(
        &mut self,
        around: &mut A,
        count: u64,
        last: &[(User, u64)],
    ) -> Result<(), ViewRefusal>
        ensures takes { OnlyTakes self.old self.new }
        ensures follows { Follows self.old.link self.new.link }
        ensures passes { OnOk result
            (PassesShown self.new.holding last.now self.old.link self.new.link) }
        ensures caught_up { OnOk result
            (IsCaughtUp count self.new.holding self.old.link self.new.link) }
    {
        let shown = self.last_commits(last)?;
        self.take_up_to(around, count, &shown)?;
        self.view.check_list(shown.commits())
    }

    /// Catches up as `catch_up` does where the list lacks `most` commits at most, and answers `false`;
    /// else takes so many, and answers `true`.
    pub(super) fn catch_up_some<A: Surroundings<R, W>>(
        &mut self,
        around: &mut A,
        count: u64,
        last: &[(User, u64)],
        most: u64,
    ) -> Result<bool, ViewRefusal>
        ensures takes { OnlyTakes self.old self.new }
        ensures follows { Follows self.old.link self.new.link }
        ensures passes { IfOk result (λ has_more. has_more ≡ false
            → PassesShown self.new.holding last.now self.old.link self.new.link) }
        ensures caught_up { IfOk result (λ has_more. has_more ≡ false
            → IsCaughtUp count self.new.holding self.old.link self.new.link) }
    {
        let (held, _) = self.view.head();
        let end_ = held.saturating_add(most);
        if end_ < count {
            let shown = Shown::new(self.alloc);
            self.pass_over();
            self.take_up_to(around, end_, &shown)?;
            return Ok(true);
        }
        self.catch_up(around, count, last)?;
        Ok(false)
    }

    /// Fetches these last commits. What the server says that it hasn't is left out.
    fn last_commits(&mut self, last: &[(User, u64)]) -> Result<Shown, Refusal>
        ensures stays { Stays self.old self.new }
        ensures follows { Follows self.old.link self.new.link }
        ensures shown { IfOk result (λ shown.
            AreShown last.now [] self.old.link shown.commits.items self.new.link) }
    {
        let mut shown = Shown::new(self.alloc);
        let same = self.early.same_as(last);
        for index in 0..last.len() {
            self.fetch_shown(last, index, same, &mut shown)?;
        }
        self.early.note(self.alloc, last);
        Ok(shown)
    }

    /// Fetches the last commit at this place among these, and adds it to those that are shown. So
    /// many of them were asked for ahead of their time.
    fn fetch_shown(
        &mut self,
        last: &[(User, u64)],
        index: usize,
        same: usize,
        shown: &mut Shown,
    ) -> Result<(), Refusal>
        requires { index < length last.now }
        ensures stays { Stays self.old self.new }
        ensures follows { Follows self.old.link self.new.link }
        ensures shown { (u : ℕ × ℕ) → slice_get last.now index ≡ Some u
            → OnOk result (IsShown u.1 shown.old.commits.items self.old.link
            shown.new.commits.items self.new.link) }
    {
        self.turn_to(last, index, same);
        let (_, number) = last[index];
        match self.fetch_commit(number)? {
            Some(commit) => {
                shown.push(number, commit)?;
                Ok(())
            }
            None => Ok(()),
        }
    }

    /// Where the last commits weren't asked for ahead of their time from this place on, sends the
    /// requests for them ahead.
    fn turn_to(&mut self, last: &[(User, u64)], index: usize, same: usize)
        requires { index < length last.now }
        ensures stays { Stays self.old self.new }
        ensures follows { Follows self.old.link self.new.link }
    {
        if index == same {
            self.send_rest(&last[index..]);
        }
    }

    /// Passes what was sent ahead by, and sends the requests for these last commits ahead.
    fn send_rest(&mut self, last: &[(User, u64)])
        ensures stays { Stays self.old self.new }
        ensures follows { Follows self.old.link self.new.link }
    {
        self.pass_over();
        for (_, number) in last {
            if !self.send_ahead(&Request::Fetch(*number)) {
                return;
            }
        }
    }

    /// Takes the commits that the list lacks of the first `count`, as `take_many` does. What was sent
    /// ahead then and not asked for, as it lay in the cache, is passed by.
    fn take_up_to<A: Surroundings<R, W>>(
        &mut self,
        around: &mut A,
        count: u64,
        shown: &Shown,
    ) -> Result<(), ViewRefusal>
        ensures takes { OnlyTakes self.old self.new }
        ensures follows { Follows self.old.link self.new.link }
        ensures caught_up { OnOk result
            (IsCaughtUp count self.new.holding self.old.link self.new.link) }
    {
        self.take_many(around, count, shown)?;
        self.pass_over();
        Ok(())
    }

    /// Takes the commits that the list lacks of the first `count`, many at a time. What the server
    /// says that it hasn't is left out, so that the one after it is refused. Once the list lacks as
    /// many as are fetched at once, no more are asked for: no number holds a client up.
    fn take_many<A: Surroundings<R, W>>(
        &mut self,
        around: &mut A,
        count: u64,
        shown: &Shown,
    ) -> Result<(), ViewRefusal>
        ensures takes { OnlyTakes self.old self.new }
        ensures follows { Follows self.old.link self.new.link }
        ensures caught_up { OnOk result
            (IsCaughtUp count self.new.holding self.old.link self.new.link) }
    {
        let (held, _) = self.view.head();
        let mut ready = Ready::new(self.alloc);
        for before in held..count {
            if self.lacks_many(before) {
                return Ok(());
            }
            self.take_next(around, before, count, shown, &mut ready)?;
        }
        Ok(())
    }

    /// Tells whether the list lacks as many of the first `count` commits as are fetched at once.
    fn lacks_many(&self, count: u64) -> bool
        ensures { result ≡ nat_le (length self.now.holding.held + MOST_READY) count }
    {
        let (held, _) = self.view.head();
        count.saturating_sub(held) >= MOST_READY
    }

    /// Takes the commit behind so many, of which there are `count`, once it is fetched with others.
    fn take_next<A: Surroundings<R, W>>(
        &mut self,
        around: &mut A,
        before: u64,
        count: u64,
        shown: &Shown,
        ready: &mut Ready,
    ) -> Result<(), ViewRefusal>
        requires { before < count }
        ensures takes { OnlyTakes self.old self.new }
        ensures follows { Follows self.old.link self.new.link }
        ensures more { OnOk result
            (HasMore self.old.holding self.old.link self.new.holding self.new.link) }
    {
        self.make_ready(around, before, count, shown, ready)?;
        self.take_one(before + 1, ready)
    }

    /// Fetches more, where a list of so many commits has all that were fetched.
    fn make_ready<A: Surroundings<R, W>>(
        &mut self,
        around: &mut A,
        held: u64,
        count: u64,
        shown: &Shown,
        ready: &mut Ready,
    ) -> Result<(), Refusal>
        ensures stays { Stays self.old self.new }
        ensures follows { Follows self.old.link self.new.link }
    {
        if !ready.is_taken_at(held) {
            return Ok(());
        }
        *ready = self.fetch_ready(around, held, count, shown)?;
        Ok(())
    }

    /// Takes the commit of that number: what was fetched, or is fetched then.
    fn take_one(&mut self, number: u64, ready: &mut Ready) -> Result<(), ViewRefusal>
        ensures takes { OnlyTakes self.old self.new }
        ensures follows { Follows self.old.link self.new.link }
        ensures more { OnOk result
            (HasMore self.old.holding self.old.link self.new.holding self.new.link) }
    {
        match ready.next() {
            Some(found) => self.take_record(found),
            None => self.take_fetched(number),
        }
    }

    /// Takes a commit that was fetched and examined.
    fn take_record(&mut self, found: Record) -> Result<(), ViewRefusal>
        requires { IsExamined found }
        ensures takes { OnlyTakes self.old self.new }
        ensures follows { Follows self.old.link self.new.link }
        ensures more { OnOk result
            (HasMore self.old.holding self.old.link self.new.holding self.new.link) }
    {
        take_commit(&mut self.view, found)
    }

    /// Takes a commit by its bytes.
    fn take_bytes(&mut self, bytes: &[u8]) -> Result<(), ViewRefusal>
        ensures takes { OnlyTakes self.old self.new }
        ensures follows { Follows self.old.link self.new.link }
        ensures more { OnOk result
            (HasMore self.old.holding self.old.link self.new.holding self.new.link) }
    {
        self.view.accept_bytes(bytes)
    }

    /// Fetches the commit of that number, and takes it. What was sent ahead is passed by.
    fn take_fetched(&mut self, number: u64) -> Result<(), ViewRefusal>
        ensures takes { OnlyTakes self.old self.new }
        ensures follows { Follows self.old.link self.new.link }
        ensures more { OnOk result
            (HasMore self.old.holding self.old.link self.new.holding self.new.link) }
    {
        match self.fetch_alone(number) {
            Ok(Some(bytes)) => self.take_bytes(bytes.as_slice()),
            Ok(None) => Ok(()),
            Err(refusal) => Err(ViewRefusal::Plain(refusal)),
        }
    }
}
