// What a client changes: each change is a commit of its own.
ghost use Rattle.std.specs.Prelude.{◌≡◌, ◌-◌, ℕ, Ok, IfErr, IfOk, OnOk, OnErr, length, slice_get};
ghost use Rattle.std.specs.Option.{unwrap_or};
ghost use Rattle.su_client.specs.Link.{Follows, GoesAhead};
ghost use Rattle.su_client.specs.Outbox.{contents, IsHandedIn};
ghost use Rattle.su_desk.specs.History.{last_live};
ghost use Rattle.su_legal.specs.Legal.{history};
ghost use Rattle.su_lms.specs.PrivateKey.{key_of};
ghost use Rattle.su_op.specs.declared.operations.Change.TheVariants.{Rekey, Undo};
ghost use Rattle.su_plan.specs.Plan.{plan};
ghost use Rattle.su_version.specs.Chain.{IsSignedBy};
ghost use Rattle.su_view.specs.Holding.{tree_of_list};
ghost use Rattle.su_view.specs.Making.{own_key};
ghost use Rattle.su_client_work.specs.Member.{IsClear, OnlyAsks, OnlyTakes, Stays};
ghost use Rattle.su_client_work.specs.Publishing.{always, last_undo, CommitsAtMost, EndsTurn, HandsIn, IsOver, IsPublished, Publishes, Rekeys, RekeysAtMost, SignsAtMost, SignsNone, TakesOwn};
ghost use Rattle.su_client_work.specs.Turn.{Comes, GivesUp, IsRefusedTurn, TakesTurn};
ghost use Rattle.su_client_work.specs.Work.{Works};

use crate::early::Early;
use crate::members::Member;
use crate::surroundings::Surroundings;
use std::alloc::Global;
use std::io::{Read, Write};
use su_block::digest_of;
use su_bytes::Refusal;
use su_client::Outbox;
use su_lms::{KeyStore, Signer};
use su_message::{Bytes, Request};
use su_op::{Change, Op};
use su_plan::Command;
use su_version::{Commit, Verdict};
use su_view::ViewRefusal;

impl<R: Read + Drop, W: Write + Drop, K: KeyStore + Drop> Member<R, W, K> {
    /// Plans a command on paths, once all commits are taken. Where there are operations, the turn is
    /// held, and `publish` can commit the first of them; where there are none, it is given back. The
    /// refusals are those of `begin`, and then of `View::plan`.
    pub fn plan<A: Surroundings<R, W>>(
        &mut self,
        around: &mut A,
        command: &Command,
    ) -> Result<Vec<Op>, ViewRefusal>
        ensures takes { OnlyTakes self.old self.new }
        ensures link { Comes A.may_connect self.old.link self.new.link }
        ensures turn { OnOk result (TakesTurn A.may_connect self.old.link self.new.holding
            self.new.link) }
        ensures planned { let v = self.new.holding in IsClear self.new
            → IfOk result (λ operations.
            plan v.roster (tree_of_list v) v.user command.now ≡ Ok operations.items) }
        ensures refused { IfErr result
            (IsRefusedTurn A.may_connect self.old.link self.new.link) }
    {
        self.begin(around)?;
        match self.plan_one(command) {
            Ok(operations) => {
                self.keep_turn(!operations.is_empty());
                Ok(operations)
            }
            Err(refusal) => {
                self.give_up();
                Err(ViewRefusal::Plain(refusal))
            }
        }
    }

    /// Plans a command on the tree of the list. The refusals of `View::plan`.
    fn plan_one(&mut self, command: &Command) -> Result<Vec<Op>, Refusal>
        ensures planned { let v = self.old.holding in IsClear self.new
            → IfOk result (λ operations.
            plan v.roster (tree_of_list v) v.user command.now ≡ Ok operations.items) }
        ensures asks { OnlyAsks self.old self.new }
        ensures follows { Follows self.old.link self.new.link }
    {
        self.view.plan(command)
    }

    /// Gives the turn back, unless it is to be kept.
    fn keep_turn(&mut self, keeps: bool)
        ensures stays { Stays self.old self.new }
        ensures follows { Follows self.old.link self.new.link }
    {
        if !keeps {
            self.give_up();
        }
    }

    /// Commits a change, once all commits are taken, and returns the number of its commit. Where
    /// another one is to follow at once, the next turn is asked for with it. The refusals are those
    /// of `begin`, and then of `publish`.
    pub fn change<A: Surroundings<R, W>>(
        &mut self,
        around: &mut A,
        change: Change,
        is_followed: bool,
    ) -> Result<u64, ViewRefusal>
        ensures works { Works self.old self.new }
        ensures signs { CommitsAtMost (always change) self.old result self.new }
        ensures link { Comes A.may_connect self.old.link self.new.link }
        ensures published { IfOk result
            (Publishes A.may_connect (always change) self.old self.new) }
        ensures over { IfErr result (IsOver A.may_connect change self.old self.new) }
    {
        self.begin(around)?;
        self.publish(change, is_followed)
    }

    /// Undoes the last operation that stands, once all commits are taken, and returns the number of
    /// the commit. The refusals are those of `change`: where no operation stands, `Change` of
    /// `NoOperation` 0; or as a load is refused.
    pub fn undo_last<A: Surroundings<R, W>>(&mut self, around: &mut A) -> Result<u64, ViewRefusal>
        ensures works { Works self.old self.new }
        ensures signs { IsClear self.new → CommitsAtMost last_undo self.old result self.new }
        ensures link { Comes A.may_connect self.old.link self.new.link }
        ensures published { IsClear self.new → IfOk result
            (Publishes A.may_connect last_undo self.old self.new) }
        // In any case it signs and publishes no more than the undo of some operation.
        ensures undoes { (number : ℕ)
            × CommitsAtMost (always (Undo number)) self.old result self.new }
        ensures undone { IfOk result (λ n. (number : ℕ)
            × Publishes A.may_connect (always (Undo number)) self.old self.new n) }
        ensures over { IfErr result (λ e. (number : ℕ)
            × IsOver A.may_connect (Undo number) self.old self.new e) }
    {
        self.begin(around)?;
        match self.last_live() {
            Ok(last) => self.publish(Change::Undo(last), false),
            Err(refusal) => {
                self.give_up();
                Err(ViewRefusal::Plain(refusal))
            }
        }
    }

    /// Commits a rekey to the key of this signer, once all commits are taken, and returns the number
    /// of its commit, which the client's own key signs. From then on the client signs with this one;
    /// where it is refused, with its own as before. The refusals are those of `change`: `Change` of
    /// `KeyReuse` where a user has or had the key.
    pub fn rekey<A: Surroundings<R, W>>(
        &mut self,
        around: &mut A,
        signer: Signer<K>,
    ) -> Result<u64, ViewRefusal>
        ensures works { Works self.old self.new }
        ensures signs { RekeysAtMost (key_of signer.key) signer.next self.old result self.new }
        ensures link { Comes A.may_connect self.old.link self.new.link }
        ensures published { IfOk result
            (Rekeys A.may_connect (key_of signer.key) signer.next self.old self.new) }
        ensures over { IfErr result
            (IsOver A.may_connect (Rekey (key_of signer.key)) self.old self.new) }
    {
        let change = Change::Rekey(*signer.public().as_bytes());
        let number = self.change(around, change, false)?;
        self.replace_key(signer);
        Ok(number)
    }

    /// Returns the number of the last operation that stands, 0 where there is none. Fails as a load
    /// does, and with `NoMemory`.
    fn last_live(&mut self) -> Result<u64, Refusal>
        ensures value { IsClear self.new
            → IfOk result (λ last. last ≡ last_live (history self.old.holding.held)) }
        ensures asks { OnlyAsks self.old self.new }
        ensures follows { Follows self.old.link self.new.link }
    {
        let live = self.view.live()?;
        Ok(last_or_0(live.as_slice()))
    }

    /// Commits a change while the client has the turn: makes the commit, which the next leaf of the
    /// key signs, hands it in, and takes it once it is stored; returns its number in the list. That
    /// ends the turn; on a refusal it is given back. Where another change is to follow at once, the
    /// next turn is asked for with it. The refusals are those of `View::make`, of `Client::commit`
    /// and of `View::accept`.
    pub fn publish(&mut self, change: Change, is_followed: bool) -> Result<u64, ViewRefusal>
        ensures works { Works self.old self.new }
        ensures signs { SignsAtMost self.old.holding change self.old self.new }
        ensures follows { Follows self.old.link self.new.link }
        ensures published { IfOk result (IsPublished change self.old self.new) }
        // On a refusal it isn't taken, and the turn is over.
        ensures err { OnErr result (self.new.holding ≡ self.old.holding) }
        ensures ends { OnErr result (EndsTurn change self.old self.new) }
    {
        let commit = self.hand_in(change, is_followed)?;
        self.take_own(commit)
    }

    /// Takes a commit that the client has just made, and returns its number in the list. It was
    /// signed by the user's key, so this isn't checked again. The refusals are those of
    /// `View::accept`.
    fn take_own(&mut self, commit: Commit) -> Result<u64, ViewRefusal>
        requires signed { IsSignedBy (own_key self.old.holding) commit }
        ensures signs { SignsNone self.old self.new }
        ensures clear { IsClear self.new → IsClear self.old }
        ensures follows { Follows self.old.link self.new.link }
        ensures took { IfOk result (TakesOwn self.old commit self.new) }
        ensures err { OnErr result (self.new.holding ≡ self.old.holding) }
    {
        let bytes = commit.encode(self.alloc)?;
        let verdict = Verdict {
            key: self.view.key(self.view.user()),
            is_signed: true,
        };
        let digest = digest_of(bytes.as_slice());
        self.view
            .accept_known(commit, bytes.as_slice(), digest, verdict)?;
        let (number, _) = self.view.head();
        Ok(number)
    }

    /// Makes a commit and hands it in. Where one of them is refused, the turn is given back.
    fn hand_in(&mut self, change: Change, is_followed: bool) -> Result<Commit, ViewRefusal>
        ensures holding { self.new.holding ≡ self.old.holding }
        ensures clear { IsClear self.new → IsClear self.old }
        ensures signs { SignsAtMost self.old.holding change self.old self.new }
        ensures follows { Follows self.old.link self.new.link }
        ensures stored { IfOk result (λ c. HandsIn change self.old c self.new) }
        ensures gives_up { OnErr result (GivesUp self.old.link self.new.link) }
    {
        match self.store_new(change, is_followed) {
            Ok(commit) => Ok(commit),
            Err(refusal) => {
                self.give_up();
                Err(refusal)
            }
        }
    }

    /// Makes a commit, and lets the server store it.
    fn store_new(&mut self, change: Change, is_followed: bool) -> Result<Commit, ViewRefusal>
        ensures holding { self.new.holding ≡ self.old.holding }
        ensures clear { IsClear self.new → IsClear self.old }
        ensures signs { SignsAtMost self.old.holding change self.old self.new }
        ensures follows { Follows self.old.link self.new.link }
        ensures stored { IfOk result (λ c. HandsIn change self.old c self.new) }
    {
        let scratch = self.view.source_mut().source_mut().source_mut();
        scratch.leave(false);
        scratch.source_mut().forget();
        let commit = self.view.make(change, &mut self.key)?;
        let Ok(bytes) = commit.encode(self.alloc) else {
            return Err(ViewRefusal::Plain(Refusal::NoMemory));
        };
        let (held, _) = self.view.head();
        self.early
            .note_own(self.view.user(), held.saturating_add(1));
        let outbox = self
            .view
            .source_mut()
            .source_mut()
            .source_mut()
            .source_mut();
        match hand_over(self.alloc, outbox, bytes, &mut self.early, is_followed) {
            Ok(_) => Ok(commit),
            Err(refusal) => Err(ViewRefusal::Plain(refusal)),
        }
    }
}

/// Hands in a commit by its bytes, once the items that wait are put: all of them leave together, and
/// with them the requests for the next turn, where that is to follow.
fn hand_over<R: Read + Drop, W: Write + Drop>(
    alloc: Global,
    outbox: &mut Outbox<R, W>,
    bytes: Vec<u8>,
    early: &mut Early,
    is_followed: bool,
) -> Result<u64, Refusal>
    ensures handed_in { IfOk result (IsHandedIn (contents outbox.old.waiting.items) bytes.items
        outbox.old.client.link outbox.new.client.link) }
    ensures follows { Follows outbox.old.client.link outbox.new.client.link }
{
    send_all(alloc, outbox, bytes.as_slice(), early, is_followed);
    outbox.hand_in(alloc, bytes)
}

/// Sends the items that wait and a commit ahead of their time, and with them the requests for the
/// next turn, where that is to follow; as far as they leave.
fn send_all<R: Read + Drop, W: Write + Drop>(
    alloc: Global,
    outbox: &mut Outbox<R, W>,
    commit: &[u8],
    early: &mut Early,
    is_followed: bool,
)
    ensures ahead { GoesAhead outbox.old.client.link outbox.new.client.link }
    ensures waiting { outbox.new.waiting ≡ outbox.old.waiting }
{
    let Ok(commit) = Bytes::copy_of(alloc, commit) else {
        return;
    };
    if !outbox.send_ahead(alloc) {
        return;
    }
    if !send_commit(outbox, commit) {
        return;
    }
    if is_followed {
        early.send_turn(outbox.client_mut());
    }
}

/// Sends a commit ahead of its time, and tells whether it is on its way.
fn send_commit<R: Read + Drop, W: Write + Drop>(outbox: &mut Outbox<R, W>, commit: Bytes) -> bool
    ensures ahead { GoesAhead outbox.old.client.link outbox.new.client.link }
    ensures waiting { outbox.new.waiting ≡ outbox.old.waiting }
{
    outbox.client_mut().send_ahead(&Request::Commit(commit))
}

/// Returns the last of some numbers, 0 where there is none.
fn last_or_0(numbers: &[u64]) -> u64
    ensures { result ≡ unwrap_or (slice_get numbers.now (length numbers.now - 1)) 0 }
{
    numbers.last().copied().unwrap_or(0)
}
