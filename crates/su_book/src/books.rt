// A book.
ghost use Rattle.std.specs.Prelude.{◌≡◌, ◌≢◌, ◌⊎◌, ℕ, [], length, IfOk, IfErr, OnOk, OnErr};
ghost use Rattle.su_bytes.specs.declared.refusals.Refusal.TheVariants.{BadNumber, BadKey, NoMemory};
ghost use Rattle.su_version.specs.Chain.{chain_key};
ghost use Rattle.su_chain.specs.ChainEnd.{HasBadKey};
ghost use Rattle.su_book.specs.declared.events.Event.TheVariants.{Grant, Commit, Give};
ghost use Rattle.su_book.specs.declared.steps.Act.TheVariants.{Granted};
ghost use Rattle.su_book.specs.Machine.{IsCapacity, IsRun, AsksFor, MayFollow, IsRefused, Tells, Stepped, with_step, records_of, count_of};

use crate::events::{BookReply, Event};
use crate::keeping::{Keeping, last_numbers};
use crate::offers::Offer;
use crate::steps::{Act, Step};
use std::alloc::{AllocError, Global};
use std::marker::Model;
use su_bytes::{Refusal, Roster, User};
use su_lms::PublicKey;

/// The most commits that a book may be for.
pub const MOST_RECORDS: u64 = 1_000_000;

/// A book: the steps that its seats made, and what the next one is measured by. Its model is how
/// many commits it may store, the roster of their authors, and the steps.
#[derive(Drop)]
pub struct Book {
    keeping: Keeping,
    alloc: Global,
}

impl Model for Book {
    ghost use Rattle.su_book.specs.Machine.{BookState};
    ghost use Rattle.su_book.specs.Kept.{book_of, IsKeeping};

    ghost Value = { BookState };

    ghost view = { λ b. book_of b.keeping };

    ghost invariant = { λ b. IsKeeping b.keeping };
}

impl Book {
    /// Makes the book that may store so many commits, of users of that roster. `BadNumber` where
    /// they aren't 1 to 1,000,000; `BadKey` where a user's key is none; else only `NoMemory`.
    pub fn new(alloc: Global, capacity: u64, roster: Roster) -> Result<Book, Refusal>
        ensures value { IfOk result (λ b.
            b ≡ record { capacity = capacity; roster = roster; journal = [] }) }
        ensures range { OnOk result (IsCapacity capacity) }
        ensures refused { IfErr result (λ e. ((e ≡ BadNumber) × ¬ IsCapacity capacity)
            ⊎ ((e ≡ BadKey) × IsCapacity capacity × HasBadKey roster) ⊎ (e ≡ NoMemory)) }
    {
        if capacity < 1 || MOST_RECORDS < capacity {
            return Err(Refusal::BadNumber);
        }
        let keeping = Keeping::new(alloc, capacity, roster)?;
        Ok(Book { keeping, alloc })
    }

    /// Returns the number of records.
    pub fn count(&self) -> u64
        ensures count { result ≡ count_of self.now.journal }
        // What holds of each book.
        ensures run { IsRun self.now }
    {
        self.keeping.count()
    }

    /// Returns the number of steps.
    pub fn len(&self) -> usize
        ensures { result ≡ length self.now.journal }
    {
        self.keeping.journal.len()
    }

    /// Returns the key under which a user signs next, if there is such a user.
    pub fn key(&self, user: User) -> Option<PublicKey>
        ensures { result ≡ chain_key self.now.roster user (records_of self.now.journal) }
    {
        self.keeping.key(user)
    }

    /// Finds the step that a seat may make next, as it asks. `Busy` with the seat that has the
    /// turn, where the turn is asked for and another has it. `NotYourTurn` where a commit is handed
    /// in, or the turn given back, by a seat that hasn't the turn. Of a commit then: `Malformed`
    /// where the bytes are none's, with the place of the first part that isn't there;
    /// `BadSignature`, `WrongPrev` with the number of records, `OldFormat`, `WrongVector`, `KeyReuse`,
    /// `BadKey` where it isn't the next, as `ChainEnd::check` says; `BookFull`; and `NoMemory`. It
    /// takes what was found out of the commit before, which the offer then has no longer; where that
    /// isn't under the author's key, it makes one check of a signature. It takes no longer where there
    /// are more steps.
    pub fn answer(&self, seat: u16, event: &mut Event) -> Result<Step, Refusal>
        ensures same { event.new ≡ event.old }
        ensures seat { IfOk result (λ step. step.seat ≡ seat) }
        ensures asked { IfOk result (λ step. AsksFor event.old step.act) }
        ensures follows { IfOk result (λ step. MayFollow self.now step) }
        ensures refused { IfErr result (λ e. IsRefused self.now seat event.old e
            ⊎ ((e ≡ NoMemory) × (event.old ≢ Grant) × (event.old ≢ Give))) }
    {
        match event {
            Event::Grant => self.grant(seat),
            Event::Commit(offer) => self.store(seat, offer),
            Event::Give => self.give(seat),
        }
    }

    fn grant(&self, seat: u16) -> Result<Step, Refusal>
        ensures seat { IfOk result (λ step. step.seat ≡ seat) }
        ensures asked { IfOk result (λ step. AsksFor Grant step.act) }
        ensures follows { IfOk result (λ step. MayFollow self.now step) }
        ensures refused { IfErr result (λ e. IsRefused self.now seat Grant e) }
    {
        if let Some(other) = self.keeping.other_holder(seat) {
            return Err(Refusal::Busy(other));
        }
        let act = Act::Granted(self.keeping.count());
        Ok(Step { seat, act })
    }

    fn store(&self, seat: u16, offer: &mut Offer) -> Result<Step, Refusal>
        ensures same { offer.new ≡ offer.old }
        ensures seat { IfOk result (λ step. step.seat ≡ seat) }
        ensures asked { IfOk result (λ step. AsksFor (Commit offer.old) step.act) }
        ensures follows { IfOk result (λ step. MayFollow self.now step) }
        ensures refused { IfErr result (λ e. IsRefused self.now seat (Commit offer.old) e
            ⊎ (e ≡ NoMemory)) }
    {
        if !self.keeping.has_turn(seat) {
            return Err(Refusal::NotYourTurn);
        }
        let commit = self.keeping.check(self.alloc, offer)?;
        let act = Act::Stored(self.keeping.count() + 1, commit);
        Ok(Step { seat, act })
    }

    fn give(&self, seat: u16) -> Result<Step, Refusal>
        ensures seat { IfOk result (λ step. step.seat ≡ seat) }
        ensures asked { IfOk result (λ step. AsksFor Give step.act) }
        ensures follows { IfOk result (λ step. MayFollow self.now step) }
        ensures refused { IfErr result (λ e. IsRefused self.now seat Give e) }
    {
        if !self.keeping.has_turn(seat) {
            return Err(Refusal::NotYourTurn);
        }
        Ok(Step {
            seat,
            act: Act::Given,
        })
    }

    /// Returns the reply that tells a seat of an act that may follow. Fails only with `NoMemory`,
    /// and only of a grant.
    pub fn reply(&self, act: &Act) -> Result<BookReply, AllocError>
        ensures told { IfOk result (Tells (records_of self.now.journal) act.now) }
        ensures refused { OnErr result ((n : ℕ) × (act.now ≡ Granted n)) }
    {
        match act {
            Act::Granted(count) => Ok(BookReply::Granted {
                count: *count,
                last: last_numbers(self.alloc, &self.keeping.last)?,
            }),
            Act::Stored(number, _) => Ok(BookReply::Stored { number: *number }),
            Act::Given => Ok(BookReply::Given),
        }
    }

    /// Adds a step that may follow. Only a grant takes memory, for the next key that the commit of
    /// that turn may name. Only a grant can fail: for want of it, or where neither the grant nor the
    /// step that ends the turn can be counted any more; that changes nothing.
    pub fn apply(&mut self, step: Step) -> Result<(), AllocError>
        requires follows { MayFollow self.old step }
        ensures added { OnOk result (self.new ≡ with_step self.old step) }
        ensures err { OnErr result ((self.new ≡ self.old) × (n : ℕ) × (step.act ≡ Granted n)) }
    {
        self.keeping.make_room(&step.act)?;
        self.keeping.push(step);
        Ok(())
    }

    /// Makes the step that a seat asks for, and tells the seat of it. The refusals are those of
    /// `answer`, and of a grant `NoMemory`; they change nothing.
    pub fn step(&mut self, seat: u16, event: &mut Event) -> Result<BookReply, Refusal>
        ensures same { event.new ≡ event.old }
        ensures stepped { IfOk result (Stepped self.old seat event.old self.new) }
        ensures refused { IfErr result (λ e. IsRefused self.old seat event.old e
            ⊎ ((e ≡ NoMemory) × (event.old ≢ Give))) }
        ensures err { OnErr result (self.new ≡ self.old) }
    {
        let step = self.answer(seat, event)?;
        let reply = self.reply(&step.act)?;
        self.apply(step)?;
        Ok(reply)
    }
}
