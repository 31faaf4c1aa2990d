// How a book is kept.
ghost use Rattle.std.specs.Prelude.{◌≡◌, ◌≢◌, ◌<◌, ◌+◌, ◌-◌, ◌^◌, ◌⊎◌, ◌↔◌, ◌++◌, ℕ, List, [], IsTrue, IfSome, IfNone, Some, None, length, IfOk, IfErr, OnOk, OnErr};
ghost use Rattle.su_bytes.specs.Membership.{Membership};
ghost use Rattle.su_bytes.specs.Order.{Passes, RefusedBy};
ghost use Rattle.su_bytes.specs.declared.refusals.Refusal.TheVariants.{BadKey, NoMemory};
ghost use Rattle.su_version.specs.Commit.{Commit as CommitParts, IsCommit, commit_bytes};
ghost use Rattle.su_version.specs.Chain.{MayBeNext, chain_key, next_order, tip};
ghost use Rattle.su_used_keys.specs.UsedKeys.{HasRoom};
ghost use Rattle.su_chain.specs.ChainEnd.{IsEndOf, HasBadKey};
ghost use Rattle.su_book.specs.declared.steps.Act.TheVariants.{Granted, Stored, Given};
ghost use Rattle.su_book.specs.Machine.{IsCapacity, MayFollow, IsUnfit, storing_order, stored_by, turn_after, with_step, holder_of, records_of, count_of, last_numbers, paired};
ghost use Rattle.su_book.specs.Offer.{IsVerdict};
ghost use Rattle.su_book.specs.Kept.{AreLast, IsKeeping, book_of, StoresNext};

use crate::commits::HashedCommit;
use crate::journals::Journal;
use crate::offers::{Found, Offer};
use crate::steps::{Act, Step};
use std::alloc::{AllocError, Global};
use su_bytes::{Refusal, Roster, User};
use su_chain::ChainEnd;
use su_lms::PublicKey;
use su_version::{Commit, Verdict};

/// How many users there can be.
const USERS: usize = 64;

/// From so many steps on no turn is granted, so that steps can be counted.
const MOST_STEPS: usize = usize::MAX - 2;

/// What a book keeps: how many commits it may store, the roster, the steps, and what these come to:
/// the seat that has the turn, the end of the chain of records, and the number of each user's last
/// one. (It has no model, so that its fields can be lent; what it means is its owner's.)
#[derive(Drop)]
pub(crate) struct Keeping {
    pub(crate) capacity: u64,
    pub(crate) roster: Roster,
    pub(crate) journal: Journal,
    pub(crate) holder: Option<u16>,
    pub(crate) end: ChainEnd,
    pub(crate) last: Vec<Option<u64>>,
}

impl Keeping {
    /// Makes what is kept before the first step. `BadKey` where a user's key is none; else only
    /// `NoMemory`.
    pub fn new(alloc: Global, capacity: u64, roster: Roster) -> Result<Keeping, Refusal>
        requires capacity { IsCapacity capacity }
        ensures kept { IfOk result (λ k. IsKeeping k) }
        ensures value { IfOk result (λ k. book_of k
            ≡ record { capacity = capacity; roster = roster; journal = [] }) }
        ensures refused { IfErr result (λ e. ((e ≡ BadKey) × HasBadKey roster) ⊎ (e ≡ NoMemory)) }
    {
        let end = ChainEnd::new(alloc, &roster)?;
        let last = no_numbers(alloc)?;
        Ok(Keeping {
            capacity,
            roster,
            journal: Journal::new(),
            holder: None,
            end,
            last,
        })
    }

    /// Returns the number of records.
    pub fn count(&self) -> u64
        requires kept { IsKeeping self.now }
        ensures { result ≡ count_of self.now.journal }
    {
        self.end.number()
    }

    /// Whether the seat has the turn.
    pub fn has_turn(&self, seat: u16) -> bool
        requires kept { IsKeeping self.now }
        ensures { IsTrue result ↔ (holder_of self.now.journal ≡ Some seat) }
    {
        self.holder == Some(seat)
    }

    /// Finds another seat that has the turn.
    pub fn other_holder(&self, seat: u16) -> Option<u16>
        requires kept { IsKeeping self.now }
        ensures other { IfSome result (λ other.
            (holder_of self.now.journal ≡ Some other) × (other ≢ seat)) }
        ensures none { IfNone result ((other : ℕ)
            → holder_of self.now.journal ≡ Some other → other ≡ seat) }
    {
        self.holder.filter(|holder| *holder != seat)
    }

    /// Returns the key under which a user signs next, if there is such a user.
    pub fn key(&self, user: User) -> Option<PublicKey>
        requires kept { IsKeeping self.now }
        ensures { result ≡ chain_key self.now.roster user (records_of self.now.journal) }
    {
        self.end.key(user)
    }

    /// Checks whether the commit of these bytes may be stored, but for the turn. It takes what was
    /// found out of them before, and checks the signature where there is no verdict on it under the
    /// author's key.
    pub fn check(&self, alloc: Global, offer: &mut Offer) -> Result<HashedCommit, Refusal>
        requires kept { IsKeeping self.now }
        ensures same { offer.new ≡ offer.old }
        ensures spelled { IfOk result (λ c. offer.old.items ≡ commit_bytes c) }
        ensures commit { IfOk result IsCommit }
        ensures fits { IfOk result (λ c. Passes (storing_order (book_of self.now) c)) }
        ensures refused { IfErr result (λ e.
            (e ≡ NoMemory) ⊎ IsUnfit (book_of self.now) offer.old.items e) }
    {
        let Found { commit, verdict } = offer.give_up(alloc)?;
        self.check_next(alloc, verdict, commit.commit())?;
        if self.end.number() >= self.capacity {
            return Err(Refusal::BookFull);
        }
        Ok(commit)
    }

    /// Checks whether a commit may come next after the records, as `ChainEnd::check` does. It takes
    /// the verdict on its signature, if there is one under the author's key.
    fn check_next(
        &self,
        alloc: Global,
        verdict: Option<Verdict>,
        commit: &Commit,
    ) -> Result<(), Refusal>
        requires kept { IsKeeping self.now }
        requires verdict { IsVerdict commit.now verdict }
        ensures next { OnOk result
            (MayBeNext self.now.roster (records_of self.now.journal) commit.now) }
        ensures refused { IfErr result (λ e. (e ≡ NoMemory)
            ⊎ RefusedBy (next_order self.now.roster
            (tip self.now.roster (records_of self.now.journal) commit.now.version.author)
            commit.now) e) }
    {
        match verdict {
            Some(verdict) => self.end.check_known(alloc, &self.roster, verdict, commit),
            None => self.end.check(alloc, &self.roster, commit),
        }
    }

    /// Makes room for a step: sees that a grant can be counted, and the step that ends the turn, and
    /// that a next key can be kept then. Only a grant can fail.
    pub fn make_room(&mut self, act: &Act) -> Result<(), AllocError>
        requires kept { IsKeeping self.old }
        ensures kept { IsKeeping self.new }
        ensures same { book_of self.new ≡ book_of self.old }
        ensures room { OnOk result ((n : ℕ) → act.now ≡ Granted n
            → (length self.new.journal + 2 < 2 ^ 64) × HasRoom self.new.end.used) }
        ensures only { OnErr result ((n : ℕ) × (act.now ≡ Granted n)) }
    {
        find_room(&self.journal, act)?;
        match act {
            Act::Granted(_) if self.holder.is_none() => self.end.reserve(),
            _ => Ok(()),
        }
    }

    /// Adds a step that may follow. It takes no memory.
    pub fn push(&mut self, step: Step)
        requires kept { IsKeeping self.old }
        requires follows { MayFollow (book_of self.old) step }
        requires room { length self.old.journal + 1 < 2 ^ 64 }
        requires more { turn_after step.seat step.act ≢ None
            → length self.old.journal + 2 < 2 ^ 64 }
        requires key_room { turn_after step.seat step.act ≢ None → HasRoom self.old.end.used }
        ensures kept { IsKeeping self.new }
        ensures pushed { book_of self.new ≡ with_step (book_of self.old) step }
    {
        self.holder = turn_after(step.seat, &step.act);
        add_record(&mut self.end, &self.roster, &step.act);
        set_last(&mut self.last, &step.act);
        self.journal.push(&step);
    }
}

#[tactic(auto, unfolding(crate::specs::Machine::last_number))]
/// Makes the list in which no user has a number.
fn no_numbers(alloc: Global) -> Result<Vec<Option<u64>>, AllocError>
    ensures { IfOk result (λ last. AreLast [] last.items) }
{
    let mut last = Vec::with_capacity(alloc, USERS)?;
    for _ in 0..USERS {
        last.push(None)?;
    }
    Ok(last)
}

/// Finds who has the turn after an act of a seat.
fn turn_after(seat: u16, act: &Act) -> Option<u16>
    ensures { result ≡ turn_after seat act.now }
{
    match act {
        Act::Granted(_) => Some(seat),
        Act::Stored(_, _) | Act::Given => None,
    }
}

/// Adds what was stored to the end of the chain of records. It takes no memory.
fn add_record(end: &mut ChainEnd, roster: &Roster, act: &Act)
    requires room { end.old.number < 2 ^ 64 - 1 }
    requires key_room { HasRoom end.old.used }
    requires next { (cs : List CommitParts) × IsEndOf roster.now cs end.old
        × StoresNext roster.now cs act.now }
    ensures end { (cs : List CommitParts) → IsEndOf roster.now cs end.old → StoresNext roster.now cs act.now
        → IsEndOf roster.now (cs ++ stored_by act.now) end.new }
    ensures same { stored_by act.now ≡ [] → end.new ≡ end.old }
{
    match act {
        Act::Stored(_, commit) => end.push(roster, commit.commit(), commit.digest()),
        Act::Granted(_) | Act::Given => {}
    }
}

/// Sets the number of its author's last record to that of what was stored.
fn set_last(last: &mut Vec<Option<u64>>, act: &Act)
    requires { length last.old.items ≡ USERS }
    ensures { (ro : Membership) (cs : List CommitParts) → AreLast cs last.old.items
        → StoresNext ro cs act.now → AreLast (cs ++ stored_by act.now) last.new.items }
{
    match act {
        Act::Stored(number, commit) => {
            last[usize::from(commit.author().number())] = Some(*number);
        }
        Act::Granted(_) | Act::Given => {}
    }
}

/// Sees that a grant can be counted, and the step that ends the turn.
fn find_room(journal: &Journal, act: &Act) -> Result<(), AllocError>
    ensures room { OnOk result ((n : ℕ) → act.now ≡ Granted n → length journal.now + 2 < 2 ^ 64) }
    ensures only { OnErr result ((n : ℕ) × (act.now ≡ Granted n)) }
{
    match act {
        Act::Granted(_) if journal.len() >= MOST_STEPS => Err(AllocError),
        _ => Ok(()),
    }
}

/// Returns the users who have a number, ascending, each with it.
pub(crate) fn last_numbers(
    alloc: Global,
    last: &Vec<Option<u64>>,
) -> Result<Vec<(User, u64)>, AllocError>
    requires { length last.now.items ≡ USERS }
    ensures { IfOk result (λ numbers. (cs : List CommitParts) → AreLast cs last.now.items
        → numbers.items ≡ last_numbers cs) }
{
    let mut numbers = Vec::new(alloc);
    for number in 0..USERS {
        let Ok(user) = User::new(number as u64) else {
            unreachable!()
        };
        push_paired(&mut numbers, user, last[number])?;
    }
    Ok(numbers)
}

/// Adds the user with a number, if there is one.
fn push_paired(
    numbers: &mut Vec<(User, u64)>,
    user: User,
    number: Option<u64>,
) -> Result<(), AllocError>
    ensures { OnOk result (numbers.new.items ≡ numbers.old.items ++ paired user number) }
{
    if let Some(number) = number {
        numbers.push((user, number))?;
    }
    Ok(())
}
