// A desk on which changes can be made on trial before one is settled, whose tree may lie on a store.
ghost use Rattle.std.specs.Prelude.{◌≡◌, ◌⊎◌, ℕ, List, ◌+◌, ◌==◌, [], true, false, None, Some, length, Ok, Err, IfOk, IfErr, OnOk, OnErr};
ghost use Rattle.std.specs.Borrow.{Lends, sem};
ghost use Rattle.su_bytes.specs.declared.principals.Principal.TheVariants.{User as UserPrincipal, Group as GroupPrincipal};
ghost use Rattle.su_bytes.specs.declared.refusals.Refusal.TheVariants.{NoMemory, SourceFailed};
ghost use Rattle.su_bytes.specs.Format.{is_as_new};
ghost use Rattle.su_desk.specs.Answer.{answer, format_refusal, live_refusal, made_format, newer, Good};
ghost use Rattle.su_desk.specs.Blocker.{blocker};
ghost use Rattle.su_desk.specs.Desk.{result_of};
ghost use Rattle.su_desk.specs.Headline.{Headline};
ghost use Rattle.su_desk.specs.History.{entry_by, undo_by, last_live, live_numbers};
ghost use Rattle.su_desk.specs.Trial.{nothing_ready, ready_with, tree_of, tree_with_ready, with_ready, without_last, Tells, IsReady};
ghost use Rattle.su_desk.specs.Version.{versions};
ghost use Rattle.su_op.specs.Action.{is_many};
ghost use Rattle.su_part.specs.Bytes.{NoneClash};
ghost use Rattle.su_part.specs.Loads.{FailedAt};
ghost use Rattle.su_part_forest.specs.Loading.{HashedFor};
ghost use Rattle.su_part_tree.specs.Loading.{IsLoadRefusal};
ghost use Rattle.su_table.specs.Handle.{handle};
ghost use Rattle.su_table.specs.Tree.{Tree};
ghost use Rattle.su_stored_desk.specs.Asked.{Answers, Runs};

mod batches;
mod changes;
mod leaving;
mod reads;
mod rehearsals;

use crate::desks::Desk;
use crate::prepared::Tried;
use http_server::Log;
use std::alloc::Global;
use std::marker::Model;
use su_block::BlockSource;
use su_bytes::{Digest, FIRST_FORMAT, FileId, Format, Group, Principal, Refusal, Roster, User};
use su_desk::{KeptEntry, Prepared, format_after};
use su_op::Change;

/// A desk on which one change can be prepared, so that it is known what it makes of the tree, and
/// then settled, which takes no memory; and on which operations can be rehearsed. Of its tree, all
/// but the digests of the i-tables may lie on its store, which needn't be trusted. Its model is the
/// desk that is settled, the entries behind it that stand ready, its store, and when that was asked.
///
/// A prepared change is made at once. Where it isn't settled, it is taken back when something else
/// is prepared or rehearsed, or by `take_back`.
#[derive(Drop)]
pub struct TrialDesk<S: BlockSource> {
    desk: Desk<S>,
    /// What takes back each entry that stands ready, the last made last.
    tried: Vec<Tried>,
    /// What the store and the history were each time before the store was asked, which proofs read.
    /// (`Log` is the kit's list that no memory holds.)
    asked: Log<S, Vec<KeptEntry>>,
}

impl<S: BlockSource> Model for TrialDesk<S> {
    ghost use Rattle.su_stored_desk.specs.Asked.{TrialOn};
    ghost use Rattle.su_stored_desk.specs.Right.{state_of};
    ghost use Rattle.su_stored_desk.specs.Tried.{seen_of};
    ghost use Rattle.su_stored_desk.specs.Trusted.{IsTrusted};

    ghost Value = { TrialOn S };

    ghost view = { λ t. record {
      state = seen_of (state_of t.desk) t.tried.items;
      source = t.desk.stored.source;
      asked = t.asked.items;
    } };

    ghost invariant = { λ t. IsTrusted S.may_give t.desk t.tried.items t.asked.items };
}

impl<S: BlockSource + Drop> TrialDesk<S> {
    ghost use Rattle.su_stored_desk.specs.Asked.{GivesOnly};

    /// Makes a desk with an empty history over that store, of which nothing is left there yet. Fails
    /// only with `NoMemory`.
    pub fn new(alloc: Global, roster: Roster, source: S) -> Result<TrialDesk<S>, Refusal>
        requires { S.is_checked ≡ true }
        ensures value { IfOk result (λ desk. desk ≡ record {
          state = nothing_ready (record { roster = roster; history = [] });
          source = source;
          asked = [];
        }) }
        ensures refused { IfErr result (λ e. e ≡ NoMemory) }
    {
        Ok(TrialDesk {
            desk: Desk::new(alloc, roster, source)?,
            tried: Vec::new(alloc),
            asked: Log::new(),
        })
    }

    /// Puts a store in the place of the desk's own, which never gave anything. Nothing else changes.
    pub fn with_source<T: BlockSource + Drop>(self, source: T) -> TrialDesk<T>
        requires checked { T.is_checked ≡ true }
        requires quiet { GivesOnly S.may_give (λ i. ⊥) self }
        ensures { result ≡ record { state = self.state; source = source; asked = [] } }
    {
        let TrialDesk { desk, tried, .. } = self;
        TrialDesk {
            desk: desk.with_source(source),
            tried,
            asked: Log::new(),
        }
    }

    /// Takes the history and the tree of another desk of the same roster, whose store never gave
    /// anything, in the place of its own, and keeps its store.
    pub fn take<T: BlockSource + Drop>(&mut self, other: TrialDesk<T>)
        requires roster { other.state.settled.roster ≡ self.old.state.settled.roster }
        requires quiet { GivesOnly T.may_give (λ i. ⊥) other }
        ensures { self.new ≡ record self.old { state = other.state } }
    {
        let TrialDesk { desk, tried, .. } = other;
        self.desk.take(desk);
        self.tried = tried;
    }
}

impl<S: BlockSource> TrialDesk<S> {
    ghost use Rattle.su_stored_desk.specs.Asked.{Asks, IsClear, ShowsReady};
    ghost use Rattle.su_stored_desk.specs.contracts.trials.TrialDesk.{the_row};

    /// Returns who belongs to the store.
    pub fn roster(&self) -> &Roster
        ensures { result.now ≡ self.now.state.settled.roster }
    {
        &self.desk.roster
    }

    /// Lends the history of what is settled, also where something stands ready. Of that, the version
    /// numbers and the tree that it leaves all holds that the desk is for.
    pub fn history(&self) -> &[KeptEntry]
        ensures history { result.now ≡ self.now.state.settled.history }
        ensures good { let d = self.now.state.settled in
            IsClear S.may_give self.now → Good d.roster d.history }
        ensures headline { let d = self.now.state.settled in
            IsClear S.may_give self.now → Headline d.roster d.history (tree_of d) }
    {
        let entries = self.desk.entries.as_slice();
        let settled = entries.len().saturating_sub(self.tried.len());
        &entries[..settled]
    }

    /// Returns the version numbers of what is settled, of the users of the roster, and then of its
    /// groups. Takes no memory, also where something stands ready.
    pub fn versions(&self) -> &[(Principal, u64)]
        ensures { let d = self.now.state.settled in
            IsClear S.may_give self.now → result.now ≡ versions d.roster d.history }
    {
        match self.tried.first() {
            Some(tried) => tried.versions.as_slice(),
            None => self.desk.counters.as_slice(),
        }
    }

    /// Returns the format in which a change is made where nobody says which: the first in which lists
    /// are begun, that of the last entry that is settled, or the oldest that has the change, whichever
    /// is newest. So it is never refused for its format.
    pub fn made_format(&self, change: &Change) -> Format
        ensures value { result ≡ made_format self.now.state.settled.history change.now }
        ensures fits { format_refusal self.now.state.settled.history result change.now ≡ None }
        ensures new { is_as_new result FIRST_FORMAT ≡ true }
    {
        let last = format_after(self.history());
        newer(newer(FIRST_FORMAT, last), change.oldest_format())
    }

    /// Lends the store. What is done to that changes nothing else.
    pub fn source_mut(&mut self) -> &mut S
        ensures value { result.now ≡ self.old.source }
        ensures* writes_back { sem 𝓛 (Lends (the_row S.row S.BlockSource) S.row self.entry result
            (λ source. record self.old { source = source })) }
    {
        self.desk.stored.source_mut()
    }

    /// Notes, for proofs alone, that the store is going to be asked. It does nothing at run time.
    pub fn note_asked(&mut self)
        ensures shows { IsClear S.may_give self.new
            → ShowsReady S.may_give self.new (tree_with_ready self.old.state) }
        ensures still { (T : Tree) → ShowsReady S.may_give self.old T
            → ShowsReady S.may_give self.new T }
        ensures asks { Asks S.may_give S.follows self.old self.new }
        ensures same { self.new ≡ record self.old { asked = self.new.asked } }
    {
        self.asked = self
            .asked
            .and(self.desk.stored.source(), &self.desk.entries);
    }

    /// Settles the change that stands ready, which is the one that `prepared` tells of, and returns
    /// the number of its entry. Takes no memory.
    pub fn settle(&mut self, prepared: Prepared) -> u64
        ensures number { IsReady self.old.state prepared
            → result ≡ length self.old.state.settled.history + 1 }
        ensures settled { self.new ≡ record self.old {
          state = nothing_ready (with_ready self.old.state.settled self.old.state.ready);
        } }
    {
        self.tried.clear();
        prepared.number
    }

    /// Returns what stands in the way of an undo of a live operation, where nothing stands ready: the
    /// last live operation that came after it and read a cell that it wrote. Fails with `NoOperation`
    /// where there is no such entry, with `NotOperation` where it is an undo or a rekey, and with
    /// `AlreadyUndone`. Takes no memory, and loads nothing.
    pub fn blocker(&self, number: u64) -> Result<Option<u64>, Refusal>
        requires { self.now.state.ready ≡ [] }
        ensures value { let d = self.now.state.settled in IsClear S.may_give self.now
            → IfOk result (λ m. m ≡ blocker d.roster d.history number) }
        ensures live { let d = self.now.state.settled in IsClear S.may_give self.now
            → OnOk result (live_refusal d.history number ≡ None) }
        ensures refused { let d = self.now.state.settled in IsClear S.may_give self.now
            → IfErr result (λ e. live_refusal d.history number ≡ Some e) }
    {
        self.desk.blocker(number)
    }

    /// Takes back what stands ready, from the last on. Refused as a load is: then what is left still
    /// stands ready, and what is settled hasn't changed.
    pub fn take_back(&mut self) -> Result<(), Refusal>
        ensures ok { OnOk result (self.new.state ≡ nothing_ready self.old.state.settled) }
        ensures refused { IsClear S.may_give self.new → IfErr result IsLoadRefusal }
        ensures err { OnErr result (self.new.state.settled ≡ self.old.state.settled) }
        ensures asks { Asks S.may_give S.follows self.old self.new }
    {
        // names the type for the prover (docs/ARCHITECTURE.md, "Forms the kit wants")
        let _file: Option<FileId> = None;
        while !self.is_settled() {
            self.take_last_back()?;
        }
        Ok(())
    }

    /// Tells whether nothing stands ready.
    fn is_settled(&self) -> bool
        ensures { result ≡ (length self.now.state.ready == 0) }
    {
        self.tried.is_empty()
    }

    /// Takes back the last change that stands ready, if one does. Refused as a load is, and then
    /// nothing is taken back.
    fn take_last_back(&mut self) -> Result<(), Refusal>
        ensures ok { OnOk result (self.new.state ≡ without_last self.old.state) }
        ensures refused { IsClear S.may_give self.new → IfErr result IsLoadRefusal }
        ensures err { OnErr result (self.new.state ≡ self.old.state) }
        ensures asks { Asks S.may_give S.follows self.old self.new }
    {
        let Some(tried) = self.tried.pop() else {
            return Ok(());
        };
        self.asked = self
            .asked
            .and(self.desk.stored.source(), &self.desk.entries);
        if let Err((tried, refusal)) = self.desk.take_back(tried) {
            self.tried.push_reserved(tried);
            return Err(refusal);
        }
        Ok(())
    }

    /// Returns the numbers of the live operations of what is settled, ascending, where nothing
    /// stands ready. Fails only with `NoMemory`.
    pub fn live(&self) -> Result<Vec<u64>, Refusal>
        requires { self.now.state.ready ≡ [] }
        ensures value { IsClear S.may_give self.now → IfOk result (λ numbers.
            numbers.items ≡ live_numbers self.now.state.settled.history) }
        ensures refused { IfErr result (λ e. e ≡ NoMemory) }
    {
        self.desk.live()
    }

    /// Returns the i-handle of a user, where nothing stands ready. It is at hand: no hash is made,
    /// nothing is loaded and no memory is taken.
    pub fn i_handle(&self, user: User) -> Digest
        requires { self.now.state.ready ≡ [] }
        ensures { let d = self.now.state.settled in
            IsClear S.may_give self.now → result ≡ handle (tree_of d) (UserPrincipal user) }
    {
        self.desk.stored.i_handle(user)
    }

    /// Returns the i-handle of a group, where nothing stands ready. It is at hand as a user's is.
    pub fn group_handle(&self, group: Group) -> Digest
        requires { self.now.state.ready ≡ [] }
        ensures { let d = self.now.state.settled in
            IsClear S.may_give self.now → result ≡ handle (tree_of d) (GroupPrincipal group) }
    {
        self.desk.stored.group_handle(group)
    }

    /// Leaves all of the tree on the store, but for the digests of its i-tables, with what stands
    /// ready. Refused with `SourceFailed` where the store could not be asked, and with `NoMemory`;
    /// then what wasn't put is still loaded.
    pub fn shed(&mut self) -> Result<(), Refusal>
        ensures state { self.new.state ≡ self.old.state }
        ensures asked { self.new.asked ≡ self.old.asked }
        ensures follows { S.follows self.old.source self.new.source }
        // The store may give items of that tree as well from now on, and no other that it might not
        // give before.
        ensures more { IsClear S.may_give self.old → (i : List ℕ) → S.may_give self.new.source i
            → S.may_give self.old.source i ⊎ HashedFor (tree_with_ready self.old.state) i }
        ensures refused { IfErr result (λ e. (e ≡ SourceFailed) ⊎ (e ≡ NoMemory)) }
        // A failure of the store was about such an item.
        ensures failed { IsClear S.may_give self.old → IfErr result
            (FailedAt (HashedFor (tree_with_ready self.old.state)) (S.failed self.new.source)) }
    {
        self.desk.stored.shed()
    }
}

/// Returns the newer of two formats.
fn newer(format: Format, other: Format) -> Format
    ensures { result ≡ newer format other }
{
    if format.is_as_new(other) {
        format
    } else {
        other
    }
}
