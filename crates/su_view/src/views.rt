// A client's view.
ghost use Rattle.std.specs.Prelude.{◌≡◌, ◌⊎◌, ◌≤◌, ℕ, List, [], true, length, None, IfOk, IfErr, OnOk, MatchOption, option_map};
ghost use Rattle.std.specs.Borrow.{Lends, sem};
ghost use Rattle.std.specs.List.{AllByRecursion};
ghost use Rattle.sha2.specs.Sha256.{sha256};
ghost use Rattle.su_bytes.specs.Membership.{has_user};
ghost use Rattle.su_bytes.specs.Order.{Passes, RefusedBy};
ghost use Rattle.su_bytes.specs.declared.refusals.Refusal.TheVariants.{BadKey, NoUser, NoMemory};
ghost use Rattle.su_chain.specs.ChainEnd.{HasBadKey};
ghost use Rattle.su_version.specs.Commit.{commit_bytes};
ghost use Rattle.su_version.specs.Chain.{IsChain, chain_key};
ghost use Rattle.su_legal.specs.Legal.{commits_of, head_of, history, Legal};
ghost use Rattle.su_desk.specs.Version.{versions};
ghost use Rattle.su_view.specs.Entry.{committed_at, AreBytesAt};
ghost use Rattle.su_view.specs.Holding.{HasSpelledChange};
ghost use Rattle.su_view.specs.LastCommits.{shown_order};
ghost use Rattle.su_view.specs.declared.refusals.ViewRefusal.TheVariants.{Plain};

mod accepting;
mod drafts;
mod making;
mod reading;
mod reloading;

use crate::last_commits::check_list;
use crate::records::Keeping;
use crate::refusals::ViewRefusal;
use std::alloc::Global;
use std::marker::Model;
use su_block::BlockSource;
use su_bytes::{Digest, Principal, Refusal, Roster, User};
use su_chain::ChainEnd;
use su_desk::KeptEntry;
use su_lms::PublicKey;
use su_stored_desk::TrialDesk;
use su_version::Commit;

/// A client's view: the list of commits that the client holds, with the tree that it makes, and a
/// source of the items of changes and of the nodes of the tree, which need not be trusted. Of the
/// tree, all but the digests of the i-tables may lie there. Its model is the roster, whose client it
/// is, the list of commits with their changes, the source, and when that was asked about the tree.
#[derive(Drop)]
pub struct View<S: BlockSource> {
    keeping: Keeping<S>,
    alloc: Global,
}

impl<S: BlockSource> Model for View<S> {
    ghost use Rattle.su_view.specs.Viewed.{ViewOn};
    ghost use Rattle.su_view.specs.Keeping.{view_of, IsKeeping};

    ghost Value = { ViewOn S };

    ghost view = { λ w. view_of w.keeping };

    ghost invariant = { λ w. IsKeeping S.may_give w.keeping };
}

impl<S: BlockSource + Drop> View<S> {
    ghost use Rattle.su_stored_desk.specs.Asked.{GivesOnly};
    ghost use Rattle.su_view.specs.Viewed.{desk_of};

    /// Makes the view of that user, which holds no commits, over a source that has nothing of its tree
    /// yet. `BadKey` where a user's key in the roster is none, `NoUser` where there is no such user;
    /// else only `NoMemory`.
    pub fn new(alloc: Global, roster: Roster, user: User, source: S) -> Result<View<S>, Refusal>
        requires { S.is_checked ≡ true }
        ensures value { IfOk result (λ view. view ≡ record {
          holding = record { roster = roster; user = user; held = []; itemless = 0 };
          source = source;
          asked = [];
        }) }
        ensures refused { IfErr result (λ e. ((e ≡ BadKey) × HasBadKey roster)
            ⊎ ((e ≡ NoUser user) × ¬ HasBadKey roster × ¬ (has_user roster user ≡ true))
            ⊎ (e ≡ NoMemory)) }
    {
        // its clause tells the prover that it is a roster (docs/ARCHITECTURE.md, "Forms the kit
        // wants")
        let _users = roster.user_count();
        let end = ChainEnd::new(alloc, &roster)?;
        if !roster.has_user(user) {
            return Err(Refusal::NoUser(user));
        }
        let keeping = Keeping {
            user,
            own: None,
            records: Vec::new(alloc),
            itemless: 0,
            spellings: Vec::new(alloc),
            end,
            desk: TrialDesk::new(alloc, roster, source)?,
        };
        Ok(View { keeping, alloc })
    }

    /// Puts a source in the place of the view's own, which never gave anything of the tree. Nothing
    /// else changes.
    pub fn with_source<T: BlockSource + Drop>(self, source: T) -> View<T>
        requires checked { T.is_checked ≡ true }
        requires quiet { GivesOnly S.may_give (λ i. ⊥) (desk_of self) }
        ensures { result ≡ record { holding = self.holding; source = source; asked = [] } }
    {
        let View { keeping, alloc } = self;
        View {
            keeping: keeping.with_source(source),
            alloc,
        }
    }
}

impl<S: BlockSource> View<S> {
    ghost use Rattle.su_view.specs.Viewed.{AsksOn, IsClear};
    ghost use Rattle.su_view.specs.contracts.views.View.{the_row};

    /// Lends the source. What is done to that changes nothing else.
    pub fn source_mut(&mut self) -> &mut S
        ensures value { result.now ≡ self.old.source }
        ensures* writes_back { sem 𝓛 (Lends (the_row S.row S.BlockSource) S.row self.entry result
            (λ source. record self.old { source = source })) }
    {
        self.keeping.desk.source_mut()
    }

    /// Checks what a server shows as the users' last commits, once the commits behind the list are
    /// taken. `BadSignature` where one isn't held, nor signed under its author's present key;
    /// `OwnMissing` where the view's user has
    /// a commit in the list, and none of the user's is shown or one that is behind the last;
    /// `NotOrdered` with the first two positions whose vectors aren't comparable; `NoMemory`.
    pub fn check_list(&self, shown: &[Commit]) -> Result<(), ViewRefusal>
        ensures passes { OnOk result (Passes (shown_order self.now.holding shown.now)) }
        ensures refused { IfErr result (λ e. (e ≡ Plain NoMemory)
            ⊎ RefusedBy (shown_order self.now.holding shown.now) e) }
    {
        check_list(self.alloc, &self.keeping, shown)
    }

    /// Lends who belongs to the store.
    pub fn roster(&self) -> &Roster
        ensures { result.now ≡ self.now.holding.roster }
    {
        self.keeping.desk.roster()
    }

    /// Returns the key that a user has after the list, if there is such a user.
    pub fn key(&self, user: User) -> Option<PublicKey>
        ensures { let v = self.now.holding in
            result ≡ chain_key v.roster user (commits_of v.held) }
    {
        self.keeping.end.key(user)
    }

    /// Returns whose view it is.
    pub fn user(&self) -> User
        ensures { result ≡ self.now.holding.user }
    {
        self.keeping.user
    }

    /// Returns the number of commits that the view holds.
    pub(crate) fn number(&self) -> u64
        ensures { result ≡ length self.now.holding.held }
    {
        self.keeping.records.len() as u64
    }

    /// Returns the number of commits that the view holds, and the digest that the next one names:
    /// of the last commit, at first of the roster.
    pub fn head(&self) -> (u64, Digest)
        ensures value { let v = self.now.holding in
            result ≡ (length v.held, head_of v.roster v.held) }
        // What holds of each list that a view holds.
        ensures chain { let v = self.now.holding in IsChain v.roster (commits_of v.held) }
        ensures changes { AllByRecursion HasSpelledChange self.now.holding.held }
        ensures legal { let v = self.now.holding in
            IsClear S.may_give self.now → Legal v.roster v.held }
    {
        (self.number(), self.keeping.end.head())
    }

    /// Lends the bytes of the commit of that number, from 1, and the item of its change; none
    /// where the view holds no commit of that number, or its entry was left.
    pub fn entry(&self, number: u64) -> Option<(&[u8], &[u8])>
        ensures { let v = self.now.holding in MatchOption result
            ((committed_at v.held number ≡ None) ⊎ (number ≤ v.itemless))
            (λ entry. AreBytesAt v.held number entry.0.now entry.1.now) }
    {
        let itemless = self.keeping.itemless;
        if number <= itemless as u64 {
            return None;
        }
        if self.number() < number {
            return None;
        }
        let spelling = &self.keeping.spellings[(number - 1) as usize - itemless];
        Some((spelling.commit.as_slice(), spelling.item.as_slice()))
    }

    /// Returns the digest of the commit of that number, from 1, if the view holds one: the head of
    /// the list when it had so many.
    pub fn digest(&self, number: u64) -> Option<Digest>
        ensures { result ≡ option_map (λ c. sha256 (commit_bytes c.commit))
            (committed_at self.now.holding.held number) }
    {
        if number == 0 {
            return None;
        }
        if self.number() < number {
            return None;
        }
        Some(self.keeping.records[(number - 1) as usize].digest())
    }

    /// Leaves the bytes of the commits, and the items of their changes, to whoever has them elsewhere,
    /// as in a log: of the commits that the view holds now `entry` lends none from then on, and no
    /// memory holds them. Nothing else of the view changes.
    pub fn leave_entries(&mut self)
        ensures { self.new ≡ record self.old {
          holding = record self.old.holding { itemless = length self.old.holding.held };
        } }
    {
        self.keeping.leave_entries(self.alloc);
    }

    /// Returns the version numbers of the users of the roster, and then of its groups: of a user
    /// how many commits are the user's, of a group how many carry it. Takes no memory.
    pub fn versions(&self) -> &[(Principal, u64)]
        ensures { let v = self.now.holding in IsClear S.may_give self.now
            → result.now ≡ versions v.roster (history v.held) }
    {
        self.keeping.desk.versions()
    }

    /// Lends the history that the list tells: of each commit who made which change, in which format.
    pub fn history(&self) -> &[KeptEntry]
        ensures { result.now ≡ history self.now.holding.held }
    {
        self.keeping.desk.history()
    }
}
