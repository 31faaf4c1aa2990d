// How the commits that are held are kept.
ghost use Rattle.std.specs.Prelude.{◌≡◌, ◌<◌, ◌∷◌, ℕ, List, [], true, length, vec_capacity, IfOk, IfErr, OnOk};
ghost use Rattle.sha2.specs.Sha256.{sha256};
ghost use Rattle.su_op.specs.declared.operations.Change.{Change};
ghost use Rattle.su_bytes.specs.Membership.{Membership};
ghost use Rattle.su_desk.specs.Trial.{nothing_ready, with_ready};
ghost use Rattle.su_bytes.specs.declared.refusals.Refusal.TheVariants.{NoMemory};
ghost use Rattle.su_version.specs.Commit.{Commit as CommitParts, commit_bytes};
ghost use Rattle.su_chain.specs.ChainEnd.{IsEndOf};
ghost use Rattle.su_used_keys.specs.UsedKeys.{HasRoom};
ghost use Rattle.su_stored_desk.specs.Asked.{GivesOnly};
ghost use Rattle.su_view.specs.Holding.{with_more};
ghost use Rattle.su_view.specs.Keeping.{holding_of, if_by, view_of, IsKeeping, JoinsNext};

use crate::kept_commits::KeptCommit;
use std::alloc::{AllocError, Global};
use su_block::BlockSource;
use su_bytes::{Digest, Refusal, User};
use su_chain::ChainEnd;
use su_desk::Prepared;
use su_stored_desk::TrialDesk;
use su_version::Commit;

/// The bytes of a commit, and the item of its change.
#[derive(Drop)]
pub(crate) struct Spelling {
    pub(crate) commit: Vec<u8>,
    pub(crate) item: Vec<u8>,
}

/// What a client keeps: whose client it is, the user's last commit, the commits, how many of them have
/// neither bytes nor items at hand, which are the first, those of the others, what the commits come to
/// for the next one, and the desk that their changes make, with the source. (It has no model, so that
/// its fields can be lent; what it means is its owner's.)
#[derive(Drop)]
pub(crate) struct Keeping<S: BlockSource> {
    pub(crate) user: User,
    pub(crate) own: Option<Commit>,
    pub(crate) records: Vec<KeptCommit>,
    pub(crate) itemless: usize,
    pub(crate) spellings: Vec<Spelling>,
    pub(crate) end: ChainEnd,
    pub(crate) desk: TrialDesk<S>,
}

impl<S: BlockSource + Drop> Keeping<S> {
    /// Puts a source in the place of its own, which never gave anything of the tree.
    pub fn with_source<T: BlockSource + Drop>(self, source: T) -> Keeping<T>
        requires checked { T.is_checked ≡ true }
        requires kept { IsKeeping S.may_give self }
        requires quiet { GivesOnly S.may_give (λ i. ⊥) self.desk }
        ensures kept { IsKeeping T.may_give result }
        ensures view { view_of result
            ≡ record { holding = holding_of self; source = source; asked = [] } }
    {
        let Keeping {
            user,
            own,
            records,
            itemless,
            spellings,
            end,
            desk,
        } = self;
        Keeping {
            user,
            own,
            records,
            itemless,
            spellings,
            end,
            desk: desk.with_source(source),
        }
    }
}

impl<S: BlockSource> Keeping<S> {
    /// Makes room for one commit more. Fails only where memory is refused.
    pub fn reserve(&mut self) -> Result<(), AllocError>
        ensures same { self.new
            ≡ record self.old {
              records = self.new.records;
              spellings = self.new.spellings;
              end = self.new.end;
            } }
        ensures records { self.new.records.items ≡ self.old.records.items }
        ensures spellings { self.new.spellings.items ≡ self.old.spellings.items }
        ensures end { (ro : Membership) (cs : List CommitParts)
            → IsEndOf ro cs self.old.end → IsEndOf ro cs self.new.end }
        ensures room { OnOk result
            (length self.new.records.items < vec_capacity self.new.records) }
        ensures spelling_room { OnOk result
            (length self.new.spellings.items < vec_capacity self.new.spellings) }
        ensures key_room { OnOk result (HasRoom self.new.end.used) }
    {
        self.records.reserve(1)?;
        self.spellings.reserve(1)?;
        self.end.reserve()
    }

    /// Adds a commit whose change stands ready, with a copy of it if it is the user's own, its bytes, the
    /// item of its change, and the digest of its bytes. It takes no memory.
    pub fn push(
        &mut self,
        commit: Commit,
        own: Option<Commit>,
        spelling: Spelling,
        digest: Digest,
        prepared: Prepared,
    )
        requires kept { IsKeeping S.may_give self.old }
        requires room { length self.old.records.items < vec_capacity self.old.records }
        requires spelling_room { length self.old.spellings.items < vec_capacity self.old.spellings }
        requires key_room { HasRoom self.old.end.used }
        requires own_is { own ≡ if_by self.old.user commit }
        requires digest { digest ≡ sha256 spelling.commit.items }
        requires joins { (change : Change) × JoinsNext S.may_give self.old commit change
            spelling.commit.items spelling.item.items }
        ensures kept { IsKeeping S.may_give self.new }
        ensures pushed { (change : Change) → JoinsNext S.may_give self.old commit change
            spelling.commit.items spelling.item.items
            → holding_of self.new ≡ with_more (holding_of self.old)
            (record { commit = commit; change = change } ∷ []) }
        ensures desk { self.new.desk ≡ record self.old.desk {
          state = nothing_ready (with_ready self.old.desk.state.settled self.old.desk.state.ready);
        } }
    {
        self.own = own.or(self.own.take());
        self.end.push(self.desk.roster(), &commit, digest);
        self.desk.settle(prepared);
        self.spellings.push_reserved(spelling);
        self.records.push_reserved(KeptCommit::new(commit, digest));
    }

    /// Forgets the bytes of all commits, and the items of their changes.
    pub fn leave_entries(&mut self, alloc: Global)
        requires kept { IsKeeping S.may_give self.old }
        ensures kept { IsKeeping S.may_give self.new }
        ensures left { holding_of self.new ≡ record (holding_of self.old) {
          itemless = length (holding_of self.old).held;
        } }
        ensures desk { self.new.desk ≡ self.old.desk }
    {
        self.itemless = self.records.len();
        self.spellings = Vec::new(alloc);
    }
}

/// Copies a commit of these bytes, if that user made it. Fails only with `NoMemory`.
pub(crate) fn copy_of_own(
    alloc: Global,
    user: User,
    commit: &Commit,
    bytes: &[u8],
) -> Result<Option<Commit>, Refusal>
    requires { bytes.now ≡ commit_bytes commit.now }
    ensures copied { IfOk result (λ own. own ≡ if_by user commit.now) }
    ensures refused { IfErr result (λ e. e ≡ NoMemory) }
{
    if commit.version().author() != user {
        return Ok(None);
    }
    match Commit::decode(alloc, bytes) {
        Ok(copy) => Ok(Some(copy)),
        Err(_) => Err(Refusal::NoMemory),
    }
}
