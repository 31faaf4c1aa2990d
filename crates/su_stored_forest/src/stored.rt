// A forest and the store that has the rest of it.
ghost use Rattle.std.specs.Prelude.{◌≡◌, ℕ, Bool, true, IfOk, IfErr, IfSome, slice_get};
ghost use Rattle.std.specs.Borrow.{Lends, sem};
ghost use Rattle.su_bytes.specs.declared.refusals.Refusal.TheVariants.{NoMemory};
ghost use Rattle.su_bytes.specs.declared.principals.Principal.TheVariants.{User as UserPrincipal, Group as GroupPrincipal};
ghost use Rattle.su_table.specs.Handle.{handle};
ghost use Rattle.su_table.specs.Tree.{Tree, genesis};
ghost use Rattle.su_part.specs.Bytes.{NoneClash};
ghost use Rattle.su_part_forest.specs.Loading.{HashedFor};
ghost use Rattle.su_fronts.specs.Front.{AreFronts};

use std::alloc::Global;
use su_block::BlockSource;
use su_bytes::{Digest, Group, Refusal, Roster, User};
use su_fronts::Fronts;
use su_part_forest::PartForest;

/// A forest of which parts may be left on a store, that store, and which numbers of its i-tables are
/// known to be taken. What is asked of it is loaded where it lacks.
#[derive(Drop)]
pub struct StoredForest<S: BlockSource> {
    pub(crate) forest: PartForest,
    pub(crate) source: S,
    pub(crate) users: Vec<Fronts>,
    pub(crate) groups: Vec<Fronts>,
    /// What the source gives has the digest that was asked for.
    pub ghost checked: { S.is_checked ≡ true },
}

impl<S: BlockSource + Drop> StoredForest<S> {
    ghost use Rattle.su_stored_forest.specs.Shows.{Holds, Shows};

    /// Makes the tree before the first operation, all of it loaded, beside that source. Fails only
    /// with `NoMemory`.
    pub fn genesis(alloc: Global, roster: &Roster, source: S) -> Result<StoredForest<S>, Refusal>
        requires { S.is_checked ≡ true }
        ensures shows { NoneClash (HashedFor genesis) (S.may_give source)
            → IfOk result (λ stored. Shows S.may_give stored genesis) }
        ensures holds { IfOk result (λ stored. Holds stored genesis) }
        ensures source { IfOk result (λ stored. stored.source ≡ source) }
        ensures refused { IfErr result (λ e. e ≡ NoMemory) }
    {
        let forest = PartForest::genesis(alloc, roster)?;
        let users = no_fronts(alloc, usize::from(User::LAST.number()) + 1)?;
        let groups = no_fronts(alloc, usize::from(Group::LAST.number()) + 1)?;
        Ok(StoredForest {
            forest,
            source,
            users,
            groups,
        })
    }

    /// Puts another store in the place of its own. Nothing else changes.
    pub fn with_source<T: BlockSource + Drop>(self, source: T) -> StoredForest<T>
        requires { T.is_checked ≡ true }
        ensures holds { (V : Tree) → Holds self V → Holds result V }
        ensures source { result.source ≡ source }
    {
        let StoredForest {
            forest,
            users,
            groups,
            ..
        } = self;
        StoredForest {
            forest,
            source,
            users,
            groups,
        }
    }

    /// Takes the forest of another one in the place of its own, and keeps its store.
    pub fn take_forest<T: BlockSource + Drop>(&mut self, other: StoredForest<T>)
        ensures holds { (V : Tree) → Holds other V → Holds self.new V }
        ensures source { self.new.source ≡ self.old.source }
    {
        let StoredForest {
            forest,
            users,
            groups,
            ..
        } = other;
        self.forest = forest;
        self.users = users;
        self.groups = groups;
    }
}

/// Makes so many fronts of tables of which no number is known. Fails only with `NoMemory`.
fn no_fronts(alloc: Global, count: usize) -> Result<Vec<Fronts>, Refusal>
    ensures known { IfOk result (λ fronts. (n : ℕ) (free : ℕ → Bool)
        → IfSome (slice_get fronts.items n) (AreFronts free)) }
    ensures refused { IfErr result (λ e. e ≡ NoMemory) }
{
    let mut fronts = Vec::new(alloc);
    for _ in 0..count {
        fronts.push(Fronts::new(alloc))?;
    }
    Ok(fronts)
}

impl<S: BlockSource> StoredForest<S> {
    ghost use Rattle.su_stored_forest.specs.Shows.{Holds};
    ghost use Rattle.su_stored_forest.specs.contracts.stored.StoredForest.{the_row};

    /// Returns the store that has the rest of it.
    pub fn source(&self) -> &S
        ensures { result.now ≡ self.now.source }
    {
        &self.source
    }

    /// Lends the store. What is done to that changes nothing else.
    pub fn source_mut(&mut self) -> &mut S
        ensures value { result.now ≡ self.old.source }
        ensures* writes_back { sem 𝓛 (Lends (the_row S.row S.BlockSource) S.row self.entry result
            (λ source. record self.old { source = source })) }
    {
        &mut self.source
    }

    /// Returns the i-handle of a user. It is at hand: no hash is made, nothing is loaded and no
    /// memory is taken.
    pub fn i_handle(&self, user: User) -> Digest
        ensures { (T : Tree) → Holds self.now T → result ≡ handle T (UserPrincipal user) }
    {
        self.forest.i_handle(user)
    }

    /// Returns the i-handle of a group, which is at hand as a user's is.
    pub fn group_handle(&self, group: Group) -> Digest
        ensures { (T : Tree) → Holds self.now T → result ≡ handle T (GroupPrincipal group) }
    {
        self.forest.group_handle(group)
    }
}
