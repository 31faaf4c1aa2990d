// Commits are made of changes of the user's own.
ghost use Rattle.std.specs.Prelude.{◌≡◌, ◌≢◌, ◌⊎◌, ◌∷◌, ◌++◌, ◌+◌, ◌-◌, ◌<◌, ◌^◌, ℕ, List, [], IfOk, IfErr, OnOk, OnErr};
ghost use Rattle.su_bytes.specs.declared.refusals.Refusal.TheVariants.{KeyFileFault};
ghost use Rattle.su_change.specs.Item.{item_bytes};
ghost use Rattle.su_legal.specs.Legal.{commits_of, MayJoin};
ghost use Rattle.su_lms.specs.PrivateKey.{key_of, leaf_count};
ghost use Rattle.su_version.specs.Chain.{IsNewLeaf, last_leaf};
ghost use Rattle.su_view.specs.Holding.{MaySign};
ghost use Rattle.su_view.specs.Making.{IsMade};
ghost use Rattle.su_view.specs.declared.refusals.ViewRefusal.TheVariants.{Plain};
ghost use Rattle.su_view.specs.Drafting.{IsOfChange, IsUnmade, PutsThen};
ghost use Rattle.su_view.specs.Viewed.{FailsToLoad};

use super::View;
use crate::keys::OwnKey;
use crate::refusals::ViewRefusal;
use su_block::BlockSource;
use su_bytes::Refusal;
use su_lms::KeyStore;
use su_op::Change;
use su_version::Commit;

impl<S: BlockSource> View<S> {
    ghost use Rattle.su_view.specs.Viewed.{AsksOnly, IsClear};

    /// Makes a commit of a change of the view's user, signed by the next leaf of the user's key,
    /// and puts the item of the change into the source. The view's list stays as it was: once the
    /// commit is stored, `accept_own` takes it. `BadSignature` where the key isn't the one that the
    /// user has after the list; `Change` where the change is refused; `SourceFailed`; `NoMemory`;
    /// `KeySpent` where each leaf has signed; `KeyFileFault` where the key's store fails; or as a load
    /// is refused. It signs last: on a refusal nothing was signed, and no leaf was used. From a commit
    /// that names the user's next key on, the next ones are made with that.
    pub fn make<K: KeyStore>(
        &mut self,
        change: Change,
        key: &mut OwnKey<K>,
    ) -> Result<Commit, ViewRefusal>
        ensures made { IsClear S.may_give self.new
            → IfOk result (IsMade self.old.holding change key.old.next) }
        ensures of_change { IfOk result (IsOfChange self.old.holding change key.old.next) }
        // It may be signed, and with it the list is legal, unless its leaf has signed before.
        ensures may_sign { IfOk result (λ c. MaySign self.old.holding c.version) }
        ensures joins { IsClear S.may_give self.new → IfOk result (λ c. let v = self.old.holding in
            IsNewLeaf (last_leaf v.user (commits_of v.held)) key.old.next
            → MayJoin v.roster v.held (record { commit = c; change = change })) }
        ensures refused { IsClear S.may_give self.new → IfErr result (λ e. FailsToLoad e
            ⊎ IsUnmade S.failed S.follows (key_of key.old.key)
            (key.old.next ≡ leaf_count key.old.key) self.old.holding change self.old.source
            self.new.source e) }
        ensures holding { self.new.holding ≡ self.old.holding }
        // Its item was put, and it alone was signed, once the number of the next leaf was stored.
        ensures puts { OnOk result
            (PutsThen S.follows S.puts self.old.source (item_bytes change) self.new.source) }
        ensures signed { IfOk result (λ c. key.new.signed ≡ key.old.signed ++ c ∷ []) }
        ensures stored { OnOk result (K.stores key.old.store (key.old.next + 1) key.new.store) }
        ensures used { OnOk result (key.new.next ≡ key.old.next + 1) }
        ensures none_signed { OnErr result (key.new.signed ≡ key.old.signed) }
        ensures unused { OnErr result (key.new.next ≡ key.old.next) }
        ensures same_key { key.new.key ≡ key.old.key }
        ensures same_former { key.new.former ≡ key.old.former }
        ensures clear { IsClear S.may_give self.new → IsClear S.may_give self.old }
        ensures follows { S.follows self.old.source self.new.source }
        ensures more { (item : List ℕ) → S.may_give self.new.source item
            → S.may_give self.old.source item ⊎ (item ≡ item_bytes change) }
        ensures only { AsksOnly S.may_give self.old self.new }
        ensures fault { IfErr result (λ e. e ≡ Plain KeyFileFault
            → K.failure_count key.old.store < 2 ^ 64 - 1
            → K.failure_count key.old.store < K.failure_count key.new.store) }
        ensures missed { IfErr result (λ e. e ≡ Plain KeyFileFault
            → K.misses key.old.store (key.old.next + 1) key.new.store) }
        ensures untouched { IfErr result (λ e. e ≢ Plain KeyFileFault
            → key.new.store ≡ key.old.store) }
    {
        if !self.is_own_key(key.public()) {
            return Err(ViewRefusal::Plain(Refusal::BadSignature));
        }
        let draft = self.draft(change)?;
        let item = draft.item.as_slice();
        let digest = match self.keeping.desk.source_mut().put(self.alloc, item) {
            Ok(digest) => digest,
            Err(refusal) => return Err(ViewRefusal::Plain(refusal)),
        };
        let version = match self.next_version(draft, digest) {
            Ok(version) => version,
            Err(refusal) => return Err(ViewRefusal::Plain(refusal)),
        };
        match key.sign(self.alloc, version) {
            Ok(commit) => Ok(commit),
            Err(refusal) => Err(ViewRefusal::Plain(refusal)),
        }
    }
}
