// A change of the user's own, before it is signed.
ghost use Rattle.std.specs.Prelude.{◌≡◌, ◌≢◌, ◌⊎◌, ◌≤◌, ◌<◌, ◌+◌, ◌^◌, ◌↔◌, ℕ, IsTrue, Some, true, length, map, IfOk, IfErr};
ghost use Rattle.std.specs.List.{AllByRecursion};
ghost use Rattle.su_bytes.specs.Membership.{has_user};
ghost use Rattle.su_bytes.specs.Order.{RefusedBy};
ghost use Rattle.su_bytes.specs.declared.refusals.Refusal.TheVariants.{KeyFileFault, NoMemory};
ghost use Rattle.su_change.specs.Item.{change_digest};
ghost use Rattle.su_format.specs.Format.{EachFrom};
ghost use Rattle.su_legal.specs.Legal.{Legal};
ghost use Rattle.su_op.specs.declared.operations.Change.{Change as Change_};
ghost use Rattle.su_version.specs.Version.{IsCarried};
ghost use Rattle.su_view.specs.Joining.{AscendFrom};
ghost use Rattle.su_view.specs.Making.{drafting_order, own_key, next_version};
ghost use Rattle.su_view.specs.declared.refusals.ViewRefusal.TheVariants.{Plain};
ghost use Rattle.su_view.specs.Drafting.{FitsTree, IsDraft, IsVersionOf};
ghost use Rattle.su_view.specs.Viewed.{FailsToLoad};

use super::View;
use super::accepting::{loaded_or_within, within};
use crate::refusals::ViewRefusal;
use std::alloc::Global;
use su_block::BlockSource;
use su_bytes::{Digest, Format, Group, KEY_LENGTH, Principal, Refusal};
use su_change::encode;
use su_desk::Prepared;
use su_lms::PublicKey;
use su_op::Change;
use su_vector::Vector;
use su_version::VersionStructure;

/// A change of the user's own that stands ready: its format, what is told of it, its item, and the
/// user's next key, if it names one.
#[derive(Drop)]
pub(crate) struct Draft {
    pub(crate) format: Format,
    pub(crate) prepared: Prepared,
    pub(crate) item: Vec<u8>,
    pub(crate) next_key: Option<[u8; KEY_LENGTH]>,
}

impl<S: BlockSource> View<S> {
    ghost use Rattle.su_view.specs.Viewed.{AsksOn, IsClear};

    /// Whether the key is the one that the user has after the list.
    pub(super) fn is_own_key(&self, key: PublicKey) -> bool
        ensures value { IsTrue result ↔ (own_key self.now.holding ≡ Some key) }
        // What holds of all that a view holds.
        ensures member { has_user self.now.holding.roster self.now.holding.user ≡ true }
        ensures legal { let v = self.now.holding in
            IsClear S.may_give self.now → Legal v.roster v.held }
    {
        self.key(self.keeping.user) == Some(key)
    }

    /// Makes a change of the user's on trial, which isn't seen, in the format of the list, or the
    /// oldest that has the change, where that is newer. `Change` where it is refused, and where it is
    /// a batch without an item: of too many operations, or too long; or as a load is refused.
    pub(super) fn draft(&mut self, change: Change) -> Result<Draft, ViewRefusal>
        ensures drafted { IfOk result (IsDraft self.old.holding change) }
        ensures fits { IsClear S.may_give self.new
            → IfOk result (FitsTree self.old.holding change) }
        ensures refused { IsClear S.may_give self.new → IfErr result (λ e. FailsToLoad e
            ⊎ RefusedBy (drafting_order self.old.holding change) e) }
        // Whatever it is refused for, it isn't the store of a key.
        ensures apart { IfErr result (λ e. e ≢ Plain KeyFileFault) }
        ensures holding { self.new.holding ≡ self.old.holding }
        ensures asks { AsksOn S.may_give S.follows self.old self.new }
    {
        let item = encode(self.alloc, &change);
        let next_key = change.named_key();
        let format = self.keeping.desk.made_format(&change);
        let user = self.keeping.user;
        let prepared = match self.keeping.desk.prepare_as(format, user, change) {
            Ok(prepared) => prepared,
            Err(refusal) => return Err(loaded_or_within(refusal)),
        };
        let item = match item {
            Ok(item) => item,
            Err(refusal) => return Err(within(refusal)),
        };
        Ok(Draft {
            format,
            prepared,
            item,
            next_key,
        })
    }

    /// Makes the version structure of a draft, by the digest of its item. Fails only with
    /// `NoMemory`.
    pub(super) fn next_version(
        &self,
        draft: Draft,
        digest: Digest,
    ) -> Result<VersionStructure, Refusal>
        requires { (change : Change_) × IsDraft self.now.holding change draft
            × (digest ≡ change_digest change) }
        ensures value { IsClear S.may_give self.now → IfOk result (λ version.
            (change : Change_) → IsDraft self.now.holding change draft
            → FitsTree self.now.holding change draft → digest ≡ change_digest change
            → version ≡ next_version self.now.holding change) }
        ensures of_change { IfOk result (λ version. (change : Change_)
            → IsDraft self.now.holding change draft → digest ≡ change_digest change
            → IsVersionOf self.now.holding change version) }
        ensures refused { IfErr result (λ e. e ≡ NoMemory) }
    {
        let Draft {
            format,
            prepared,
            item: _item,
            next_key,
        } = draft;
        let vector = vector_of(self.alloc, prepared.versions.as_slice())?;
        let head = self.keeping.end.head();
        // their clauses tell the prover what is in range (docs/ARCHITECTURE.md, "Forms the kit
        // wants")
        let _user = self.keeping.user.number();
        let _count = self.keeping.desk.roster().principal_count();
        has_digest_length(&head);
        has_digest_length(&digest);
        has_digest_length(&prepared.author_handle);
        are_carried(prepared.groups.as_slice());
        Ok(VersionStructure::new(
            format,
            self.keeping.user,
            head,
            digest,
            prepared.author_handle,
            prepared.groups,
            vector,
            next_key,
        ))
    }
}

/// The vector of version numbers. Fails only with `NoMemory`.
fn vector_of(alloc: Global, versions: &[(Principal, u64)]) -> Result<Vector, Refusal>
    ensures value { IfOk result (λ v. v ≡ map (λ n. n.1) versions.now) }
    ensures range { IfOk result (λ v. AllByRecursion (λ n. n < 2 ^ 64) v) }
    ensures refused { IfErr result (λ e. e ≡ NoMemory) }
{
    let mut numbers = Vec::with_capacity(alloc, versions.len())?;
    for version in versions {
        numbers.push(version.1)?;
    }
    Ok(Vector::new(numbers))
}

/// Tells the prover how long a digest is.
fn has_digest_length(digest: &Digest)
    ensures { length digest.now ≡ 32 }
{
    let _bytes: &[u8] = digest.as_bytes();
}

/// Tells the prover that groups that ascend are as a version structure carries them, and few.
fn are_carried(groups: &[(Group, Digest)])
    ensures carried { (least : ℕ) → AscendFrom least groups.now
        → EachFrom IsCarried (λ g. g.0 + 1) least groups.now }
    ensures few { (least : ℕ) → AscendFrom least groups.now → least ≤ 16
        → length groups.now + least ≤ 16 }
{
    let Some((first, others)) = groups.split_first() else {
        return;
    };
    let _group = first.0.number();
    has_digest_length(&first.1);
    are_carried(others);
}
