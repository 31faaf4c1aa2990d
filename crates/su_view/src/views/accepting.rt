// Commits are taken that a server shows.
ghost use Rattle.std.specs.Prelude.{◌≡◌, ◌≢◌, ◌⊎◌, ◌↔◌, ◌∷◌, ℕ, List, [], true, length, None, IsTrue, IfOk, IfErr, IfSome, OnOk, OnErr};
ghost use Rattle.sha2.specs.Sha256.{sha256};
ghost use Rattle.su_bytes.specs.Order.{RefusedBy};
ghost use Rattle.su_bytes.specs.declared.refusals.Refusal.TheVariants.{MissingBlock, NoMemory};
ghost use Rattle.su_change.specs.Item.{item_bytes};
ghost use Rattle.su_legal.specs.Legal.{Committed, commits_of};
ghost use Rattle.su_log.specs.Record.{AreDigests};
ghost use Rattle.su_op.specs.declared.operations.Change.{Change as Change_};
ghost use Rattle.su_part_tree.specs.Loading.{IsLoadRefusal};
ghost use Rattle.su_version.specs.Chain.{IsSignedBy, MayBeNext, next_order, tip};
ghost use Rattle.su_version.specs.Commit.{commit_bytes};
ghost use Rattle.su_view.specs.Joining.{AscendFrom, HasFailed, IsNotNext, IsOtherHandle, IsRefusedCommit, IsRefusedWith};
ghost use Rattle.su_view.specs.Listing.{IsRefusedBytes};
ghost use Rattle.su_view.specs.declared.refusals.ViewRefusal.TheVariants.{Plain, Change as ChangeRefused};
ghost use Rattle.su_view.specs.Viewed.{FailsToLoad};
ghost use Rattle.su_view.specs.Keeping.{if_by};

use super::View;
use crate::handles::first_other;
use crate::lists::first_record;
use crate::records::{Spelling, copy_of_own};
use crate::refusals::ViewRefusal;
use su_block::{BlockSource, digest_of};
use su_bytes::{Digest, KEY_LENGTH, Principal, Refusal};
use su_change::decode;
use su_desk::Prepared;
use su_log::Digests;
use su_version::{Commit, Verdict, VersionStructure};

impl<S: BlockSource> View<S> {
    ghost use Rattle.su_view.specs.Viewed.{AsksOn, Grows, IsClear};
    ghost use Rattle.su_view.specs.Listing.{HasTaken, RefusesNext};

    /// Takes the commits that a server shows, each as the number of its bytes (`u32`) and these,
    /// and returns how many. Where one is refused, those before it stay taken, and their number
    /// comes with the refusal: `Malformed` with the place of a number in the list that runs past
    /// its end, or with a place in the commit's own bytes; then what refuses the commit alone, as
    /// `ChainEnd::check` does; `Change` with what refuses the change, or where its item is that of
    /// no change; `WrongKey` where the commit has another next key of its author than the change
    /// names; `WrongHandle` where it holds another i-handle than the tree has then; `MissingBlock`,
    /// `WrongBlock`, `SourceFailed` where the source fails to give the item, or what is needed of the
    /// tree; `NoMemory`.
    pub fn accept(&mut self, bytes: &[u8]) -> Result<u64, (u64, ViewRefusal)>
        requires { S.is_checked ≡ true }
        ensures took { IfOk result (λ n.
            HasTaken S.may_give self.old bytes.now n self.new []) }
        ensures refused { IfErr result (λ e. RefusesNext S.may_give S.failed S.follows self.old
            bytes.now e.0 e.1 self.new) }
        ensures asks { AsksOn S.may_give S.follows self.old self.new }
    {
        let mut rest = bytes;
        let mut count = 0;
        while !rest.is_empty() {
            let Some((first, others)) = first_record(rest) else {
                let place = (bytes.len() - rest.len()) as u64;
                return Err((count, ViewRefusal::Plain(Refusal::Malformed(place))));
            };
            if let Err(refusal) = self.accept_bytes(first) {
                return Err((count, refusal));
            }
            rest = others;
            count += 1;
        }
        Ok(count)
    }

    /// Takes a commit that is shown by its bytes. The refusals are those of `accept`, for a list of
    /// this commit alone. A refusal leaves the list as it was.
    pub fn accept_bytes(&mut self, bytes: &[u8]) -> Result<(), ViewRefusal>
        requires { S.is_checked ≡ true }
        ensures took { OnOk result ((c : Committed) × (bytes.now ≡ commit_bytes c.commit)
            × S.may_give self.old.source (item_bytes c.change)
            × Grows S.may_give self.old (c ∷ []) self.new) }
        ensures refused { IsClear S.may_give self.new → IfErr result (λ e. FailsToLoad e
            ⊎ IsRefusedBytes (S.may_give self.old.source) (S.failed self.old.source)
            (S.failed self.new.source) self.old.holding bytes.now e) }
        ensures err { OnErr result (self.new.holding ≡ self.old.holding) }
        ensures asks { AsksOn S.may_give S.follows self.old self.new }
    {
        let commit = match Commit::decode(self.alloc, bytes) {
            Ok(commit) => commit,
            Err(refusal) => return Err(ViewRefusal::Plain(refusal)),
        };
        self.accept_commit(commit, bytes)
    }

    /// Takes a commit that its user made, and returns its number. The refusals are those of
    /// `accept`, in its order. A refusal leaves the list as it was.
    pub fn accept_own(&mut self, commit: &Commit) -> Result<u64, ViewRefusal>
        requires { S.is_checked ≡ true }
        ensures took { OnOk result ((change : Change_)
            × S.may_give self.old.source (item_bytes change) × Grows S.may_give self.old
            (record { commit = commit.now; change = change } ∷ []) self.new) }
        ensures number { IfOk result (λ n. n ≡ length self.new.holding.held) }
        ensures refused { IsClear S.may_give self.new → IfErr result (λ e. FailsToLoad e
            ⊎ HasFailed (S.failed self.old.source) (S.failed self.new.source)
            commit.now.version.change e
            ⊎ IsRefusedCommit (S.may_give self.old.source) self.old.holding commit.now e) }
        ensures err { OnErr result (self.new.holding ≡ self.old.holding) }
        ensures asks { AsksOn S.may_give S.follows self.old self.new }
    {
        // its clause tells the prover that it is a commit (docs/ARCHITECTURE.md, "Forms the kit
        // wants")
        let _version = commit.version();
        let Ok(bytes) = commit.encode(self.alloc) else {
            return Err(ViewRefusal::Plain(Refusal::NoMemory));
        };
        let Ok(copy) = Commit::decode(self.alloc, bytes.as_slice()) else {
            return Err(ViewRefusal::Plain(Refusal::NoMemory));
        };
        self.accept_commit(copy, bytes.as_slice())?;
        Ok(self.number())
    }

    /// Takes a commit by its bytes and their digest, on whose signature there is a verdict: if that
    /// was found under the author's key, no signature is checked. The refusals are those of `accept`.
    /// A refusal leaves the list as it was.
    pub fn accept_known(
        &mut self,
        commit: Commit,
        bytes: &[u8],
        digest: Digest,
        verdict: Verdict,
    ) -> Result<(), ViewRefusal>
        requires checked { S.is_checked ≡ true }
        requires bytes { bytes.now ≡ commit_bytes commit }
        requires digest { digest ≡ sha256 bytes.now }
        requires known { IsTrue verdict.is_signed ↔ IsSignedBy verdict.key commit }
        ensures took { OnOk result ((change : Change_)
            × S.may_give self.old.source (item_bytes change) × Grows S.may_give self.old
            (record { commit = commit; change = change } ∷ []) self.new) }
        ensures refused { IsClear S.may_give self.new → IfErr result (λ e. FailsToLoad e
            ⊎ HasFailed (S.failed self.old.source) (S.failed self.new.source)
            commit.version.change e
            ⊎ IsRefusedCommit (S.may_give self.old.source) self.old.holding commit e) }
        ensures err { OnErr result (self.new.holding ≡ self.old.holding) }
        ensures asks { AsksOn S.may_give S.follows self.old self.new }
    {
        if let Err(refusal) = self.check_known(verdict, &commit) {
            return Err(ViewRefusal::Plain(refusal));
        }
        self.fetch(commit, bytes, digest)
    }

    /// Takes a commit by its bytes, on whose signature there is a verdict, with the item of its
    /// change, for which the source isn't asked, and the digests of both. `MissingBlock` where the
    /// commit names another item; else the refusals are those of `accept`. A refusal leaves the list
    /// as it was. No digest of what is given is found anew.
    pub fn accept_with(
        &mut self,
        commit: Commit,
        bytes: &[u8],
        item: Vec<u8>,
        digests: Digests,
        verdict: Verdict,
    ) -> Result<(), ViewRefusal>
        requires bytes { bytes.now ≡ commit_bytes commit }
        requires digests { AreDigests bytes.now item.items digests }
        requires known { IsTrue verdict.is_signed ↔ IsSignedBy verdict.key commit }
        ensures took { OnOk result ((change : Change_) × (item.items ≡ item_bytes change)
            × Grows S.may_give self.old (record { commit = commit; change = change } ∷ [])
            self.new) }
        ensures refused { IsClear S.may_give self.new → IfErr result (λ e. FailsToLoad e
            ⊎ ((e ≡ Plain MissingBlock) × (sha256 item.items ≢ commit.version.change))
            ⊎ IsRefusedCommit (λ i. i ≡ item.items) self.old.holding commit e) }
        ensures err { OnErr result (self.new.holding ≡ self.old.holding) }
        ensures asks { AsksOn S.may_give S.follows self.old self.new }
    {
        if let Err(refusal) = self.check_known(verdict, &commit) {
            return Err(ViewRefusal::Plain(refusal));
        }
        if digests.item != commit.version().change() {
            return Err(ViewRefusal::Plain(Refusal::MissingBlock));
        }
        self.copy_and_join(commit, bytes, digests.commit, item)
    }

    /// Takes a commit by its bytes, with the item of its change, which the source is asked for. The
    /// refusals are those of `accept`. A refusal leaves the list as it was.
    fn accept_commit(&mut self, commit: Commit, bytes: &[u8]) -> Result<(), ViewRefusal>
        requires checked { S.is_checked ≡ true }
        requires bytes { bytes.now ≡ commit_bytes commit }
        ensures took { OnOk result ((change : Change_)
            × S.may_give self.old.source (item_bytes change) × Grows S.may_give self.old
            (record { commit = commit; change = change } ∷ []) self.new) }
        ensures refused { IsClear S.may_give self.new → IfErr result (λ e. FailsToLoad e
            ⊎ HasFailed (S.failed self.old.source) (S.failed self.new.source)
            commit.version.change e
            ⊎ IsRefusedCommit (S.may_give self.old.source) self.old.holding commit e) }
        ensures err { OnErr result (self.new.holding ≡ self.old.holding) }
        ensures asks { AsksOn S.may_give S.follows self.old self.new }
    {
        if let Err(refusal) = self.check(&commit) {
            return Err(ViewRefusal::Plain(refusal));
        }
        self.fetch(commit, bytes, digest_of(bytes))
    }

    /// Checks whether a commit may be the next, as `ChainEnd::check` does.
    fn check(&self, commit: &Commit) -> Result<(), Refusal>
        ensures next { let v = self.now.holding in OnOk result
            (MayBeNext v.roster (commits_of v.held) commit.now) }
        ensures refused { let v = self.now.holding in IfErr result (λ e. (e ≡ NoMemory) ⊎ RefusedBy
            (next_order v.roster (tip v.roster (commits_of v.held) commit.now.version.author)
            commit.now) e) }
    {
        self.keeping
            .end
            .check(self.alloc, self.keeping.desk.roster(), commit)
    }

    /// Checks as `check` does, where there is a verdict on the commit's signature.
    fn check_known(&self, verdict: Verdict, commit: &Commit) -> Result<(), Refusal>
        requires { IsTrue verdict.is_signed ↔ IsSignedBy verdict.key commit.now }
        ensures next { let v = self.now.holding in OnOk result
            (MayBeNext v.roster (commits_of v.held) commit.now) }
        ensures refused { let v = self.now.holding in IfErr result (λ e. (e ≡ NoMemory) ⊎ RefusedBy
            (next_order v.roster (tip v.roster (commits_of v.held) commit.now.version.author)
            commit.now) e) }
    {
        self.keeping
            .end
            .check_known(self.alloc, self.keeping.desk.roster(), verdict, commit)
    }

    /// Asks the source for the item of the change of a commit that may be the next, and takes the
    /// commit, whose bytes have that digest. A refusal leaves the list as it was.
    fn fetch(&mut self, commit: Commit, bytes: &[u8], digest: Digest) -> Result<(), ViewRefusal>
        requires checked { S.is_checked ≡ true }
        requires next { let v = self.old.holding in MayBeNext v.roster (commits_of v.held) commit }
        requires bytes { bytes.now ≡ commit_bytes commit }
        requires digest { digest ≡ sha256 bytes.now }
        ensures took { OnOk result ((change : Change_)
            × S.may_give self.old.source (item_bytes change) × Grows S.may_give self.old
            (record { commit = commit; change = change } ∷ []) self.new) }
        ensures refused { IsClear S.may_give self.new → IfErr result (λ e. FailsToLoad e
            ⊎ HasFailed (S.failed self.old.source) (S.failed self.new.source)
            commit.version.change e
            ⊎ IsRefusedCommit (S.may_give self.old.source) self.old.holding commit e) }
        ensures err { OnErr result (self.new.holding ≡ self.old.holding) }
        ensures asks { AsksOn S.may_give S.follows self.old self.new }
    {
        let change = commit.version().change();
        let item = match self.keeping.desk.source_mut().get(self.alloc, change) {
            Ok(item) => item,
            Err(refusal) => return Err(ViewRefusal::Plain(refusal)),
        };
        self.copy_and_join(commit, bytes, digest, item)
    }

    /// Takes a commit that may be the next, with a copy of its bytes, their digest and the item of its
    /// change, and another copy of it where it is the user's own. The refusals are those of `join`.
    fn copy_and_join(
        &mut self,
        commit: Commit,
        bytes: &[u8],
        digest: Digest,
        item: Vec<u8>,
    ) -> Result<(), ViewRefusal>
        requires next { let v = self.old.holding in MayBeNext v.roster (commits_of v.held) commit }
        requires bytes { bytes.now ≡ commit_bytes commit }
        requires digest { digest ≡ sha256 bytes.now }
        requires named { sha256 item.items ≡ commit.version.change }
        ensures took { OnOk result ((change : Change_) × (item.items ≡ item_bytes change)
            × Grows S.may_give self.old (record { commit = commit; change = change } ∷ [])
            self.new) }
        ensures refused { IsClear S.may_give self.new → IfErr result (λ e. FailsToLoad e
            ⊎ IsRefusedWith self.old.holding commit item.items e) }
        ensures err { OnErr result (self.new.holding ≡ self.old.holding) }
        ensures asks { AsksOn S.may_give S.follows self.old self.new }
    {
        let Ok(copy) = Vec::from_slice(self.alloc, bytes) else {
            return Err(ViewRefusal::Plain(Refusal::NoMemory));
        };
        let Ok(own) = copy_of_own(self.alloc, self.keeping.user, &commit, bytes) else {
            return Err(ViewRefusal::Plain(Refusal::NoMemory));
        };
        self.join(commit, own, copy, digest, item)
    }

    /// Takes a commit that may be the next, with a copy of it if it is the user's own, its bytes, their
    /// digest, and the item of its change. `Change` where the item is that of no change, or the change
    /// is refused; `WrongKey` where the commit has another next key of its author than the change
    /// names; `WrongHandle` where it holds another i-handle than the tree has then; or as a load is
    /// refused. A refusal leaves the list as it was.
    fn join(
        &mut self,
        commit: Commit,
        own: Option<Commit>,
        bytes: Vec<u8>,
        digest: Digest,
        item: Vec<u8>,
    ) -> Result<(), ViewRefusal>
        requires next { let v = self.old.holding in MayBeNext v.roster (commits_of v.held) commit }
        requires own_is { own ≡ if_by self.old.holding.user commit }
        requires bytes { bytes.items ≡ commit_bytes commit }
        requires digest { digest ≡ sha256 bytes.items }
        requires named { sha256 item.items ≡ commit.version.change }
        ensures took { OnOk result ((change : Change_) × (item.items ≡ item_bytes change)
            × Grows S.may_give self.old (record { commit = commit; change = change } ∷ [])
            self.new) }
        ensures refused { IsClear S.may_give self.new → IfErr result (λ e. FailsToLoad e
            ⊎ IsRefusedWith self.old.holding commit item.items e) }
        ensures err { OnErr result (self.new.holding ≡ self.old.holding) }
        ensures asks { AsksOn S.may_give S.follows self.old self.new }
    {
        let change = match decode(self.alloc, item.as_slice()) {
            Ok(change) => change,
            Err(refusal) => return Err(within(refusal)),
        };
        let version = commit.version();
        let named = change.named_key();
        let desk = &mut self.keeping.desk;
        let prepared = match desk.prepare_as(version.format(), version.author(), change) {
            Ok(prepared) => prepared,
            Err(refusal) => return Err(loaded_or_within(refusal)),
        };
        if !is_same_key(version.next_key(), named) {
            return Err(ViewRefusal::Plain(Refusal::WrongKey));
        }
        if let Some(principal) = wrong_handle(version, &prepared) {
            return Err(ViewRefusal::WrongHandle(principal));
        }
        if self.keeping.reserve().is_err() {
            return Err(ViewRefusal::Plain(Refusal::NoMemory));
        }
        let spelling = Spelling {
            commit: bytes,
            item,
        };
        self.keeping.push(commit, own, spelling, digest, prepared);
        Ok(())
    }
}

/// The refusal of a change, or want of memory.
pub(super) fn within(refusal: Refusal) -> ViewRefusal
    ensures { ((refusal ≡ NoMemory) × (result ≡ Plain NoMemory))
        ⊎ ((refusal ≢ NoMemory) × (result ≡ ChangeRefused refusal)) }
{
    match refusal {
        Refusal::NoMemory => ViewRefusal::Plain(refusal),
        _ => ViewRefusal::Change(refusal),
    }
}

/// The refusal of a load, or else that of a change.
pub(super) fn loaded_or_within(refusal: Refusal) -> ViewRefusal
    ensures { (IsLoadRefusal refusal × (result ≡ Plain refusal))
        ⊎ ((IsLoadRefusal refusal → ⊥) × (result ≡ ChangeRefused refusal)) }
{
    match refusal {
        Refusal::MissingBlock
        | Refusal::WrongBlock
        | Refusal::SourceFailed
        | Refusal::NoMemory
        | Refusal::Malformed(0) => ViewRefusal::Plain(refusal),
        _ => ViewRefusal::Change(refusal),
    }
}

/// Whether both are none, or the same key.
fn is_same_key(one: Option<[u8; KEY_LENGTH]>, other: Option<[u8; KEY_LENGTH]>) -> bool
    ensures { IsTrue result ↔ (one ≡ other) }
{
    one == other
}

/// Finds the first i-handle of a version structure that isn't the one after the change.
fn wrong_handle(version: &VersionStructure, prepared: &Prepared) -> Option<Principal>
    ensures same { result ≡ None → (version.now.handle ≡ prepared.now.author_handle)
        × (version.now.groups ≡ prepared.now.groups.items) }
    ensures other { (least : ℕ) → AscendFrom least version.now.groups
        → AscendFrom least prepared.now.groups.items → IfSome result (IsOtherHandle version.now
        prepared.now.author_handle prepared.now.groups.items) }
{
    if version.handle() != prepared.author_handle {
        return Some(Principal::User(version.author()));
    }
    match first_other(version.groups(), prepared.groups.as_slice()) {
        Some(group) => Some(Principal::Group(group)),
        None => None,
    }
}
