// How commits follow one another.
ghost use Rattle.std.specs.Prelude.{◌≡◌, ◌≤◌, ◌⊎◌, ◌↔◌, ℕ, List, IsTrue, true, false, length, IfOk, IfErr, OnOk};
ghost use Rattle.std.specs.List.{AllByRecursion, list_any};
ghost use Rattle.su_bytes.specs.Order.{Passes, RefusedBy};
ghost use Rattle.su_bytes.specs.Principal.{principals as principals_of};
ghost use Rattle.su_version.specs.Chain.{IsSignedBy, next_order, CountsOn, IsNewLeaf, IsNewKey, IsGoodKey, is_that_group};
ghost use Rattle.su_version.specs.Tip.{tip_with};
ghost use Rattle.su_used_keys.specs.UsedKeys.{HasJust};
ghost use Rattle.su_bytes.specs.declared.refusals.Refusal.TheVariants.{NoMemory};

use crate::commits::Commit;
use std::alloc::Global;
use su_bytes::{Digest, FileId, Format, Group, KEY_LENGTH, Principal, Refusal, Roster};
use su_lms::PublicKey;
use su_used_keys::UsedKeys;
use su_vector::{Vector, are_numbers_after};

/// Whether a commit is signed under a key, if there is one: what a check of its signature told.
#[derive(Clone, Copy, Debug)]
pub struct Verdict {
    pub key: Option<PublicKey>,
    pub is_signed: bool,
}

impl Verdict {
    /// Checks whether a commit is signed under the key; under none it isn't. Fails only with
    /// `NoMemory`; it makes one check of a signature.
    pub fn of(alloc: Global, key: Option<PublicKey>, commit: &Commit) -> Result<Verdict, Refusal>
        ensures key { IfOk result (λ verdict. verdict.key ≡ key) }
        ensures value { IfOk result (λ verdict.
            IsTrue verdict.is_signed ↔ IsSignedBy verdict.key commit.now) }
        ensures refused { IfErr result (λ e. e ≡ NoMemory) }
    {
        let bytes = commit.version().encode(alloc)?;
        let is_signed = match &key {
            None => false,
            Some(key) => key.verify(bytes.as_slice(), commit.signature()),
        };
        Ok(Verdict { key, is_signed })
    }
}

/// What a chain of commits comes to for the next commit of a user.
#[derive(Drop)]
pub struct Tip<'a> {
    number: u64,
    head: Digest,
    format: Format,
    vector: &'a Vector,
    key: Option<PublicKey>,
    leaf: Option<u32>,
    used: &'a UsedKeys,
}

impl<'a> Tip<'a> {
    /// The tip of a chain of so many commits, with the digest of the last one (at first that of the
    /// roster), its format (at first the oldest), its vector (at first zeros), the user's key, if
    /// there is such a user, the leaf by which the user signed last under that key, and the keys
    /// that a user has or had.
    pub fn new(
        number: u64,
        head: Digest,
        format: Format,
        vector: &'a Vector,
        key: Option<PublicKey>,
        leaf: Option<u32>,
        used: &'a UsedKeys,
    ) -> Tip<'a>
        ensures tip { (keys : List (List ℕ)) → tip_with result keys ≡ record {
          number = number;
          head = head;
          format = format;
          vector = vector.now;
          key = key;
          leaf = leaf;
          used = keys;
        } }
        ensures used { result.used.now ≡ used.now }
    {
        Tip {
            number,
            head,
            format,
            vector,
            key,
            leaf,
            used,
        }
    }

    /// Checks whether a commit of that user may come next. `BadSignature` where there is no such
    /// user, or the signature isn't under the user's key; `WrongPrev` with the number of commits
    /// where it names another one before it; `OldFormat` where its format is older than that one's;
    /// `WrongVector` where it carries a group that isn't in the roster, or its vector isn't the
    /// next; `KeyReuse` where its leaf isn't above the last, or a user has or had the next key that
    /// it names; `BadKey` where that is no key; `NoMemory`. It makes one check of a signature.
    pub fn check(&self, alloc: Global, roster: &Roster, commit: &Commit) -> Result<(), Refusal>
        ensures follows { OnOk result ((used : List (List ℕ)) → HasJust used self.now.used.now
            → Passes (next_order roster.now (tip_with self.now used) commit.now)) }
        ensures refused { IfErr result (λ e. (e ≡ NoMemory)
            ⊎ ((used : List (List ℕ)) → HasJust used self.now.used.now
            → RefusedBy (next_order roster.now (tip_with self.now used) commit.now) e)) }
    {
        // names the type for the prover (docs/ARCHITECTURE.md, "Forms the kit wants")
        let _file: Option<FileId> = None;
        let verdict = Verdict::of(alloc, self.key, commit)?;
        self.check_signed(roster, verdict.is_signed, commit)
    }

    /// Checks as `check` does, where there is a verdict on the commit's signature: if it was found
    /// under the user's key, no signature is checked.
    pub fn check_known(
        &self,
        alloc: Global,
        roster: &Roster,
        verdict: Verdict,
        commit: &Commit,
    ) -> Result<(), Refusal>
        requires { IsTrue verdict.is_signed ↔ IsSignedBy verdict.key commit.now }
        ensures follows { OnOk result ((used : List (List ℕ)) → HasJust used self.now.used.now
            → Passes (next_order roster.now (tip_with self.now used) commit.now)) }
        ensures refused { IfErr result (λ e. (e ≡ NoMemory)
            ⊎ ((used : List (List ℕ)) → HasJust used self.now.used.now
            → RefusedBy (next_order roster.now (tip_with self.now used) commit.now) e)) }
    {
        if verdict.key != self.key {
            return self.check(alloc, roster, commit);
        }
        self.check_signed(roster, verdict.is_signed, commit)
    }

    /// Checks as `check` does, where it is known whether the commit is signed.
    fn check_signed(&self, roster: &Roster, is_signed: bool, commit: &Commit) -> Result<(), Refusal>
        requires { IsTrue is_signed ↔ IsSignedBy self.now.key commit.now }
        ensures follows { OnOk result ((used : List (List ℕ)) → HasJust used self.now.used.now
            → Passes (next_order roster.now (tip_with self.now used) commit.now)) }
        ensures refused { IfErr result (λ e. (e ≡ NoMemory)
            ⊎ ((used : List (List ℕ)) → HasJust used self.now.used.now
            → RefusedBy (next_order roster.now (tip_with self.now used) commit.now) e)) }
    {
        // names the type for the prover (docs/ARCHITECTURE.md, "Forms the kit wants")
        let _file: Option<FileId> = None;
        let principals = roster.principals()?;
        let version = commit.version();
        if !is_signed {
            return Err(Refusal::BadSignature);
        }
        if version.prev() != self.head {
            return Err(Refusal::WrongPrev(self.number));
        }
        if !version.format().is_as_new(self.format) {
            return Err(Refusal::OldFormat);
        }
        if !counts_on(roster, principals.as_slice(), self.vector, commit) {
            return Err(Refusal::WrongVector);
        }
        if !is_new_leaf(self.leaf, commit.leaf()) || !is_new_key(self.used, version.next_key()) {
            return Err(Refusal::KeyReuse);
        }
        if !is_good_key(version.next_key()) {
            return Err(Refusal::BadKey);
        }
        Ok(())
    }
}

fn is_new_leaf(last: Option<u32>, leaf: u32) -> bool
    ensures { IsTrue result ↔ IsNewLeaf last leaf }
{
    match last {
        None => true,
        Some(last) => last < leaf,
    }
}

/// Whether a next key, if there is one, is none of those that a user has or had.
fn is_new_key(used: &UsedKeys, next: Option<[u8; KEY_LENGTH]>) -> bool
    ensures { (keys : List (List ℕ)) → HasJust keys used.now
        → IsTrue result ↔ IsNewKey keys next }
{
    match &next {
        None => true,
        Some(key) => !used.has(key),
    }
}

/// Whether a next key, if there is one, is a public key.
fn is_good_key(next: Option<[u8; KEY_LENGTH]>) -> bool
    ensures { IsTrue result ↔ IsGoodKey next }
{
    match &next {
        None => true,
        Some(key) => PublicKey::parse(key).is_ok(),
    }
}

/// Whether a commit carries groups of the roster, and its vector comes next.
fn counts_on(roster: &Roster, principals: &[Principal], before: &Vector, commit: &Commit) -> bool
    requires { principals.now ≡ principals_of roster.now }
    ensures { IsTrue result ↔ CountsOn roster.now before.now commit.now }
{
    let version = commit.version();
    let numbers = version.vector().numbers();
    let author = version.author();
    have_groups(principals, version.groups())
        && are_numbers_after(
            numbers,
            principals,
            before.numbers(),
            author,
            version.groups(),
        )
}

/// Whether each of these groups is among the principals.
fn have_groups(principals: &[Principal], groups: &[(Group, Digest)]) -> bool
    ensures { IsTrue result
        ↔ AllByRecursion (λ g. list_any (is_that_group g.0) principals.now ≡ true) groups.now }
{
    let [(group, _), groups @ ..] = groups else {
        return true;
    };
    has_group(principals, *group) && have_groups(principals, groups)
}

/// Whether the group is among the principals.
fn has_group(principals: &[Principal], group: Group) -> bool
    ensures { result ≡ list_any (is_that_group group) principals.now }
{
    let [first, others @ ..] = principals else {
        return false;
    };
    is_that_group(first, group) || has_group(others, group)
}

fn is_that_group(principal: &Principal, group: Group) -> bool
    ensures { result ≡ is_that_group group principal.now }
{
    match principal {
        Principal::User(_) => false,
        Principal::Group(other) => *other == group,
    }
}
