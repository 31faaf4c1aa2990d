// The end of a chain of commits.
ghost use Rattle.std.specs.Prelude.{◌≡◌, ◌≢◌, ◌≤◌, ◌<◌, ◌+◌, ◌-◌, ◌^◌, ◌⊎◌, ◌↔◌, ◌++◌, ◌∷◌, ℕ, List, [], None, true, length, option_to_list, IsTrue, IfOk, IfErr, IfSome, OnOk};
ghost use Rattle.su_bytes.specs.Membership.{Membership};
ghost use Rattle.su_bytes.specs.Order.{RefusedBy};
ghost use Rattle.su_bytes.specs.Principal.{is_user};
ghost use Rattle.su_bytes.specs.RosterBytes.{user_key};
ghost use Rattle.su_bytes.specs.declared.refusals.Refusal.TheVariants.{BadKey, NoMemory};
ghost use Rattle.su_lms.specs.Signature.{IsPublicKey, leaf_of};
ghost use Rattle.su_used_keys.specs.UsedKeys.{HasJust, HasRoom};
ghost use Rattle.su_vector.specs.Vector.{zeros};
ghost use Rattle.su_version.specs.Commit.{Commit as CommitParts, commit_digest};
ghost use Rattle.su_version.specs.Chain.{IsSignedBy, IsGoodKey, MayBeNext, chain_key, key_after, leaf_after, next_order, tip};
ghost use Rattle.su_version.specs.Tip.{tip_with};
ghost use Rattle.su_chain.specs.ChainEnd.{user_at, tip_at, HasAllUsers, IsEndOf, HasBadKey};

use std::alloc::{AllocError, Global};
use su_bytes::{Digest, FileId, Format, KEY_LENGTH, Refusal, Roster, User};
use su_lms::PublicKey;
use su_used_keys::UsedKeys;
use su_vector::Vector;
use su_version::{Commit, Tip, Verdict};

/// How many users there can be.
const USERS: usize = 64;

/// What is known of a user: the key, if there is such a user, and the leaf that signed last under
/// it.
#[derive(Clone, Copy, Debug)]
struct UserKey {
    key: Option<PublicKey>,
    leaf: Option<u32>,
}

impl UserKey {
    /// What is known of the user behind a commit of the user's: the next key, if it names one, of
    /// which no leaf has signed; else the leaf by which it is signed. It takes no memory.
    fn after(self, commit: &Commit) -> UserKey
        requires user { self.key ≢ None }
        requires good { IsGoodKey commit.now.version.next_key }
        requires leaf { 4 ≤ length commit.now.signature }
        ensures key { result.key ≡ key_after self.key commit.now.version.next_key }
        ensures leaf { result.leaf
            ≡ leaf_after commit.now.version.next_key (leaf_of commit.now.signature) }
    {
        match commit.version().next_key() {
            None => UserKey {
                key: self.key,
                leaf: Some(commit.leaf()),
            },
            Some(next) => {
                let Ok(key) = PublicKey::parse(&next) else {
                    unreachable!()
                };
                UserKey {
                    key: Some(key),
                    leaf: None,
                }
            }
        }
    }
}

/// What a chain of commits comes to, so that the next one can be checked without those before it:
/// their number, the digest of the last one (at first that of the roster), its format (at first the
/// oldest), its vector (at first zeros), of each user the key and the last leaf, and the keys that
/// users have or had. It takes 64 times 64 bytes, the vector, and 56 bytes for each of these keys.
#[derive(Drop)]
pub struct ChainEnd {
    users: Vec<UserKey>,
    number: u64,
    head: Digest,
    format: Format,
    vector: Vector,
    used: UsedKeys,
}

impl ChainEnd {
    /// Makes the end of a chain without commits. `BadKey` where a user's key is none; else only
    /// `NoMemory`.
    pub fn new(alloc: Global, roster: &Roster) -> Result<ChainEnd, Refusal>
        ensures end { IfOk result (λ end. IsEndOf roster.now [] end) }
        ensures keys { OnOk result (¬ HasBadKey roster.now) }
        ensures refused { IfErr result (λ e.
            ((e ≡ BadKey) × HasBadKey roster.now) ⊎ (e ≡ NoMemory)) }
    {
        let users = keys_of(alloc, roster)?;
        let vector = zeros(alloc, roster)?;
        let used = UsedKeys::of_roster(alloc, roster)?;
        Ok(ChainEnd {
            users,
            number: 0,
            head: roster.digest(),
            format: Format::V1,
            vector,
            used,
        })
    }

    /// Returns the number of commits.
    pub fn number(&self) -> u64
        ensures { (ro : Membership) (cs : List CommitParts) → IsEndOf ro cs self.now
            → result ≡ length cs }
    {
        self.number
    }

    /// Returns the digest that the next commit names as the one before it.
    pub fn head(&self) -> Digest
        ensures { result ≡ self.now.head }
    {
        self.head
    }

    /// Returns the key under which a user signs next, if there is such a user.
    pub fn key(&self, user: User) -> Option<PublicKey>
        requires { HasAllUsers self.now }
        ensures { (ro : Membership) (cs : List CommitParts) → IsEndOf ro cs self.now
            → result ≡ chain_key ro user cs }
    {
        self.users[usize::from(user.number())].key
    }

    /// Checks whether a commit may come next. `BadSignature` where its author is no user of the
    /// roster or didn't sign it under the present key; `WrongPrev` with the number of commits where
    /// it names another one before it; `OldFormat` where its format is older than that one's;
    /// `WrongVector` where it carries a group that isn't in the roster, or its vector isn't the next;
    /// `KeyReuse` where its leaf isn't above the author's last under that key, or a user has or had
    /// the next key that it names; `BadKey` where that is no key; `NoMemory`. It makes one check of a
    /// signature.
    pub fn check(&self, alloc: Global, roster: &Roster, commit: &Commit) -> Result<(), Refusal>
        requires { HasAllUsers self.now }
        ensures next { OnOk result ((cs : List CommitParts) → IsEndOf roster.now cs self.now
            → MayBeNext roster.now cs commit.now) }
        ensures refused { IfErr result (λ e. (e ≡ NoMemory)
            ⊎ ((cs : List CommitParts) → IsEndOf roster.now cs self.now
            → RefusedBy
            (next_order roster.now (tip roster.now cs commit.now.version.author) commit.now) e)) }
    {
        let tip = self.tip(commit.version().author());
        tip.check(alloc, roster, commit)
    }

    /// Checks as `check` does, where there is a verdict on the commit's signature: if it was found
    /// under the author's key, no signature is checked.
    pub fn check_known(
        &self,
        alloc: Global,
        roster: &Roster,
        verdict: Verdict,
        commit: &Commit,
    ) -> Result<(), Refusal>
        requires users { HasAllUsers self.now }
        requires known { IsTrue verdict.is_signed ↔ IsSignedBy verdict.key commit.now }
        ensures next { OnOk result ((cs : List CommitParts) → IsEndOf roster.now cs self.now
            → MayBeNext roster.now cs commit.now) }
        ensures refused { IfErr result (λ e. (e ≡ NoMemory)
            ⊎ ((cs : List CommitParts) → IsEndOf roster.now cs self.now
            → RefusedBy
            (next_order roster.now (tip roster.now cs commit.now.version.author) commit.now) e)) }
    {
        let tip = self.tip(commit.version().author());
        tip.check_known(alloc, roster, verdict, commit)
    }

    /// What the next commit of that user is measured by.
    fn tip(&self, user: User) -> Tip<'_>
        requires { HasAllUsers self.now }
        ensures tip { (used : List (List ℕ))
            → tip_with result used ≡ tip_at self.now user used }
        ensures used { result.used.now ≡ self.now.used }
    {
        let user = self.users[usize::from(user.number())];
        let (vector, used) = (&self.vector, &self.used);
        Tip::new(
            self.number,
            self.head,
            self.format,
            vector,
            user.key,
            user.leaf,
            used,
        )
    }

    /// Makes room for a next key, so that a commit which names one can be added.
    pub fn reserve(&mut self) -> Result<(), AllocError>
        ensures kept { (ro : Membership) (cs : List CommitParts) → IsEndOf ro cs self.old
            → IsEndOf ro cs self.new }
        ensures room { OnOk result (HasRoom self.new.used) }
    {
        self.used.reserve()
    }

    /// Adds a commit that may come next, by its digest. It takes no memory.
    pub fn push(&mut self, roster: &Roster, commit: &Commit, digest: Digest)
        requires room { self.old.number < 2 ^ 64 - 1 }
        requires key_room { HasRoom self.old.used }
        requires digest { digest ≡ commit_digest commit.now }
        requires next { (cs : List CommitParts) × IsEndOf roster.now cs self.old
            × MayBeNext roster.now cs commit.now }
        ensures { (cs : List CommitParts) → IsEndOf roster.now cs self.old
            → MayBeNext roster.now cs commit.now
            → IsEndOf roster.now (cs ++ commit.now ∷ []) self.new }
    {
        let version = commit.version();
        let author = usize::from(version.author().number());
        self.users[author] = self.users[author].after(commit);
        add_key(&mut self.used, version.next_key());
        self.number += 1;
        self.head = digest;
        self.format = version.format();
        self.vector.set(version.vector());
    }
}

/// Adds a next key, if there is one, to those that users have or had. It takes no memory.
fn add_key(used: &mut UsedKeys, next: Option<[u8; KEY_LENGTH]>)
    requires { HasRoom used.old }
    ensures { (keys : List (List ℕ)) → HasJust keys used.old
        → HasJust (keys ++ option_to_list next) used.new }
{
    if let Some(key) = next {
        used.add(key);
    }
}

/// Reads the key of each user of the roster. `BadKey` where one is none; else only `NoMemory`.
fn keys_of(alloc: Global, roster: &Roster) -> Result<Vec<UserKey>, Refusal>
    ensures long { IfOk result (λ users. length users.items ≡ USERS) }
    ensures keys { IfOk result (λ users. (u : ℕ) → is_user u ≡ true
        → (user_at users.items u).key ≡ user_key roster.now u) }
    ensures leaves { IfOk result (λ users. (u : ℕ)
        → (user_at users.items u).leaf ≡ None) }
    ensures good { OnOk result (¬ HasBadKey roster.now) }
    ensures refused { IfErr result (λ e.
        ((e ≡ BadKey) × HasBadKey roster.now) ⊎ (e ≡ NoMemory)) }
{
    let mut users = Vec::with_capacity(alloc, USERS)?;
    for number in 0..USERS {
        let Ok(user) = User::new(number as u64) else {
            unreachable!()
        };
        let key = key_of(roster, user)?;
        users.push(UserKey { key, leaf: None })?;
    }
    Ok(users)
}

/// Reads the key of a user, if there is such a user; `BadKey` where it is none.
fn key_of(roster: &Roster, user: User) -> Result<Option<PublicKey>, Refusal>
    ensures key { IfOk result (λ key. key ≡ user_key roster.now user) }
    ensures good { IfOk result (λ key. IfSome key IsPublicKey) }
    ensures refused { IfErr result (λ e. (e ≡ BadKey) × HasBadKey roster.now) }
{
    // names the type for the prover (docs/ARCHITECTURE.md, "Forms the kit wants")
    let _file: Option<FileId> = None;
    let _number = user.number();
    match roster.key(user) {
        None => Ok(None),
        Some(bytes) => Ok(Some(PublicKey::parse(bytes)?)),
    }
}

/// Makes the vector of a chain without commits. Fails only with `NoMemory`.
fn zeros(alloc: Global, roster: &Roster) -> Result<Vector, Refusal>
    ensures value { IfOk result (λ v. v ≡ zeros roster.now) }
    ensures refused { IfErr result (λ e. e ≡ NoMemory) }
{
    let principals = roster.principals()?;
    let mut numbers = Vec::with_capacity(alloc, principals.len())?;
    for _ in &principals {
        numbers.push(0)?;
    }
    Ok(Vector::new(numbers))
}
