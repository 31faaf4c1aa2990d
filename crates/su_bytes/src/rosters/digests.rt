// The digest of a roster.
ghost use Rattle.std.specs.Prelude.{◌≡◌, ℕ, ◌++◌, ◌∷◌, List, length, map, All};
ghost use Rattle.std.specs.List.{flat_map};
ghost use Rattle.std.specs.List.Sorted.{IsStrictlyIncreasing};
ghost use Rattle.sha2.specs.Hashers.{Holds256};
ghost use Rattle.su_bytes.specs.Roster.{users_of, groups_of};
ghost use Rattle.su_bytes.specs.RosterBytes.{roster_digest, user_bytes, members_bytes};

use super::{Roster, RosterGroup, RosterUser, count_of};
use crate::digests::Digest;
use crate::principals::User;
use sha2::{Digest as _, Sha256};

impl Roster {
    /// Returns the SHA-256 of its bytes, which the first commit names as the one before it. Takes
    /// no memory.
    pub fn digest(&self) -> Digest
        ensures { result ≡ roster_digest self.now }
    {
        let mut hasher = Sha256::new();
        hasher.update(b"SR01");
        feed_users(&mut hasher, &self.users);
        feed_groups(&mut hasher, &self.groups);
        Digest::new(hasher.finalize())
    }
}

/// Gives a hasher how many users there are, and each with the key.
fn feed_users(hasher: &mut Sha256, users: &[RosterUser])
    requires { IsStrictlyIncreasing (map (λ u. u.user) users.now) }
    ensures { (m : List ℕ) → Holds256 hasher.old m
        → Holds256 hasher.new (m ++ length users.now ∷ flat_map user_bytes (users_of users.now)) }
{
    hasher.update([count_of(users)]);
    for entry in users {
        hasher.update([entry.user.number()]);
        hasher.update(entry.key);
    }
}

/// Gives a hasher how many groups there are, and each with how many members it has, and these.
fn feed_groups(hasher: &mut Sha256, groups: &[RosterGroup])
    requires groups { IsStrictlyIncreasing (map (λ g. g.group) groups.now) }
    requires members { All (λ g. IsStrictlyIncreasing (map (λ u. u) g.members.items)) groups.now }
    ensures { (m : List ℕ) → Holds256 hasher.old m
        → Holds256 hasher.new
        (m ++ length groups.now ∷ flat_map members_bytes (groups_of groups.now)) }
{
    hasher.update([count_of(groups)]);
    for entry in groups {
        hasher.update([entry.group.number()]);
        feed_members(hasher, &entry.members);
    }
}

/// Gives a hasher how many members there are, and these.
fn feed_members(hasher: &mut Sha256, members: &[User])
    requires { IsStrictlyIncreasing (map (λ u. u) members.now) }
    ensures { (m : List ℕ) → Holds256 hasher.old m
        → Holds256 hasher.new (m ++ length members.now ∷ members.now) }
{
    hasher.update([count_of(members)]);
    for member in members {
        hasher.update([member.number()]);
    }
}
