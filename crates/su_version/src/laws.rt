// What holds of version structures, commits and chains.
ghost use Rattle.std.specs.Prelude.{◌≡◌, ◌<◌, ◌++◌, ℕ, List};
ghost use Rattle.su_bytes.specs.Membership.{Membership};
ghost use Rattle.su_lms.specs.Signature.{leaf_of};
ghost use Rattle.su_version.specs.Version.{Version, IsVersion, version_bytes};
ghost use Rattle.su_version.specs.Commit.{Commit, IsCommit, commit_bytes};
ghost use Rattle.su_bytes.specs.RosterBytes.{roster_bytes};
ghost use Rattle.su_version.specs.Chain.{IsChain, MayBeNext, SignedBefore};

/// A version structure has one spelling, which begins no other's; so does a commit; and no roster
/// is spelled as a commit is.
pub fn no_spelling_begins_another()
    ensures versions { (v w : Version) (x y : List ℕ) → IsVersion v → IsVersion w
        → version_bytes v ++ x ≡ version_bytes w ++ y → (v ≡ w) × (x ≡ y) }
    ensures commits { (c d : Commit) (x y : List ℕ) → IsCommit c → IsCommit d
        → commit_bytes c ++ x ≡ commit_bytes d ++ y → (c ≡ d) × (x ≡ y) }
    ensures rosters { (ro : Membership) (c : Commit) → roster_bytes ro ≡ commit_bytes c → ⊥ }
{}

/// Along a chain the leaves of each key rise: of a commit that may be the next one, the leaf is
/// above those of all commits before that its author signed under the same key. So no leaf of a key
/// signs twice.
pub fn leaves_rise()
    ensures { (ro : Membership) (cs : List Commit) (c d : Commit) → IsChain ro cs
        → MayBeNext ro cs c → SignedBefore ro cs c.version.author d
        → leaf_of d.signature < leaf_of c.signature }
{}
