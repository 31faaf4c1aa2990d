// What holds of the texts.
ghost use Rattle.std.specs.Prelude.{◌≡◌, ◌+◌, ◌<◌, ◌^◌, ℕ, List, All, slice_get};
ghost use Rattle.su_team.specs.Group.{IsDigest, groups_of};
ghost use Rattle.su_team.specs.Team.{IsTeam, team_text};
ghost use Rattle.su_team.specs.Time.{time_at, times_bytes};

/// A text is that of at most one team.
pub fn texts_tell_teams()
    ensures { (a b : List (List ℕ × List ℕ)) → IsTeam a → IsTeam b → team_text a ≡ team_text b
        → a ≡ b }
{}

/// Groups are those of at most one digest.
pub fn groups_tell_digests()
    ensures { (a b : List ℕ) → IsDigest a → IsDigest b → groups_of a ≡ groups_of b → a ≡ b }
{}

/// Of bytes in which seconds are kept, each is found by its number, which is one more than its
/// place.
pub fn kept_times_are_found()
    ensures { (seconds : List ℕ) (n : ℕ) → All (λ s. s < 2 ^ 64) seconds
        → time_at (times_bytes seconds) (n + 1) ≡ slice_get seconds n }
{}
