// What was put is what is got.
ghost use Rattle.std.specs.Prelude.{◌≡◌, ℕ, List};
ghost use Rattle.su_person.specs.Putting.{HasThere};
ghost use Rattle.su_view.specs.Holding.{HoldingState};

/// Whoever holds the same list as a client whose put of bytes at a path was done finds just these
/// bytes there: what the path leads to then, by the clause `there` of `put`, and what is found of it
/// later, as the clause of `cat` says it, are one byte string.
pub fn puts_are_got()
    ensures { (v w : HoldingState) (path put got : List ℕ)
        → HasThere v path put → w.roster ≡ v.roster → w.held ≡ v.held → HasThere w path got
        → got ≡ put }
{}
