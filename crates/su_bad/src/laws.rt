// What the steps of a script mean for who looks.
ghost use Rattle.std.specs.Prelude.{◌≡◌, ℕ, None};
ghost use Rattle.su_bad.specs.Script.{IsSpared, after, forged, shown_at};
ghost use Rattle.su_bad.specs.Shown.{Shown};
ghost use Rattle.su_bad.specs.declared.steps.Step.{Step};
ghost use Rattle.su_bad.specs.declared.steps.Step.TheVariants.{Drop, Forge};

/// A step changes what is shown under the numbers that it names, and nothing else.
pub fn steps_lie_where_they_say()
    ensures spared { (step : Step) (s : Shown) (m : ℕ) → IsSpared step s.records m
        → shown_at (after step s).records m ≡ shown_at s.records m }
    ensures dropped { (s : Shown) (n : ℕ) → shown_at (after (Drop n) s).records n ≡ None }
    ensures forged { (s : Shown) (n : ℕ)
        → shown_at (after (Forge n) s).records n ≡ forged (shown_at s.records n) }
{}
