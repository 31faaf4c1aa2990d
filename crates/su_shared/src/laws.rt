// What every run of a book says of its seats.
ghost use Rattle.std.specs.Prelude.{◌≡◌, ◌==◌, ℕ, List, count_by};
ghost use Rattle.su_book.specs.declared.steps.Step.{Step};
ghost use Rattle.su_book.specs.Machine.{BookState, IsRun};
ghost use Rattle.su_shared.specs.Shares.{kept_of, IsOrderly};

/// What is kept for a seat counts its steps, so that each has its place among them.
pub fn steps_are_counted()
    ensures { (i : ℕ) (steps : List Step)
        → (kept_of i steps).steps ≡ count_by (λ s. s.seat == i) steps }
{}

/// In every run no seat was told more than the number of records, and the seat that has the turn
/// was told so last.
pub fn runs_are_orderly()
    ensures { (b : BookState) → IsRun b → IsOrderly b.journal }
{}
