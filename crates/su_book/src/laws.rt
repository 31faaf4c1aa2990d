// What holds of every run of a book.
ghost use Rattle.std.specs.Prelude.{◌≡◌, ◌≤◌, ◌+◌, ◌++◌, ◌∷◌, ℕ, List, Some};
ghost use Rattle.su_bytes.specs.declared.refusals.Refusal.{Refusal};
ghost use Rattle.su_version.specs.Commit.{Commit};
ghost use Rattle.su_version.specs.Chain.{IsChain, MayBeNext};
ghost use Rattle.su_book.specs.declared.steps.Step.{Step};
ghost use Rattle.su_book.specs.declared.steps.Act.{Act};
ghost use Rattle.su_book.specs.declared.steps.Act.TheVariants.{Stored};
ghost use Rattle.su_book.specs.declared.events.Event.{Event};
ghost use Rattle.su_book.specs.Machine.{BookState, IsRun, MayFollow, MayAct, AsksFor, IsRefused, with_step, holder_of, records_of, count_of, stored_by};

/// While a seat has the turn, no other makes a step.
pub fn one_seat_has_the_turn()
    ensures { (b : BookState) (s : Step) (holder : ℕ) → MayFollow b s
        → holder_of b.journal ≡ Some holder → s.seat ≡ holder }
{}

/// The records only grow: a step adds what it stores behind them, and a commit is told its place.
pub fn records_only_grow()
    ensures records { (b : BookState) (s : Step) → records_of (with_step b s).journal
        ≡ records_of b.journal ++ stored_by s.act }
    ensures number { (b : BookState) (seat n : ℕ) (c : Commit) → MayAct b seat (Stored n c)
        → n ≡ count_of b.journal + 1 }
{}

/// The records of a run are a chain, each of which may be the next after those before it, and no
/// more than the book may store.
pub fn records_are_a_chain()
    ensures chain { (b : BookState) → IsRun b → IsChain b.roster (records_of b.journal) }
    ensures next { (b : BookState) (before after : List Commit) (c : Commit) → IsRun b
        → records_of b.journal ≡ before ++ c ∷ after → MayBeNext b.roster before c }
    ensures within { (b : BookState) → IsRun b → count_of b.journal ≤ b.capacity }
{}

/// The machine gives one answer: what is asked for in a state has one act, or one refusal, and not
/// both.
pub fn one_answer()
    ensures act { (b : BookState) (seat : ℕ) (e : Event) (x y : Act) → AsksFor e x → AsksFor e y
        → MayAct b seat x → MayAct b seat y → x ≡ y }
    ensures refusal { (b : BookState) (seat : ℕ) (e : Event) (x y : Refusal)
        → IsRefused b seat e x → IsRefused b seat e y → x ≡ y }
    ensures either { (b : BookState) (seat : ℕ) (e : Event) (x : Act) (y : Refusal)
        → AsksFor e x → MayAct b seat x → IsRefused b seat e y → ⊥ }
{}
