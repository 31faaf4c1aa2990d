// The steps that were made, which proofs alone read.
ghost use Rattle.std.specs.Prelude.{◌≡◌, ◌∷◌, ◌++◌, ◌+◌, ◌<◌, ◌^◌, [], length};

use crate::steps::Step;
use http_server::Log;
use std::marker::Model;

/// The steps that the seats of a book made. Its model is their list; all that it has in memory is how
/// many they are, so it is as small after a million requests as before the first one. (`Log` is the
/// kit's list that no memory holds; it has no crate of its own.)
#[derive(Drop)]
pub(crate) struct Journal {
    steps: Log<Step, ()>,
    count: usize,
}

impl Model for Journal {
    ghost use Rattle.std.specs.Prelude.{◌≡◌, List, length};
    ghost use Rattle.su_book.specs.declared.steps.Step.{Step as TheStep};
    ghost use Rattle.su_book.specs.Journal.{steps_in};

    ghost Value = { List TheStep };

    ghost view = { λ j. steps_in j.steps.items };

    ghost invariant = { λ j. j.count ≡ length (steps_in j.steps.items) };
}

impl Journal {
    /// Makes the journal of no step.
    pub fn new() -> Journal
        ensures { result ≡ [] }
    {
        Journal {
            steps: Log::new(),
            count: 0,
        }
    }

    /// Returns how many steps there are.
    pub fn len(&self) -> usize
        ensures { result ≡ length self.now }
    {
        self.count
    }

    /// Adds a step.
    pub fn push(&mut self, step: &Step)
        requires { length self.old + 1 < 2 ^ 64 }
        ensures { self.new ≡ self.old ++ step.now ∷ [] }
    {
        self.steps = self.steps.and(step, &());
        self.count += 1;
    }
}
