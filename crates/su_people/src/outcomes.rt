// How a command of people ends.
ghost use Rattle.std.specs.Prelude.{◌≡◌};
ghost use Rattle.su_people.specs.Outcome.{code_of};

use su_people_session::{Trouble, is_lie};

/// How a command of people ends.
#[derive(Clone, Copy, Debug, PartialEq, Eq)]
pub enum Outcome {
    /// It is done.
    Done,
    /// It is refused, or a file, the network or memory failed it. What was committed before stays.
    Refused,
    /// The server showed what it may not. Nothing of that was taken.
    Lied,
}

impl Outcome {
    /// Returns the exit status: 0, 1 or 3. (2 is that of a wrong command line.)
    pub fn code(self) -> u8
        ensures { result ≡ code_of self }
    {
        match self {
            Outcome::Done => 0,
            Outcome::Refused => 1,
            Outcome::Lied => 3,
        }
    }
}

/// Returns how a command ends that isn't done.
pub(crate) fn ending_of(trouble: &Trouble) -> Outcome {
    match trouble {
        Trouble::Refused { refusal, takes, .. } if is_lie(*takes, refusal) => Outcome::Lied,
        _ => Outcome::Refused,
    }
}
