// How a command line ends.
use su_desk_script::Status;
use su_people::Outcome;

/// How a command line ended.
#[derive(Clone, Copy)]
pub(crate) enum Ended {
    /// As a program does that runs a script, serves, or makes something.
    Program(Status),
    /// As a command for people does.
    People(Outcome),
}

impl Ended {
    /// Returns the exit status: 0 to 3.
    pub(crate) fn code(self) -> u8 {
        match self {
            Ended::Program(status) => status.code(),
            Ended::People(outcome) => outcome.code(),
        }
    }
}
