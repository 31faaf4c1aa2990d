// How the run of a script ends.
ghost use Rattle.std.specs.Prelude.{◌≡◌};
ghost use Rattle.su_client_script.specs.Run.{status_of};

use std::{fmt, io, str};
use su_desk_lines::Mistake;
use su_desk_script::Status;

/// How a run ended, and why.
#[derive(Debug, Drop)]
pub enum Ending {
    /// All lines were carried out.
    Finished,
    /// The line with that number, from 1, is no command; its first mistake, where there was memory
    /// to look for it.
    BadLine {
        number: u64,
        mistake: Option<Mistake>,
    },
    /// The line with that number, from 1, was refused, where that was to end the run.
    Refused {
        number: u64,
    },
    /// Something failed.
    Failed(Fault),
}

impl Ending {
    /// Returns the status of a program whose run ended so.
    pub fn status(&self) -> Status
        ensures { result ≡ status_of self.now }
    {
        match self {
            Ending::Finished => Status::Finished,
            Ending::BadLine { .. } => Status::BadLine,
            Ending::Refused { .. } | Ending::Failed(_) => Status::Fault,
        }
    }
}

/// What failed in a run.
#[derive(Debug, Drop)]
pub enum Fault {
    /// Reading the script.
    Reading(io::Error),
    /// Writing an answer.
    Writing(io::Error),
    /// Saving the log to that file.
    Saving { file: Vec<u8>, reason: io::Error },
    /// The link to the server.
    Link,
    /// There was no memory for an answer.
    NoMemory,
}

impl fmt::Display for Fault {
    fn fmt<W: fmt::Write>(&self, f: &mut fmt::Formatter<W>) -> fmt::Result {
        match self {
            Fault::Reading(reason) => write!(f, "reading the script: {reason}"),
            Fault::Writing(reason) => write!(f, "writing an answer: {reason}"),
            Fault::Saving { file, reason } => match str::from_utf8(file.as_slice()) {
                Ok(file) => write!(f, "saving {file}: {reason}"),
                Err(_) => write!(f, "saving the log: {reason}"),
            },
            Fault::Link => write!(
                f,
                "the link to the server failed: it was ended, or no answer that fits came for 30 s"
            ),
            Fault::NoMemory => write!(f, "out of memory"),
        }
    }
}
