// Why a state folder can't be used.
ghost use Rattle.std.specs.Prelude.{◌≡◌};
ghost use Rattle.su_folder.specs.declared.faults.FolderFault.TheVariants.{NoMemory};

use std::alloc::{AllocError, Global};
use std::{fmt, io};
use su_team::TextFault;
use thiserror::Error;

/// Why a state folder can't be used: which file or folder stands in the way, and what is wrong.
#[derive(Debug, Drop, Error)]
pub enum FolderFault {
    /// There is no state folder in this directory, or upwards from it.
    #[error("there is no folder .sundr in {path}: make one with `sundr init`, or say where it is \
        with `--in DIR`")]
    NoFolder {
        path: String,
    },
    /// What is to be made is there already.
    #[error("{path} is there already")]
    Exists {
        path: String,
    },
    /// Another process works in the state folder of this directory.
    #[error("{path} is in use by {holder}")]
    InUse {
        path: String,
        holder: Holder,
    },
    /// A file or folder can't be read.
    #[error("reading {path}: {reason}")]
    Unread {
        path: String,
        reason: io::Error,
    },
    /// A file or folder can't be made, written, synced or locked.
    #[error("writing {path}: {reason}")]
    Unwritten {
        path: String,
        reason: io::Error,
    },
    /// A file has more bytes than it may have.
    #[error("{path} has more than {most} bytes")]
    TooLong {
        path: String,
        most: u64,
    },
    /// The file of the team isn't read.
    #[error("{path}, {fault}")]
    Team {
        path: String,
        fault: TextFault,
    },
    /// Another file has, or would have, what may not stand there.
    #[error("{path}: {mistake}")]
    Wrong {
        path: String,
        mistake: Mistake,
    },
    /// More of the log would be dropped than a write that was stopped leaves behind.
    #[error("{path} is damaged: of its {length} bytes the first {whole} are whole entries, and more \
        is behind them than a stop leaves")]
    Damaged {
        path: String,
        length: u64,
        whole: u64,
    },
    /// Memory is refused.
    #[error("out of memory")]
    NoMemory,
}

/// Who works in a state folder, as far as its lock tells.
#[derive(Clone, Copy, Debug, PartialEq, Eq)]
pub struct Holder {
    pub process: Option<u32>,
}

impl fmt::Display for Holder {
    fn fmt<W: fmt::Write>(&self, f: &mut fmt::Formatter<W>) -> fmt::Result {
        match self.process {
            Some(process) => write!(f, "process {process}"),
            None => f.write_str("another process"),
        }
    }
}

/// What is wrong in a file.
#[derive(Clone, Copy, Debug, PartialEq, Eq, Error)]
pub enum Mistake {
    /// It is a folder, a device or a pipe.
    #[error("it is no plain file")]
    NoFile,
    /// It tells no server.
    #[error("it is not `HOST:PORT` on one line, with a port from 1 to 65535")]
    Server,
    /// It tells no user and key file.
    #[error("it is not a user's name and the path of a key file, on a line each")]
    Me,
    /// Its user isn't in the team.
    #[error("its user is not in the team")]
    NotInTeam,
    /// A line is none that tells of a file.
    #[error("a line is not `NUMBER PATH`")]
    Seen,
}

impl FolderFault {
    /// Returns `Unread` of a path.
    pub(crate) fn unread(alloc: Global, path: &str, reason: io::Error) -> FolderFault {
        match String::from_str(alloc, path) {
            Ok(path) => FolderFault::Unread { path, reason },
            Err(_) => FolderFault::NoMemory,
        }
    }

    /// Returns `Unwritten` of a path.
    pub(crate) fn unwritten(alloc: Global, path: &str, reason: io::Error) -> FolderFault {
        match String::from_str(alloc, path) {
            Ok(path) => FolderFault::Unwritten { path, reason },
            Err(_) => FolderFault::NoMemory,
        }
    }

    /// Returns `Wrong` of a path.
    pub(crate) fn wrong(alloc: Global, path: &str, mistake: Mistake) -> FolderFault {
        match String::from_str(alloc, path) {
            Ok(path) => FolderFault::Wrong { path, mistake },
            Err(_) => FolderFault::NoMemory,
        }
    }
}

impl From<AllocError> for FolderFault {
    ghost from_gives = { λ _ e. e ≡ NoMemory };

    fn from(_refused: AllocError) -> FolderFault {
        FolderFault::NoMemory
    }
}
