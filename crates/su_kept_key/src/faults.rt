// Why a key can't be used.
ghost use Rattle.std.specs.Prelude.{◌≡◌, ℕ, List};
ghost use Rattle.su_kept_key.specs.Reading.{RefusesNoKey};
ghost use Rattle.su_kept_key.specs.declared.faults.KeptKeyFault.TheVariants.{NoMemory};

use crate::locks::LockFault;
use std::alloc::{AllocError, Global};
use std::io;
use su_bytes::Refusal;
use thiserror::Error;

/// Why a key can't be used: which file or folder stands in the way, and the system's reason.
#[derive(Debug, Drop, Error)]
pub enum KeptKeyFault {
    /// The path ends in no name.
    #[error("{path} names no file")]
    NoName { path: String },
    /// What stands at the path is a folder, a link, a device or a pipe.
    #[error("{path} is no plain file, and a key is kept in one")]
    InTheWay { path: String },
    /// The file has other names, under which the leaves that sign would stay unknown.
    #[error("{path} has {names} names, and the file of a key has one")]
    ManyNames { path: String, names: u64 },
    /// The key can't be locked.
    #[error(transparent)]
    Lock(#[from] LockFault),
    /// There is no file, or it can't be read.
    #[error("reading {path}: {reason}")]
    Unread { path: String, reason: io::Error },
    /// The bytes of the file are those of no key.
    #[error("{path} is no key file: {refusal}")]
    NoKey { path: String, refusal: Refusal },
    /// The folder of the key can't be opened.
    #[error("the folder {path}: {reason}")]
    Folder { path: String, reason: io::Error },
    /// Memory is refused.
    #[error("out of memory")]
    NoMemory,
}

impl KeptKeyFault {
    /// Returns `Unread` of a path.
    pub fn unread(alloc: Global, path: &str, reason: io::Error) -> KeptKeyFault
        ensures { (bytes : List ℕ) → RefusesNoKey bytes result }
    {
        match String::from_str(alloc, path) {
            Ok(path) => KeptKeyFault::Unread { path, reason },
            Err(_) => KeptKeyFault::NoMemory,
        }
    }

    /// Returns `Folder` of a path.
    pub fn folder(alloc: Global, path: &str, reason: io::Error) -> KeptKeyFault
        ensures { (bytes : List ℕ) → RefusesNoKey bytes result }
    {
        match String::from_str(alloc, path) {
            Ok(path) => KeptKeyFault::Folder { path, reason },
            Err(_) => KeptKeyFault::NoMemory,
        }
    }
}

impl From<AllocError> for KeptKeyFault {
    ghost from_gives = { λ _ e. e ≡ NoMemory };

    fn from(_refused: AllocError) -> KeptKeyFault {
        KeptKeyFault::NoMemory
    }
}
