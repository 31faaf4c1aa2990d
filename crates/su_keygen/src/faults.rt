// Why no key was made.
ghost use Rattle.std.specs.Prelude.{◌≡◌};
ghost use Rattle.su_keygen.specs.declared.faults.KeygenFault.TheVariants.{NoMemory};

use std::alloc::{AllocError, Global};
use std::io;
use su_kept_key::LockFault;
use thiserror::Error;

/// Why no key was made: which file or folder stood in the way, and the system's reason.
#[derive(Debug, Drop, Error)]
pub enum KeygenFault {
    /// The file of entropy can't be read.
    #[error("reading {path}: {reason}")]
    Unread { path: String, reason: io::Error },
    /// The file of entropy has fewer than 48 bytes.
    #[error("{path} has {length} bytes, and the entropy of a key is 48 bytes")]
    TooShort { path: String, length: usize },
    /// The file of entropy has more than 48 bytes.
    #[error("{path} has more than 48 bytes, and the entropy of a key is 48 bytes")]
    TooLong { path: String },
    /// The path of the key file ends in no name.
    #[error("{path} names no file")]
    NoName { path: String },
    /// What stands at the path is a folder, a link, a device or a pipe, which no key replaces.
    #[error("{path} is no plain file, and is left as it is")]
    InTheWay { path: String },
    /// At the path stands an old key that was kept before, and isn't replaced by another one.
    #[error("{path} is an old key that was kept before: move it elsewhere first")]
    OldStands { path: String },
    /// Another process uses the key at the path, or its lock can't be had.
    #[error(transparent)]
    Lock(#[from] LockFault),
    /// The folder of the key can't be opened, locked, listed or synced.
    #[error("the folder {path}: {reason}")]
    Folder { path: String, reason: io::Error },
    /// The file of the key or of the public key can't be written, or what stood there not be
    /// replaced.
    #[error("writing {path}: {reason}")]
    Unwritten { path: String, reason: io::Error },
    /// Memory is refused.
    #[error("out of memory")]
    NoMemory,
}

impl KeygenFault {
    /// Returns `Unread` of a path.
    pub fn unread(alloc: Global, path: &str, reason: io::Error) -> KeygenFault {
        match String::from_str(alloc, path) {
            Ok(path) => KeygenFault::Unread { path, reason },
            Err(_) => KeygenFault::NoMemory,
        }
    }

    /// Returns `Folder` of a path.
    pub fn folder(alloc: Global, path: &str, reason: io::Error) -> KeygenFault {
        match String::from_str(alloc, path) {
            Ok(path) => KeygenFault::Folder { path, reason },
            Err(_) => KeygenFault::NoMemory,
        }
    }

    /// Returns `Unwritten` of a path.
    pub fn unwritten(alloc: Global, path: &str, reason: io::Error) -> KeygenFault {
        match String::from_str(alloc, path) {
            Ok(path) => KeygenFault::Unwritten { path, reason },
            Err(_) => KeygenFault::NoMemory,
        }
    }
}

impl From<AllocError> for KeygenFault {
    ghost from_gives = { λ _ e. e ≡ NoMemory };

    fn from(_refused: AllocError) -> KeygenFault {
        KeygenFault::NoMemory
    }
}
