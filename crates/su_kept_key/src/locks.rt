// The lock of a key: PATH.lock, by which processes take turns.
ghost use Rattle.std.specs.Prelude.{◌≡◌};
ghost use Rattle.su_kept_key.specs.declared.locks.LockFault.TheVariants.{NoMemory};

use crate::files::PRIVATE;
use std::alloc::{AllocError, Global};
use std::fs::{File, OpenOptions, TryLockError};
use std::io;
use std::os::unix::fs::OpenOptionsExt;
use thiserror::Error;

/// Why a key can't be locked.
#[derive(Debug, Drop, Error)]
pub enum LockFault {
    /// Another process uses the key.
    #[error("another process uses the key {path}")]
    InUse { path: String },
    /// The file beside the key, by which processes take turns, can't be made or locked.
    #[error("locking {path}: {reason}")]
    Unlocked { path: String, reason: io::Error },
    /// Memory is refused.
    #[error("out of memory")]
    NoMemory,
}

impl LockFault {
    /// Returns `Unlocked` of a path.
    pub fn unlocked(alloc: Global, path: &str, reason: io::Error) -> LockFault {
        match String::from_str(alloc, path) {
            Ok(path) => LockFault::Unlocked { path, reason },
            Err(_) => LockFault::NoMemory,
        }
    }
}

impl From<AllocError> for LockFault {
    ghost from_gives = { λ _ e. e ≡ NoMemory };

    fn from(_refused: AllocError) -> LockFault {
        LockFault::NoMemory
    }
}

/// Locks the key of the key file at a path for as long as the file that is returned is open. Nothing
/// is waited for: `InUse` where another process has locked it, or this one by an earlier call;
/// `Unlocked` where `PATH.lock`, which is made if need be and stays, can't be made or locked;
/// `NoMemory`. Whether a key file stands at the path isn't looked at.
pub fn lock_key(rt: &HostRuntime, path: &str) -> Result<File, LockFault> {
    // The key's own file can't be what is locked: each signature puts another one in its place, and
    // the lock would stay with the old one.
    let alloc = rt.alloc();
    let lock_path = format!(in alloc; "{path}.lock")?;
    let opened = OpenOptions::new()
        .write(true)
        .create(true)
        .mode(PRIVATE)
        .open(rt, lock_path.as_str());
    let lock = match opened {
        Ok(lock) => lock,
        Err(reason) => return Err(LockFault::unlocked(alloc, lock_path.as_str(), reason)),
    };
    match lock.try_lock() {
        Ok(()) => Ok(lock),
        Err(TryLockError::WouldBlock) => Err(LockFault::InUse {
            path: String::from_str(alloc, path)?,
        }),
        Err(TryLockError::Error(reason)) => {
            Err(LockFault::unlocked(alloc, lock_path.as_str(), reason))
        }
    }
}
