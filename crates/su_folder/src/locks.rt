// The lock of a state folder, by which one process at a time works in it.
use crate::faults::{FolderFault, Holder};
use crate::files::PRIVATE;
use std::fs::{File, OpenOptions, TryLockError};
use std::io::{Read, Write};
use std::os::unix::fs::OpenOptionsExt;
use std::{io, process, str};

/// Most digits of a process's number.
const MOST_DIGITS: u64 = 10;

/// Locks the state folder of a directory for as long as the file that is returned is open, and writes
/// the number of this process into it. Nothing is waited for: `InUse` where another process has
/// locked it, or this one by an earlier call; `Unwritten` where it can't be locked or written.
pub(crate) fn lock_folder(
    rt: &HostRuntime,
    directory: &str,
    folder: &str,
) -> Result<File, FolderFault> {
    let alloc = rt.alloc();
    let path = format!(in alloc; "{folder}/lock")?;
    let opened = OpenOptions::new()
        .read(true)
        .write(true)
        .create(true)
        .mode(PRIVATE)
        .open(rt, path.as_str());
    let mut lock = match opened {
        Ok(lock) => lock,
        Err(reason) => return Err(FolderFault::unwritten(alloc, path.as_str(), reason)),
    };
    match lock.try_lock() {
        Ok(()) => {}
        Err(TryLockError::WouldBlock) => {
            return Err(FolderFault::InUse {
                path: String::from_str(alloc, directory)?,
                holder: holder_in(rt, lock),
            });
        }
        Err(TryLockError::Error(reason)) => {
            return Err(FolderFault::unwritten(alloc, path.as_str(), reason));
        }
    }
    match write_number(&mut lock, process::id(rt.process())) {
        Ok(()) => Ok(lock),
        Err(reason) => Err(FolderFault::unwritten(alloc, path.as_str(), reason)),
    }
}

/// Writes the number of a process in the place of what stands in a lock.
fn write_number(lock: &mut File, number: u32) -> io::Result<()> {
    lock.set_len(0)?;
    writeln!(lock, "{number}")
}

/// Reads who has locked a lock, where that stands in it.
fn holder_in(rt: &HostRuntime, lock: File) -> Holder {
    let mut digits = Vec::new(rt.alloc());
    let process = match lock.take(MOST_DIGITS + 1).read_to_end(&mut digits) {
        Ok(_) => number_of(&digits),
        Err(_) => None,
    };
    Holder { process }
}

/// Reads a number on a line.
fn number_of(digits: &[u8]) -> Option<u32> {
    match str::from_utf8(digits) {
        Ok(digits) => digits.trim_end().parse::<u32>().ok(),
        Err(_) => None,
    }
}
