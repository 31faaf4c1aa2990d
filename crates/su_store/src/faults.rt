// Why a file of the store can't be used.

use sqlite::{Error as SqlError, ErrorCode};
use std::alloc::{AllocError, AllocFailed, Global};
use su_bytes::Digest;
use thiserror::Error;

/// Why a file of the store can't be used, and what to do. `StoreFault` adds which file it is.
#[derive(Debug, Drop, Error)]
pub enum FileFault {
    /// Memory is refused.
    #[error("out of memory")]
    NoMemory,
    /// It is no SQLite file, or its pages or rows are damaged.
    #[error("no sound SQLite file: put a copy in its place, or name another folder")]
    Unsound,
    /// It is an SQLite file, but has other tables.
    #[error("an SQLite file of something else, which is left as it is: name another folder")]
    Foreign,
    /// Another process, or another handle of this one, has the file open.
    #[error("in use by another server or program: end that one first")]
    InUse,
    /// The file or its folder can't be opened, or as many files are open as may be.
    #[error("can't be opened: look at its permissions, its folder, and the limit of `ulimit -n`")]
    Unopened,
    /// The disk is full, or a limit on the size of files is met.
    #[error("no room is left on the disk: make room and start again; nothing acknowledged is lost")]
    DiskFull,
    /// A read, a write or a sync failed.
    #[error("{0}: look at the disk and start again; nothing acknowledged is lost")]
    Failed(SqlError),
    /// A record isn't where its number says.
    #[error("damaged at record {0}: put a copy of the file in its place")]
    DamagedRecord(u32),
    /// The book has another record than the file under this number.
    #[error("another record {0} than the book's: put a copy of the file in its place")]
    OtherRecord(u32),
    /// The bytes of a block have another digest.
    #[error("damaged at block {0}: put a copy of the file in its place")]
    DamagedBlock(Digest),
    /// The file has as many records as a file may have.
    #[error("full: begin another file")]
    Full,
    /// The file has more records than a file may have.
    #[error("longer than any that is made here: put the store's own file in its place")]
    TooLong,
    /// An earlier call failed, so the file has to be opened again.
    #[error("an earlier call has failed: open the file again")]
    Spent,
}

/// Which file of the store can't be used, and why.
#[derive(Debug, Drop, Error)]
#[error("{path}: {fault}")]
pub struct StoreFault {
    pub path: String,
    pub fault: FileFault,
}

impl FileFault {
    /// Names the file. Where memory is refused for the name, it stays empty.
    pub fn at(self, alloc: Global, path: &str) -> StoreFault {
        match String::from_str(alloc, path) {
            Ok(path) => StoreFault { path, fault: self },
            Err(_) => StoreFault {
                path: String::new(alloc),
                fault: FileFault::NoMemory,
            },
        }
    }
}

/// Tells the kinds apart that a person can do something about.
impl From<SqlError> for FileFault {
    fn from(error: SqlError) -> FileFault {
        match error {
            SqlError::SqliteFailure(ErrorCode::OutOfMemory) => FileFault::NoMemory,
            SqlError::SqliteFailure(ErrorCode::DiskFull) => FileFault::DiskFull,
            SqlError::SqliteFailure(ErrorCode::DatabaseBusy) => FileFault::InUse,
            SqlError::SqliteFailure(ErrorCode::CannotOpen) => FileFault::Unopened,
            SqlError::SqliteFailure(ErrorCode::NotADatabase | ErrorCode::DatabaseCorrupt) =>
                FileFault::Unsound,
            other => FileFault::Failed(other),
        }
    }
}

impl From<AllocError> for FileFault {
    fn from(_refused: AllocError) -> FileFault {
        FileFault::NoMemory
    }
}

impl<T: Drop> From<AllocFailed<T>> for FileFault {
    fn from(_refused: AllocFailed<T>) -> FileFault {
        FileFault::NoMemory
    }
}
