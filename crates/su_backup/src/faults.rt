// Why a copy isn't made.
use su_bytes::Refusal;
use thiserror::Error;

/// Why a copy of a server's records isn't made, or ends before all of them are copied.
#[derive(Debug, Drop, Error)]
pub enum BackupFault {
    /// The link failed where this record, or the item of its change, was asked for.
    #[error("the link to the server failed at record {number}")]
    LinkFailed { number: u64 },
    /// The last record of the copy, which has this number, isn't the server's, so the server's list
    /// is another one.
    #[error("record {number} of the copy is not the server's, which shows another list")]
    OtherRecord { number: u64 },
    /// The item of this record's change has another digest.
    #[error("the server gave another item than that of record {number}")]
    WrongItem { number: u64 },
    /// This record of the server is none that comes next for the roster.
    #[error("record {number} of the server is refused: {refusal}")]
    Refused { number: u64, refusal: Refusal },
    /// This record couldn't be kept.
    #[error("record {number} could not be kept")]
    NotKept { number: u64 },
    /// Memory is refused, here or by the server.
    #[error("out of memory")]
    NoMemory,
}

impl BackupFault {
    /// Returns why the server couldn't be asked for what belongs to a record.
    pub(crate) fn asking(number: u64, refusal: Refusal) -> BackupFault {
        match refusal {
            Refusal::NoMemory => BackupFault::NoMemory,
            Refusal::WrongBlock => BackupFault::WrongItem { number },
            _ => BackupFault::LinkFailed { number },
        }
    }

    /// Returns why a book didn't take a record.
    pub(crate) fn taking(number: u64, refusal: Refusal) -> BackupFault {
        match refusal {
            Refusal::NoMemory => BackupFault::NoMemory,
            Refusal::SourceFailed => BackupFault::NotKept { number },
            refusal => BackupFault::Refused { number, refusal },
        }
    }
}
