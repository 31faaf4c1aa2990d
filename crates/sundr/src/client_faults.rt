// Why a client can't begin.
use std::alloc::AllocError;
use std::io;
use su_audit::KeyFault;
use su_bytes::Refusal;
use su_kept_key::KeptKeyFault;
use su_view::ViewRefusal;
use thiserror::Error;

/// Why a client can't begin.
#[derive(Debug, Drop, Error)]
pub(crate) enum ClientFault {
    /// There is no public key for the user.
    #[error("there is no public key of user {user}")]
    NoUser {
        user: u8,
    },
    /// The user's key can't be used.
    #[error("{0}")]
    Key(KeptKeyFault),
    /// The key is no longer that of the user, who has this one now.
    #[error("{path} is no longer the key of user {user}, who has this one now: {present}")]
    OldKey {
        path: String,
        user: u8,
        present: String,
    },
    /// A public key can't be read.
    #[error("{0}")]
    PublicKey(KeyFault),
    /// A call that the client begins with is refused.
    #[error("{0}")]
    Refused(Refusal),
    /// The log can't be read.
    #[error("reading {path}: {reason}")]
    UnreadLog {
        path: String,
        reason: io::Error,
    },
    /// The commit of that number of the log, from 1, is refused.
    #[error("commit {number} of the log is refused: {refusal}")]
    RefusedLog {
        number: u64,
        refusal: ViewRefusal,
    },
    /// There is no server on the port.
    #[error("connecting to port {port}: {reason}")]
    Unlinked {
        port: u16,
        reason: io::Error,
    },
    /// The link failed before the script began.
    #[error("the link to the server failed")]
    LinkFailed,
    /// Memory is refused.
    #[error("out of memory")]
    NoMemory,
}

impl From<AllocError> for ClientFault {
    fn from(_refused: AllocError) -> ClientFault {
        ClientFault::NoMemory
    }
}

impl From<KeptKeyFault> for ClientFault {
    fn from(fault: KeptKeyFault) -> ClientFault {
        ClientFault::Key(fault)
    }
}

impl From<KeyFault> for ClientFault {
    fn from(fault: KeyFault) -> ClientFault {
        ClientFault::PublicKey(fault)
    }
}

impl From<Refusal> for ClientFault {
    fn from(refusal: Refusal) -> ClientFault {
        ClientFault::Refused(refusal)
    }
}
