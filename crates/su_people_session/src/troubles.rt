// Why a command of people isn't done.
use std::alloc::{AllocError, AllocFailed};
use std::io;
use su_bytes::{Refusal, User};
use su_folder::FolderFault;
use su_kept_key::KeptKeyFault;
use su_keygen::KeygenFault;
use su_person::Fault;
use su_view::ViewRefusal;
use thiserror::Error;

/// Why a command of people isn't done.
#[derive(Debug, Drop, Error)]
pub enum Trouble {
    /// The state folder can't be used.
    #[error("{0}")]
    Folder(FolderFault),
    /// The user's key can't be used.
    #[error("{0}")]
    Key(KeptKeyFault),
    /// A next key can't be made.
    #[error("{0}")]
    NextKey(KeygenFault),
    /// The key file has another key than the one that the user has by the commits that are held.
    #[error("{path} has another key than yours: the one that you have now begins with {present}")]
    OtherKey {
        /// The key file's path.
        path: String,
        /// The first digits of the key that the user has.
        present: String,
    },
    /// A local file or folder can't be read or written.
    #[error("{path}: {reason}")]
    Local {
        /// Its path.
        path: String,
        /// What the system says of it.
        reason: io::Error,
    },
    /// The commit of that number of the folder's own log is refused.
    #[error("commit {number} of .sundr/log is refused ({refusal}): the file is damaged, or of \
another team")]
    Log {
        /// The commit's number.
        number: u64,
        /// Why it is refused.
        refusal: ViewRefusal,
    },
    /// The folder's own log can't be read.
    #[error("reading .sundr/log: {0}")]
    UnreadLog(io::Error),
    /// There is no server.
    #[error("connecting to {server}: {reason}")]
    Unlinked {
        /// Where it should listen: `HOST:PORT`.
        server: String,
        /// What the system says of it.
        reason: io::Error,
    },
    /// The answer can't be written.
    #[error("writing the answer: {0}")]
    Unwritten(io::Error),
    /// The client, the tree or the server refuses it.
    #[error("{refusal}")]
    Refused {
        /// The path of the store that it is about, if it is about one.
        path: Option<Vec<u8>>,
        /// Why it is refused.
        refusal: ViewRefusal,
        /// Whether commits of others were being taken.
        takes: bool,
    },
    /// Another user changed the file with the commit of that number, which isn't seen yet.
    #[error("changed with commit {number}")]
    Changed {
        /// The path of the file.
        path: Vec<u8>,
        /// The commit's number.
        number: u64,
        /// The user who made it.
        author: User,
    },
    /// Something is wrong that a sentence tells.
    #[error("{0}")]
    Told(String),
    /// All was told before.
    #[error("not all was done")]
    Partly,
    /// Memory is refused.
    #[error("out of memory")]
    NoMemory,
}

impl Trouble {
    /// Returns that something is refused at a path: `Refused`, `Changed`, or `Partly` of what the
    /// program told already; `NoMemory` where there is none for a copy of the path.
    pub fn at(path: &[u8], alloc: std::alloc::Global, fault: Fault) -> Trouble {
        let Ok(path) = Vec::from_slice(alloc, path) else {
            return Trouble::NoMemory;
        };
        match fault {
            Fault::Refused(refusal) => Trouble::Refused {
                path: Some(path),
                refusal,
                takes: false,
            },
            Fault::Shown(refusal) => Trouble::shown(refusal),
            Fault::Changed { number, author } => Trouble::Changed {
                path,
                number,
                author,
            },
            Fault::Unkept => Trouble::Partly,
        }
    }

    /// Returns that what the server shows is refused, or that it doesn't grant the turn.
    pub fn shown(refusal: ViewRefusal) -> Trouble {
        Trouble::Refused {
            path: None,
            refusal,
            takes: true,
        }
    }

    /// Returns that a local file or folder can't be read or written: `Local`, or `NoMemory` where
    /// there is none for a copy of the path.
    pub fn local(path: &str, alloc: std::alloc::Global, reason: io::Error) -> Trouble {
        match String::from_str(alloc, path) {
            Ok(path) => Trouble::Local { path, reason },
            Err(_) => Trouble::NoMemory,
        }
    }

    /// Returns what a text tells: `Told`, or `NoMemory` where there was none for the text.
    pub fn told(text: Result<String, AllocError>) -> Trouble {
        match text {
            Ok(text) => Trouble::Told(text),
            Err(_) => Trouble::NoMemory,
        }
    }
}

impl From<AllocError> for Trouble {
    fn from(_refused: AllocError) -> Trouble {
        Trouble::NoMemory
    }
}

impl<V: Drop> From<AllocFailed<V>> for Trouble {
    fn from(_refused: AllocFailed<V>) -> Trouble {
        Trouble::NoMemory
    }
}

impl From<Refusal> for Trouble {
    fn from(refusal: Refusal) -> Trouble {
        Trouble::Refused {
            path: None,
            refusal: ViewRefusal::Plain(refusal),
            takes: false,
        }
    }
}

impl From<FolderFault> for Trouble {
    fn from(fault: FolderFault) -> Trouble {
        Trouble::Folder(fault)
    }
}

impl From<KeptKeyFault> for Trouble {
    fn from(fault: KeptKeyFault) -> Trouble {
        Trouble::Key(fault)
    }
}

impl From<Fault> for Trouble {
    fn from(fault: Fault) -> Trouble {
        match fault {
            Fault::Refused(refusal) => Trouble::Refused {
                path: None,
                refusal,
                takes: false,
            },
            Fault::Shown(refusal) => Trouble::shown(refusal),
            _ => Trouble::Partly,
        }
    }
}
