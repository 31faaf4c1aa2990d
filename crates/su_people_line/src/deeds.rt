// What people ask for.
use crate::servers::Server;

/// What a command line of people asks for: of the state folder that is named, or of the one that is
/// found upwards where none is. The answer is JSON where that is asked for.
#[derive(Debug, Drop)]
pub struct PeopleLine {
    /// The folder that has the state folder in it, by `--in`. None is named for `Init`, which has
    /// its own.
    pub folder: Option<String>,
    /// Whether the answer is JSON, which is asked for of `List`, `History`, `Show`, `Status` and
    /// `WhyBlocked` alone.
    pub json: bool,
    pub deed: Deed,
}

/// What is to be done. A path is one of the store, spelled as names are shown; the number of a
/// commit is from 1.
#[derive(Debug, Drop)]
pub enum Deed {
    /// Makes the state folder.
    Init(InitArgs),
    /// Writes local files and folders to the store.
    Put(PutArgs),
    /// Writes a file or a folder of the store to a local file or folder.
    Get(GetArgs),
    /// Tells the names of a folder, of the root where there is no path, in long lines or short.
    List {
        path: Option<String>,
        long: bool,
    },
    /// Writes the bytes of a file.
    Cat {
        path: String,
    },
    /// Makes folders, at least one, with those above that are lacking or without.
    MakeFolders {
        paths: Vec<String>,
        parents: bool,
    },
    /// Gives a file or a folder another name.
    Move {
        path: String,
        other: String,
    },
    /// Takes names away, at least one, folders with all that is in them or none of them.
    Remove {
        paths: Vec<String>,
        recursive: bool,
    },
    /// Gives a file one name more.
    Link {
        path: String,
        other: String,
    },
    /// Tells so many lines of the history, at least one, or all; of one path, or of the store.
    History {
        count: Option<u64>,
        path: Option<String>,
    },
    /// Tells all that is known of a commit.
    Show {
        number: u64,
    },
    /// Tells how a commit changed a file.
    Diff {
        number: u64,
    },
    /// Undoes the operations of the commits from the first to the last, which may be the same one.
    Undo {
        first: u64,
        last: u64,
    },
    /// Tells what blocks the undo of a commit's operation.
    WhyBlocked {
        number: u64,
    },
    /// Undoes a commit's operation, and before it those that block that.
    UndoWithBlockers {
        number: u64,
    },
    /// Tells the server, the last commits, and how many leaves are left.
    Status,
    /// Compares another user's head with the list.
    Compare(CompareArgs),
    /// Checks the whole log again.
    Verify,
    /// Goes on to a new key.
    Rekey,
    /// Tells where the server is, or takes another place for it.
    Where {
        server: Option<Server>,
    },
}

/// A new state folder in a folder, for a user with the key in a file, at a server of a team that
/// another file names.
#[derive(Debug, Drop)]
pub struct InitArgs {
    pub folder: String,
    pub server: Server,
    pub team: String,
    pub user: String,
    pub key: String,
}

/// Local files, at least one, and folders where it is recursive, that are written to a path of the
/// store: over what another changed since, too, where that is said; each file in a commit of its
/// own, or together; and not at all where it is a dry run.
#[derive(Debug, Drop)]
pub struct PutArgs {
    pub locals: Vec<String>,
    pub path: String,
    pub recursive: bool,
    pub over: bool,
    pub each: bool,
    pub dry_run: bool,
}

/// A path of the store, a folder where it is recursive, that is written to a local path: over what
/// was changed there since, too, where that is said.
#[derive(Debug, Drop)]
pub struct GetArgs {
    pub path: String,
    pub local: String,
    pub recursive: bool,
    pub over: bool,
}

/// A head that another user tells: how many commits his list has, from 0, and the front of its
/// digest, 1 to 8 groups of 4 bytes.
#[derive(Debug, Drop)]
pub struct CompareArgs {
    pub number: u64,
    pub front: Vec<u8>,
}
