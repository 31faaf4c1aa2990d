// What is told of a change that was prepared.
use su_bytes::{Digest, Group, Principal};

/// What is told of a change that stands ready, of the history and the tree with it.
#[derive(Debug, Drop)]
pub struct Prepared {
    /// The number of its entry, from 1.
    pub number: u64,
    /// The version numbers of the users of the roster, and then of its groups.
    pub versions: Vec<(Principal, u64)>,
    /// The i-handle of its author.
    pub author_handle: Digest,
    /// The groups that it carries, ascending, with their i-handles.
    pub groups: Vec<(Group, Digest)>,
}
