// A group file is taken over from the user who holds it.
use su_bytes::{FileId, Inum};

/// Takes a group file over: its whole inode is copied into the author's i-table, and the group's
/// pointer points there. The old inode stays where it stood, and no file id leads to it any more.
#[derive(Clone, Debug, Drop)]
pub struct Take {
    /// The group file that is taken over.
    pub file: FileId,
    /// The number in the author's i-table at which the copy stands.
    pub body: Inum,
}
