// A new file or directory.
use su_bytes::{FileId, Inum, Kind, Name};

/// Makes an empty file or directory, and gives it a name. A user's file stands at its own number,
/// which is `body` then; a group file at any number of the author's that is free, and its group's
/// pointer points there.
#[derive(Clone, Debug, Drop)]
pub struct Create {
    /// The directory that gets the name.
    pub dir: FileId,
    pub name: Name,
    /// The file id of what is made.
    pub file: FileId,
    /// The number in the author's i-table at which it stands.
    pub body: Inum,
    pub kind: Kind,
}
