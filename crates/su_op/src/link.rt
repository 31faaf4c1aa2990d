// A file gets a further name.
use su_bytes::{FileId, Name};

/// Gives a file a further name. Each name counts as a link; a directory has no name but its own.
#[derive(Clone, Debug, Drop)]
pub struct Link {
    /// The directory that gets the name.
    pub dir: FileId,
    pub name: Name,
    /// The file that the name leads to.
    pub file: FileId,
}
