// Taking a name away, and the file with its last one.
use su_bytes::{FileId, Name};

/// Takes a name out of a directory; with the last name the file goes, and a directory only if it is
/// empty.
#[derive(Clone, Debug, Drop)]
pub struct Unlink {
    /// The directory that has the name.
    pub dir: FileId,
    pub name: Name,
    /// The file that the name leads to.
    pub file: FileId,
}
