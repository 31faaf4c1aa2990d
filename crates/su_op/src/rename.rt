// A file gets another name.
use su_bytes::{FileId, Name};

/// Gives a file another name, in the directory that has it or in another one. A directory stays in
/// its directory.
#[derive(Clone, Debug, Drop)]
pub struct Rename {
    /// The directory that has the old name.
    pub from_: FileId,
    pub old_: Name,
    /// The directory that gets the new name.
    pub to_: FileId,
    pub new_: Name,
    /// The file that both names lead to.
    pub file: FileId,
}
