// What is told of an inode beside its content.
use su_bytes::{FileId, Kind};

/// What is told of an inode beside its names or bytes.
#[derive(Clone, Copy, Debug, PartialEq, Eq)]
pub struct InodeHead {
    /// The file that it was made for.
    pub home: FileId,
    pub kind: Kind,
    /// How many names lead to it.
    pub links: u8,
    /// The bytes of a file; of a directory 0.
    pub size: u32,
}
