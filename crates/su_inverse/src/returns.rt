// What is brought back to where it stood. This may take memory.
use su_bytes::{FileId, GroupFile, Name, Place};
use su_node::Inode;

/// Something that stood in an area.
#[derive(Drop)]
pub(crate) enum Return {
    Inode(Place, Inode),
    /// In the directory there the name led to the file.
    Name(Place, Name, FileId),
    /// The group file's pointer led there.
    Pointer(GroupFile, Place),
}
