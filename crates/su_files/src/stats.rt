// What is told of a file without its names or bytes.
use su_bytes::{Kind, User};

/// What a file is, without its names or bytes.
#[derive(Clone, Copy, Debug, PartialEq, Eq)]
pub struct Stat {
    /// In whose i-table it stands: who may change it at once, where others take it over first.
    pub holder: User,
    pub kind: Kind,
    /// How many bytes it has: 0 of a directory.
    pub size: u32,
    /// How many names lead to it: 1 to 255.
    pub links: u8,
}
