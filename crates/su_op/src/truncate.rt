// A file gets another size.
use su_bytes::FileId;

/// Gives a file another size: it is cut, or has zeros behind it.
#[derive(Clone, Debug, Drop)]
pub struct Truncate {
    pub file: FileId,
    /// How many bytes the file has afterwards.
    pub size: u32,
}
