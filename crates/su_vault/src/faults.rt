// Why the files of a vault aren't gone on with.

/// Why the files of a vault aren't gone on with, though each can be read.
#[derive(Clone, Copy, Debug, PartialEq, Eq)]
pub enum VolumeFault {
    /// Memory is refused.
    NoMemory,
    /// A file that was made keeps something.
    Foreign,
    /// The record of an index isn't there, or has another digest.
    DamagedRecord(u32),
    /// The book has another record than the file under this index.
    OtherRecord(u32),
}
