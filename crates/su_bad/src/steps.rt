// The steps of a script.
use su_bytes::Digest;
use su_message::Bytes;

/// A way to misbehave. Records are numbered from 1 on; a step that names one which isn't there
/// changes nothing.
#[derive(Drop)]
pub enum Step {
    /// Shows so many records fewer.
    RollBack(usize),
    /// Shows these in the place of the record of this number and of those behind it.
    Fork(usize, Vec<Option<Bytes>>),
    /// Exchanges the records of two numbers.
    Swap(usize, usize),
    /// Says that there is no record of this number.
    Drop(usize),
    /// Changes the last bit of the record of this number, which is one of its signature.
    Forge(usize),
    /// Gives other bytes for the item of this digest.
    WrongBlock(Digest),
    /// Replies to each request what fits none such, so that a link has failed for who asks.
    Mute,
}
