// What takes a change back.
use su_bytes::{KEY_LENGTH, Principal};
use su_live::LiveOperation;
use su_part_inverse::{Inverse, KeptInverse};

/// What takes the last entry of a desk back: the version numbers before it, and the rest by the kind
/// of its change.
#[derive(Drop)]
pub(crate) struct Tried {
    pub(crate) versions: Vec<(Principal, u64)>,
    pub(crate) means: Means,
}

/// What takes a change back.
#[derive(Drop)]
pub(crate) enum Means {
    /// An operation: what is kept with it.
    Kept,
    /// An undo: what it undid.
    Held(Undone),
    /// A rekey: the key that it named.
    Named([u8; KEY_LENGTH]),
}

/// An operation that was undone: what was kept of it, and what the cells that it wrote held until
/// then.
#[derive(Drop)]
pub(crate) struct Undone {
    pub(crate) operation: LiveOperation<KeptInverse>,
    pub(crate) held: Inverse,
}
