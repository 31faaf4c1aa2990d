// What a history keeps of a change.
ghost use Rattle.std.specs.Prelude.{◌≡◌, IfOk};
ghost use Rattle.su_desk.specs.Filling.{filling};
ghost use Rattle.su_desk.specs.History.{undoes};
ghost use Rattle.su_desk.specs.KeptChange.{whole};
ghost use Rattle.su_desk.specs.KeptEntry.{is_operation, undone, without_bytes, written};

use crate::fillings::Filling;
use crate::kept_batches::KeptBatch;
use std::alloc::{AllocError, Global};
use su_bytes::KEY_LENGTH;
use su_op::Change;

/// A change as a history keeps it, in few bytes. (A key is in a box, as each other change would have
/// room for one.)
#[derive(Drop)]
pub enum KeptChange {
    Do(KeptBatch),
    Undo(u64),
    Rekey(Box<[u8; KEY_LENGTH]>),
}

impl KeptChange {
    /// Keeps a change. Fails only where there is no room.
    pub fn new(alloc: Global, change: &Change) -> Result<KeptChange, AllocError>
        ensures { IfOk result (λ kept. whole kept ≡ change.now) }
    {
        match change {
            Change::Do(batch) => Ok(KeptChange::Do(KeptBatch::new(alloc, batch)?)),
            Change::Undo(number) => Ok(KeptChange::Undo(*number)),
            Change::Rekey(key) => Ok(KeptChange::Rekey(Box::new(alloc, *key)?)),
        }
    }

    /// Returns the change, with no bytes in its writes. Fails only where there is no room.
    pub(crate) fn without_bytes(&self, alloc: Global) -> Result<Change, AllocError>
        ensures { IfOk result (λ change. change ≡ without_bytes (whole self.now)) }
    {
        match self {
            KeptChange::Do(batch) => Ok(Change::Do(batch.without_bytes(alloc)?)),
            KeptChange::Undo(number) => Ok(Change::Undo(*number)),
            KeptChange::Rekey(key) => Ok(Change::Rekey(**key)),
        }
    }

    /// Returns how many bytes the change writes; `u64::MAX` where several of its operations write more.
    pub(crate) fn written(&self) -> u64
        ensures { result ≡ written (whole self.now) }
    {
        match self {
            KeptChange::Do(batch) => batch.written(),
            _ => 0,
        }
    }

    /// Returns what the change does to the bytes of a file, where it is one operation.
    pub(crate) fn filling(&self) -> Filling
        ensures { result ≡ filling (whole self.now) }
    {
        match self {
            KeptChange::Do(batch) => batch.filling(),
            _ => Filling::Neither,
        }
    }

    /// Returns the number of the entry that the change undoes, if it is an undo.
    pub(crate) fn undone(&self) -> Option<u64>
        ensures { result ≡ undone (whole self.now) }
    {
        match self {
            KeptChange::Undo(number) => Some(*number),
            _ => None,
        }
    }

    /// Tells whether the change is the undo of that entry.
    pub(crate) fn undoes(&self, number: u64) -> bool
        ensures { result ≡ undoes number (whole self.now) }
    {
        match self {
            KeptChange::Undo(undone) => number == *undone,
            _ => false,
        }
    }

    /// Tells whether the change is operations, and no undo or rekey.
    pub(crate) fn is_operation(&self) -> bool
        ensures { result ≡ is_operation (whole self.now) }
    {
        matches!(self, KeptChange::Do(_))
    }
}
