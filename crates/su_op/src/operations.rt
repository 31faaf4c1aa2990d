// The operations by cases.
ghost use Rattle.std.specs.Prelude.{◌≡◌, [], ◌∷◌, option_copied};
ghost use Rattle.su_op.specs.Action.{oldest_format, change_format, named_key, operation_of_change, is_many, bytes_by, op_without_bytes};
ghost use Rattle.su_op.specs.declared.operations.Change.TheVariants.{Do};

use crate::batches::Batch;
use crate::create::Create;
use crate::drop_body::DropBody;
use crate::link::Link;
use crate::rename::Rename;
use crate::take::Take;
use crate::truncate::Truncate;
use crate::unlink::Unlink;
use crate::write::Write;
use std::alloc::Global;
use su_bytes::{Format, KEY_LENGTH};

/// An operation on the tree.
#[derive(Clone, Debug, Drop)]
pub enum Op {
    Create(Create),
    Unlink(Unlink),
    Write(Write),
    Truncate(Truncate),
    Take(Take),
    Link(Link),
    Rename(Rename),
    Drop(DropBody),
}

/// What an entry of the history does: operations one after another, mostly one; the undo of the
/// entry with that number; or that its author signs with another key from the next entry on.
#[derive(Clone, Debug, Drop)]
pub enum Change {
    Do(Batch),
    Undo(u64),
    Rekey([u8; KEY_LENGTH]),
}

impl Op {
    /// Returns the oldest format that has the operation.
    pub fn oldest_format(&self) -> Format
        ensures { result ≡ oldest_format self.now }
    {
        match self {
            Op::Drop(_) => Format::V2,
            _ => Format::V1,
        }
    }

    /// Returns how many bytes it writes.
    pub fn written(&self) -> u64
        ensures { result ≡ bytes_by self.now }
    {
        match self {
            Op::Write(write) => write.bytes.len() as u64,
            _ => 0,
        }
    }

    /// Takes its bytes out, where it is a write. Takes no memory.
    pub(crate) fn leave_bytes(&mut self, alloc: Global)
        ensures { self.new ≡ op_without_bytes self.old }
    {
        if let Op::Write(write) = self {
            write.bytes = Vec::new(alloc);
        }
    }
}

impl Change {
    /// Returns the oldest format that has the change. Each format has an undo.
    pub fn oldest_format(&self) -> Format
        ensures { result ≡ change_format self.now }
    {
        match self {
            Change::Do(batch) => batch.oldest_format(),
            Change::Undo(_) => Format::V1,
            Change::Rekey(_) => Format::V3,
        }
    }

    /// Makes the change that is one operation. Takes no memory.
    pub fn of(alloc: Global, operation: Op) -> Change
        ensures { result ≡ Do (operation ∷ []) }
    {
        Change::Do(Batch::of(alloc, operation))
    }

    /// Tells whether it is a batch of more than one operation.
    pub fn is_many(&self) -> bool
        ensures { result ≡ is_many self.now }
    {
        match self {
            Change::Do(batch) => batch.count() > 1,
            _ => false,
        }
    }

    /// Returns the operation, where the change is just one.
    pub fn operation(&self) -> Option<&Op>
        ensures { option_copied result ≡ operation_of_change self.now }
    {
        match self {
            Change::Do(batch) => batch.only(),
            _ => None,
        }
    }

    /// Returns the key that the change names as its author's next one, if it names one.
    pub fn named_key(&self) -> Option<[u8; KEY_LENGTH]>
        ensures { result ≡ named_key self.now }
    {
        match self {
            Change::Rekey(key) => Some(*key),
            _ => None,
        }
    }
}
