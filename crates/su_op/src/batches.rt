// The operations of one entry.
ghost use Rattle.std.specs.Prelude.{◌≡◌, ◌++◌, [], ◌∷◌, IfOk, IfErr, OnOk, OnErr, length, map, option_copied};
ghost use Rattle.su_bytes.specs.declared.refusals.Refusal.TheVariants.{NoMemory};
ghost use Rattle.su_op.specs.Action.{batch_bytes, batch_format, only_of, op_without_bytes, some_batch};

use crate::operations::Op;
use std::alloc::{AllocError, Global};
use std::marker::Model;
use su_bytes::{Format, Refusal};

/// Operations of one author, one after another, that are signed, made and undone together: one or
/// more. Its model is the list of them.
#[derive(Debug, Drop)]
pub struct Batch {
    first: Op,
    more: Vec<Op>,
}

impl Model for Batch {
    ghost use Rattle.std.specs.Prelude.{List, ◌∷◌};
    ghost use Rattle.su_op.specs.declared.operations.Op.{Op};

    ghost Value = { List Op };

    ghost view = { λ b. b.first ∷ b.more.items };
}

impl Clone for Batch {
    ghost is_clone = { λ batch copy. copy ≡ batch };

    fn clone(&self) -> Result<Batch, AllocError> {
        let first = self.first.clone()?;
        let more = self.more.clone()?;
        Ok(Batch { first, more })
    }
}

impl Batch {
    /// Makes a batch of one operation. Takes no memory.
    pub fn of(alloc: Global, operation: Op) -> Batch
        ensures { result ≡ operation ∷ [] }
    {
        Batch {
            first: operation,
            more: Vec::new(alloc),
        }
    }

    /// Makes a batch of these operations, if there are any. Takes no memory.
    pub fn of_operations(mut operations: Vec<Op>) -> Option<Batch>
        ensures { result ≡ some_batch operations.items }
    {
        if operations.is_empty() {
            return None;
        }
        let first = operations.remove(0);
        Some(Batch {
            first,
            more: operations,
        })
    }

    /// Appends an operation. Fails only with `NoMemory`, and then changes nothing.
    pub fn push(&mut self, operation: Op) -> Result<(), Refusal>
        ensures ok { OnOk result (self.new ≡ self.old ++ operation ∷ []) }
        ensures refused { IfErr result (λ e. e ≡ NoMemory) }
        ensures err { OnErr result (self.new ≡ self.old) }
    {
        self.more.push(operation)?;
        Ok(())
    }

    /// Returns how many operations it has.
    pub fn count(&self) -> usize
        ensures { result ≡ length self.now }
    {
        self.more.len() + 1
    }

    /// Returns the first operation, and those behind it.
    pub fn parts(&self) -> (&Op, &[Op])
        ensures { self.now ≡ result.0.now ∷ result.1.now }
    {
        (&self.first, self.more.as_slice())
    }

    /// Returns the operation, where it is the only one.
    pub fn only(&self) -> Option<&Op>
        ensures { option_copied result ≡ only_of self.now }
    {
        if self.more.is_empty() {
            Some(&self.first)
        } else {
            None
        }
    }

    /// Returns how many bytes its operations write; `u64::MAX` where several write more.
    pub fn written(&self) -> u64
        ensures { result ≡ batch_bytes self.now }
    {
        let mut bytes = self.first.written();
        for operation in &self.more {
            bytes = bytes.saturating_add(operation.written());
        }
        bytes
    }

    /// Takes the bytes out of its writes. Takes no memory.
    pub fn leave_bytes(&mut self, alloc: Global)
        ensures { self.new ≡ map op_without_bytes self.old }
    {
        self.first.leave_bytes(alloc);
        for operation in self.more.iter_mut() {
            operation.leave_bytes(alloc);
        }
    }

    /// Returns the oldest format that has such a batch: of one operation, that of the operation.
    pub fn oldest_format(&self) -> Format
        ensures { result ≡ batch_format self.now }
    {
        match self.only() {
            Some(operation) => operation.oldest_format(),
            None => Format::V4,
        }
    }
}
