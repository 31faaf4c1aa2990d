// What a history keeps of a batch.
ghost use Rattle.std.specs.Prelude.{◌≡◌, map, IfOk};
ghost use Rattle.su_desk.specs.Filling.{filling_of};
ghost use Rattle.su_op.specs.Action.{batch_bytes, only_of, op_without_bytes};

use crate::fillings::Filling;
use http_server::Log;
use std::alloc::{AllocError, Global};
use std::marker::Model;
use su_change::{outline, read_outline};
use su_op::Batch;

/// A batch as a history keeps it, in few bytes: all of it but the bytes that its writes have, which
/// no memory holds; how many these are is known. Its model is the whole batch.
#[derive(Drop)]
pub struct KeptBatch {
    /// The operations without those bytes.
    outline: Vec<u8>,
    /// How many bytes the batch writes.
    written: u64,
    /// What its operation does to the bytes of a file, where it is one.
    filling: Filling,
    /// The whole batch alone, which proofs read. (`Log` is the kit's list that no memory holds.)
    whole: Log<Batch, ()>,
}

impl Model for KeptBatch {
    ghost use Rattle.std.specs.Prelude.{List};
    ghost use Rattle.su_op.specs.declared.operations.Op.{Op};
    ghost use Rattle.su_desk.specs.KeptBatch.{first_in, IsKeptAs};

    ghost Value = { List Op };

    ghost view = { λ k. first_in k.whole.items };

    ghost invariant = { λ k. IsKeptAs k.outline.items k.written k.filling (first_in k.whole.items) };
}

impl KeptBatch {
    /// Keeps a batch. Fails only where there is no room.
    pub fn new(alloc: Global, batch: &Batch) -> Result<KeptBatch, AllocError>
        ensures { IfOk result (λ kept. kept ≡ batch.now) }
    {
        let outline = outline(alloc, batch)?;
        Ok(KeptBatch {
            outline,
            written: batch.written(),
            filling: Filling::of(batch),
            whole: Log::new().and(batch, &()),
        })
    }

    /// Returns the operations, with no bytes in their writes. Fails only where there is no room.
    pub(crate) fn without_bytes(&self, alloc: Global) -> Result<Batch, AllocError>
        ensures { IfOk result (λ batch. batch ≡ map op_without_bytes self.now) }
    {
        read_outline(alloc, self.outline.as_slice())
    }

    /// Returns how many bytes the batch writes; `u64::MAX` where several operations write more.
    pub(crate) fn written(&self) -> u64
        ensures { result ≡ batch_bytes self.now }
    {
        self.written
    }

    /// Returns what the operation does to the bytes of a file, where it is one.
    pub(crate) fn filling(&self) -> Filling
        ensures { result ≡ filling_of (only_of self.now) }
    {
        self.filling
    }
}
