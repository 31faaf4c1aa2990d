// How the operations of a command are cut into parts, each of which is committed as one change.
ghost use Rattle.std.specs.Prelude.{◌≡◌, ◌≤◌, [], ◌++◌, length, IfErr, IfOk, MatchOption};
ghost use Rattle.su_bytes.specs.declared.refusals.Refusal.TheVariants.{NoMemory};
ghost use Rattle.su_client_script.specs.Parts.{IsCut, IsFirstPart};

use std::alloc::Global;
use su_bytes::Refusal;
use su_change::longest_head;
use su_op::{Batch, Op};

/// Cuts operations into parts, in their order: each of one operation, or batches of as many as one
/// item has room for. An operation that no item has room for is a part by itself. Fails only with
/// `NoMemory`.
pub(crate) fn cut(alloc: Global, operations: Vec<Op>, batches: bool) -> Result<Vec<Batch>, Refusal>
    ensures cut { IfOk result (λ parts. IsCut batches operations.items parts.items) }
    ensures refused { IfErr result (λ e. e ≡ NoMemory) }
{
    let mut parts = Vec::new(alloc);
    let mut left = operations;
    while let Some((part, behind)) = cut_first(left, batches)? {
        parts.push(part)?;
        left = behind;
    }
    Ok(parts)
}

/// Cuts off the first part of operations. Returns it, and the operations behind it; `None` where
/// there are no operations. Fails only with `NoMemory`.
fn cut_first(mut operations: Vec<Op>, batches: bool) -> Result<Option<(Batch, Vec<Op>)>, Refusal>
    ensures first { IfOk result (λ first. MatchOption first (operations.items ≡ [])
        (λ cut. IsFirstPart batches operations.items (length cut.0)
        × (operations.items ≡ cut.0 ++ cut.1.items))) }
    ensures refused { IfErr result (λ e. e ≡ NoMemory) }
{
    if operations.is_empty() {
        return Ok(None);
    }
    let count = first_count(operations.as_slice(), batches);
    let behind = operations.split_off(count)?;
    match Batch::of_operations(operations) {
        Some(part) => Ok(Some((part, behind))),
        None => unreachable!(),
    }
}

/// Returns how many of the operations, of which there are some, their first part has.
fn first_count(operations: &[Op], batches: bool) -> usize
    requires { 1 ≤ length operations.now }
    ensures first { IsFirstPart batches operations.now result }
    ensures few { result ≤ length operations.now }
    ensures some { 1 ≤ result }
{
    if batches {
        longest_head(operations).max(1)
    } else {
        1
    }
}
