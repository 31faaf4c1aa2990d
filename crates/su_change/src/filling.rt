// How many operations an item has room for.
ghost use Rattle.std.specs.Prelude.{◌≡◌, ◌+◌, ◌*◌, ◌≤◌, ◌↔◌, length, IfSome, IsTrue, MatchOption};
ghost use Rattle.su_change.specs.Batch.{most_operations};
ghost use Rattle.su_change.specs.Filling.{HasRoom, IsLongestHead};
ghost use Rattle.su_change.specs.Operation.{CanBeSpelled, op_bytes};

use crate::batch::MOST_OPERATIONS;
use crate::decoder::LONGEST_ITEM;
use crate::operation;
use su_op::Op;

/// Returns how many of the first operations one item has room for: the longest head of the list that
/// has an item as a batch, or 0 where not even the first operation has one.
pub fn longest_head(operations: &[Op]) -> usize
    ensures { IsLongestHead operations.now result }
{
    let mut bytes = 0;
    for (count, next) in operations.iter().enumerate() {
        let Some(more) = bytes_with(count, bytes, next) else {
            return count;
        };
        bytes = more;
    }
    operations.len()
}

/// Returns how many bytes the spellings of so many operations and the next one have, if an item has
/// room for them all.
fn bytes_with(count: usize, bytes: usize, next: &Op) -> Option<usize>
    requires count { count ≤ most_operations }
    requires bytes { bytes ≤ 65_551 * count }
    ensures fits { MatchOption result
        (CanBeSpelled next.now → HasRoom (count + 1) (bytes + length (op_bytes next.now)) → ⊥)
        (λ all. CanBeSpelled next.now × (all ≡ bytes + length (op_bytes next.now))
        × HasRoom (count + 1) all) }
    ensures few { IfSome result (λ all. all ≤ 65_551 * (count + 1)) }
{
    let Ok(size) = operation::size(next) else {
        return None;
    };
    let all = bytes + size;
    if has_room(count + 1, all) {
        Some(all)
    } else {
        None
    }
}

/// Tells whether an item has room for so many operations, whose spellings have so many bytes.
fn has_room(count: usize, bytes: usize) -> bool
    ensures { IsTrue result ↔ HasRoom count bytes }
{
    count == 1 || (count <= MOST_OPERATIONS && bytes <= LONGEST_ITEM - 4)
}
