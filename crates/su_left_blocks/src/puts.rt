// Blocks whose items are put into a source.
ghost use Rattle.std.specs.Prelude.{◌≡◌, ◌⊎◌, ◌*◌, ◌≤◌, ℕ, List, length, true, Some, IfOk, IfErr, IsTrue, OnOk};
ghost use Rattle.sha2.specs.Sha256.{sha256};
ghost use Rattle.su_block.specs.Failure.{is_failure};
ghost use Rattle.su_block.specs.Item.{is_item};
ghost use Rattle.su_bytes.specs.declared.refusals.Refusal.TheVariants.{NoMemory, SourceFailed};
ghost use Rattle.su_node.specs.Digest.{block_item};
ghost use Rattle.su_node.specs.Field.{block};
ghost use Rattle.su_part_tree.specs.Putting.{Took};
ghost use Rattle.su_left_blocks.specs.Left.{FailedAtBlock, IsItemOf, digests_of};

use std::alloc::{AllocError, Global};
use su_block::BlockSource;
use su_bytes::{Digest, Refusal};
use su_node::BLOCK_SIZE;

/// Puts the items of the blocks of these bytes, in their order, and returns their digests. Refused
/// with `SourceFailed` where the source could not be asked, and with `NoMemory` where memory is
/// wanting.
pub fn put_blocks<S: BlockSource>(
    alloc: Global,
    bytes: &[u8],
    source: &mut S,
) -> Result<Vec<Digest>, Refusal>
    ensures digests { IfOk result (λ digests. digests.items ≡ digests_of bytes.now) }
    ensures put { OnOk result ((s : List ℕ) → IsItemOf bytes.now s
        → Took S.follows S.puts source.old source.new s) }
    // It may give these items as well from now on, and no other that it might not give before.
    ensures more { (s : List ℕ) → S.may_give source.new s
        → S.may_give source.old s ⊎ IsItemOf bytes.now s }
    // A failure of the source was about such an item.
    ensures failed { IfErr result (FailedAtBlock bytes.now (S.failed source.new)) }
    ensures refused { IfErr result (λ e. (e ≡ SourceFailed) ⊎ (e ≡ NoMemory)) }
    ensures follows { S.follows source.old source.new }
{
    let mut digests = Vec::new(alloc);
    for number in 0..bytes.len().div_ceil(BLOCK_SIZE) {
        let digest = put_block(alloc, block_at(number, bytes), source)?;
        digests.push(digest)?;
    }
    Ok(digests)
}

/// Returns the block of that number.
fn block_at(number: usize, bytes: &[u8]) -> &[u8]
    requires { BLOCK_SIZE * number ≤ length bytes.now }
    ensures { result.now ≡ block number bytes.now }
{
    let start = number * BLOCK_SIZE;
    let end_ = start + BLOCK_SIZE.min(bytes.len() - start);
    &bytes[start..end_]
}

/// Puts the item of a block, and returns its digest. Refused as `put_blocks` is.
fn put_block<S: BlockSource>(alloc: Global, block: &[u8], source: &mut S) -> Result<Digest, Refusal>
    requires { length block.now ≤ BLOCK_SIZE }
    ensures digest { IfOk result (λ digest. digest ≡ sha256 (block_item block.now)) }
    ensures put { OnOk result
        (Took S.follows S.puts source.old source.new (block_item block.now)) }
    ensures more { (s : List ℕ) → S.may_give source.new s
        → S.may_give source.old s ⊎ (s ≡ block_item block.now) }
    ensures failed { IfErr result (λ e. IsTrue (is_failure e)
        → (S.failed source.new).last ≡ Some (sha256 (block_item block.now))) }
    ensures refused { IfErr result (λ e. (e ≡ SourceFailed) ⊎ (e ≡ NoMemory)) }
    ensures follows { S.follows source.old source.new }
{
    let item = spell(alloc, block)?;
    source.put(alloc, item.as_slice())
}

/// Spells the item of a block. Fails where memory is wanting.
fn spell(alloc: Global, block: &[u8]) -> Result<Vec<u8>, AllocError>
    requires { length block.now ≤ BLOCK_SIZE }
    ensures value { IfOk result (λ item. item.items ≡ block_item block.now) }
    ensures size { IfOk result (λ item. is_item item.items ≡ true) }
{
    let mut item = Vec::new(alloc);
    item.push(4)?;
    item.extend_from_slice(block)?;
    Ok(item)
}
