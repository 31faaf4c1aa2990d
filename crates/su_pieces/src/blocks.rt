// Blocks of a file's new contents, beside what stands in their places in the old ones.
ghost use Rattle.std.specs.Prelude.{◌≡◌, ◌+◌, ◌-◌, ◌*◌, ◌/◌, ◌^◌, ◌<◌, ◌≤◌, ◌⊎◌, ℕ, true, false, length, MatchOption};
ghost use Rattle.su_node.specs.Digest.{block_count};
ghost use Rattle.su_node.specs.Inode.{within};
ghost use Rattle.su_pieces.specs.Piece.{differs};

use su_node::BLOCK_SIZE;
use su_op::LARGEST_WRITE;

/// The most blocks of one write: a quarter of those that one may have, so that an item has room for
/// several, and its last one is filled.
const MOST_BLOCKS: usize = LARGEST_WRITE / BLOCK_SIZE / 4;

/// Returns those bytes of a range that are there.
pub(crate) fn within(bytes: &[u8], off: usize, len: usize) -> &[u8]
    ensures { result.now ≡ within off len bytes.now }
{
    let start = off.min(bytes.len());
    let end = start + len.min(bytes.len() - start);
    &bytes[start..end]
}

/// Returns how many blocks a file of that size has.
fn block_count(size: usize) -> usize
    requires { size < 2 ^ 63 }
    ensures { result ≡ block_count size }
{
    size.div_ceil(BLOCK_SIZE)
}

/// Tells whether a block of the new contents isn't what stands in its place in the old ones.
#[tactic(auto, unfolding(crate::specs::Piece::differs, su_node::specs::Field::block))]
fn differs(old: &[u8], new: &[u8], number: usize) -> bool
    requires { BLOCK_SIZE * number ≤ length new.now }
    ensures { result ≡ differs old.now new.now number }
{
    let off = BLOCK_SIZE * number;
    let block = within(new, off, BLOCK_SIZE);
    within(old, off, block.len()) != block
}

/// Finds the first block from a number on that differs.
pub(crate) fn first_differing(old: &[u8], new: &[u8], from_: usize) -> Option<usize>
    ensures { MatchOption result
        ((n : ℕ) → from_ ≤ n → differs old.now new.now n ≡ false)
        (λ first. (from_ ≤ first) × (BLOCK_SIZE * first < length new.now)
        × (differs old.now new.now first ≡ true)
        × ((n : ℕ) → from_ ≤ n → n < first → differs old.now new.now n ≡ false)) }
{
    for number in from_..block_count(new.len()) {
        if differs(old, new, number) {
            return Some(number);
        }
    }
    None
}

/// Returns the end of the run of blocks that differ, which begins with that one: the number of the
/// first block that doesn't, or that doesn't go into the same write.
pub(crate) fn end_of_run(old: &[u8], new: &[u8], first: usize) -> usize
    requires there { BLOCK_SIZE * first < length new.now }
    requires differs { differs old.now new.now first ≡ true }
    ensures above { first < result }
    ensures few { result ≤ first + MOST_BLOCKS }
    ensures inside { result ≤ block_count (length new.now) }
    ensures differ { (n : ℕ) → first ≤ n → n < result → differs old.now new.now n ≡ true }
    ensures longest { (result ≡ first + MOST_BLOCKS) ⊎ (differs old.now new.now result ≡ false) }
{
    let most = block_count(new.len()).min(first + MOST_BLOCKS);
    for number in first + 1..most {
        if !differs(old, new, number) {
            return number;
        }
    }
    most
}
