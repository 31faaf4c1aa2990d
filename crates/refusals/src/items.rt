// Items that threads share, where memory is refused.
use crate::faults::{Fault, Mistake, check};
use crate::seen::{Seen, again};
use std::alloc::Global;
use std::sync::Wait;
use su_block::digest_of;
use su_bytes::{Digest, Refusal};
use su_shared_items::SharedBlocks;

/// How many bytes may go in all, those that stay besides.
const ROOM: usize = 1 << 16;

/// Puts an item, and shares one, which are there then, also once more; what is no item is refused.
pub(crate) fn put_and_shared<R: Wait>(rt: &R, alloc: Global, seen: &mut Seen) -> Result<(), Fault> {
    let blocks = SharedBlocks::with_room(alloc, ROOM)?;
    let (first, second) = (b"what stays".as_slice(), b"what may go".as_slice());
    put(rt, alloc, &blocks, first, seen)?;
    share(rt, alloc, &blocks, second, first, seen)?;
    get(rt, alloc, &blocks, first, seen)?;
    get(rt, alloc, &blocks, second, seen)?;
    let once_more = again!(
        seen,
        is_there(rt, alloc, &blocks, first)?,
        blocks.put(rt, alloc, first)
    )?;
    check(once_more == digest_of(first), Mistake::Item)?;
    check(
        blocks.put(rt, alloc, b"") == Err(Refusal::TooBig),
        Mistake::Item,
    )?;
    get(rt, alloc, &blocks, first, seen)
}

// Whether nothing is there of that digest.
fn is_none<R: Wait>(rt: &R, alloc: Global, blocks: &SharedBlocks, digest: Digest) -> bool {
    blocks.get(rt, alloc, digest).err() == Some(Refusal::MissingBlock)
}

// Whether an item is there.
fn is_there<R: Wait>(
    rt: &R,
    alloc: Global,
    blocks: &SharedBlocks,
    item: &[u8],
) -> Result<bool, Refusal> {
    let found = blocks.get(rt, alloc, digest_of(item))?;
    Ok(found.as_slice() == item)
}

// Puts the first item.
fn put<R: Wait>(
    rt: &R,
    alloc: Global,
    blocks: &SharedBlocks,
    item: &[u8],
    seen: &mut Seen,
) -> Result<(), Fault> {
    let digest = digest_of(item);
    check(is_none(rt, alloc, blocks, digest), Mistake::Item)?;
    let put = again!(
        seen,
        is_none(rt, alloc, blocks, digest),
        blocks.put(rt, alloc, item)
    )?;
    check(put == digest, Mistake::Item)
}

// Shares an item, while another one stays.
fn share<R: Wait>(
    rt: &R,
    alloc: Global,
    blocks: &SharedBlocks,
    item: &[u8],
    other: &[u8],
    seen: &mut Seen,
) -> Result<(), Fault> {
    let digest = digest_of(item);
    check(is_none(rt, alloc, blocks, digest), Mistake::Item)?;
    let shared = again!(
        seen,
        is_none(rt, alloc, blocks, digest) && is_there(rt, alloc, blocks, other)?,
        blocks.share(rt, alloc, item)
    )?;
    check(shared == digest, Mistake::Item)
}

// Gets an item.
fn get<R: Wait>(
    rt: &R,
    alloc: Global,
    blocks: &SharedBlocks,
    item: &[u8],
    seen: &mut Seen,
) -> Result<(), Fault> {
    let found = again!(seen, true, blocks.get(rt, alloc, digest_of(item)))?;
    check(found.as_slice() == item, Mistake::Item)
}
