// The item of a record's change, between the files and the items that threads share.
ghost use Rattle.std.specs.Prelude.{◌≡◌, Some, IfOk};
ghost use Rattle.su_version.specs.Commit.{Commit as CommitParts, IsCommit, commit_bytes};

use std::alloc::{AllocError, Global};
use std::sync::Wait;
use su_bytes::{Digest, Refusal};
use su_shared_items::SharedBlocks;
use su_version::Commit;

/// Returns the digest of the change that a commit signs. `None` where the bytes are no commit's.
pub(crate) fn change_of(alloc: Global, commit: &[u8]) -> Result<Option<Digest>, AllocError>
    ensures { IfOk result (λ change. (c : CommitParts) → IsCommit c → commit.now ≡ commit_bytes c
        → change ≡ Some c.version.change) }
{
    match Commit::decode(alloc, commit) {
        Ok(commit) => Ok(Some(commit.version().change())),
        Err(Refusal::NoMemory) => Err(AllocError),
        Err(_) => Ok(None),
    }
}

/// Tells that the item of a change is kept, where there was one to keep.
pub(crate) fn release_item<R: Wait>(
    rt: &R,
    alloc: Global,
    blocks: &SharedBlocks,
    change: Option<&Digest>,
    items: &[Vec<u8>],
) {
    let Some(digest) = change else {
        return;
    };
    if !items.is_empty() {
        blocks.release(rt, alloc, *digest);
    }
}

/// Shares an item that is kept. A block that is no item is left out: no client can have put it.
pub(crate) fn share<R: Wait>(
    rt: &R,
    alloc: Global,
    blocks: &SharedBlocks,
    item: &[u8],
) -> Result<(), AllocError> {
    match blocks.share(rt, alloc, item) {
        Ok(_) | Err(Refusal::TooBig) => Ok(()),
        Err(_) => Err(AllocError),
    }
}
