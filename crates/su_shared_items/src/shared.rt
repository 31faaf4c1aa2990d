// Items that threads share.
ghost use Rattle.std.specs.Prelude.{◌≡◌, ◌⊎◌, ◌↔◌, false, vec_len, IfOk, IfErr, Err};
ghost use Rattle.sha2.specs.Sha256.{sha256};
ghost use Rattle.su_block.specs.Item.{is_item};
ghost use Rattle.su_bytes.specs.declared.refusals.Refusal.TheVariants.{MissingBlock, TooBig, NoMemory};

use crate::purposes::Purpose;
use crate::sections::Section;
use std::alloc::{AllocError, Global};
use std::sync::{Mutex, Wait};
use su_block::{digest_of, is_item};
use su_bytes::{Digest, Refusal};

/// How many shards there are.
const SHARDS: usize = 16;

/// The bytes that the items which stay may take in each shard, at least: 1 MiB.
const LEAST_STAYING: usize = 1 << 20;

/// Items that threads share, in shards of which each has a lock of its own. The low four bits of a
/// digest's first byte tell in which one an item is.
///
/// An item that was put stays, until it is told that it is kept elsewhere. One that sessions alone
/// have put (`SessionItems`) is pinned by them: it stays until the last of them has ended, and for
/// good once a commit names it. Those that stay take a bounded room in each shard: where there is
/// none for another one, that one is refused, as what was acknowledged isn't dropped before. A
/// quarter of it is for those that are put for a commit (`Purpose`).
///
/// Items that are kept elsewhere, those that came by `share`, and those of either kind that are put
/// once more take a bounded room in each shard too: where there is none for another one, those go
/// that were asked for longest ago. Which items are kept elsewhere is remembered by their digests.
#[derive(Drop)]
pub struct SharedBlocks {
    shards: Vec<Mutex<Section>>,
    ghost count: { vec_len shards ≡ 16 },
}

impl SharedBlocks {
    /// Makes shards without items, with room for all, without a bound. Fails where there is no
    /// memory.
    pub fn new(alloc: Global) -> Result<SharedBlocks, AllocError> {
        SharedBlocks::with_rooms(alloc, usize::MAX, usize::MAX)
    }

    /// Makes shards without items, where those that are kept elsewhere too may take `room` bytes in
    /// all, a sixteenth in each shard. Those that stay may take as many bytes besides, a sixteenth
    /// in each shard too, but at least 1 MiB (1,048,576 bytes) there. Fails where there is no memory.
    pub fn with_room(alloc: Global, room: usize) -> Result<SharedBlocks, AllocError> {
        let share = room / SHARDS;
        SharedBlocks::with_rooms(alloc, share, share.max(LEAST_STAYING))
    }

    /// Makes shards without items. In each those that are kept elsewhere too may take `spare` bytes,
    /// and those that stay `staying` bytes. Fails where there is no memory.
    pub(crate) fn with_rooms(
        alloc: Global,
        spare: usize,
        staying: usize,
    ) -> Result<SharedBlocks, AllocError> {
        let mut shards = Vec::with_capacity(alloc, SHARDS)?;
        for _ in 0..SHARDS {
            shards.push(Mutex::new(Section::new(alloc, spare, staying)?))?;
        }
        Ok(SharedBlocks { shards })
    }

    /// Gets the item of a digest, which is the newest from then on. `MissingBlock` where there is
    /// none; `NoMemory` where there is no room for the item.
    pub fn get(&self, rt: &impl Wait, alloc: Global, digest: Digest) -> Result<Vec<u8>, Refusal>
        ensures checked { IfOk result (λ item. sha256 item.items ≡ digest) }
        ensures refused { IfErr result (λ e. (e ≡ MissingBlock) ⊎ (e ≡ NoMemory)) }
    {
        self.shard(&digest).lock(rt).get(alloc, &digest)
    }

    /// Puts an item, which stays for good from then on unless it is kept elsewhere too, and answers
    /// its digest, which is computed before a lock is taken. `TooBig` where it has not 1 to 70,000
    /// bytes, and just there; `NoMemory` where there is no memory for it, or no room in its shard
    /// among the items that stay, and then nothing changes. Putting what stays already changes no
    /// more than that nobody pins it, and is answered whatever the room.
    pub fn put(&self, rt: &impl Wait, alloc: Global, item: &[u8]) -> Result<Digest, Refusal>
        ensures digest { IfOk result (λ digest. digest ≡ sha256 item.now) }
        ensures too_big { (result ≡ Err TooBig) ↔ (is_item item.now ≡ false) }
        ensures refused { IfErr result (λ e. (e ≡ TooBig) ⊎ (e ≡ NoMemory)) }
    {
        if !is_item(item) {
            return Err(Refusal::TooBig);
        }
        let digest = digest_of(item);
        self.shard(&digest).lock(rt).put(alloc, &digest, item)?;
        Ok(digest)
    }

    /// Puts an item for a session, which pins it from then on, and answers its digest and whether
    /// it does: it doesn't where the item stays for good, nor where it is kept elsewhere too. The
    /// refusals are those of `put`.
    pub(crate) fn put_pinned(
        &self,
        rt: &impl Wait,
        alloc: Global,
        item: &[u8],
        purpose: Purpose,
    ) -> Result<(Digest, bool), Refusal>
        ensures digest { IfOk result (λ put. put.0 ≡ sha256 item.now) }
        ensures too_big { (result ≡ Err TooBig) ↔ (is_item item.now ≡ false) }
        ensures refused { IfErr result (λ e. (e ≡ TooBig) ⊎ (e ≡ NoMemory)) }
    {
        if !is_item(item) {
            return Err(Refusal::TooBig);
        }
        let digest = digest_of(item);
        let pinned = self
            .shard(&digest)
            .lock(rt)
            .put_pinned(alloc, &digest, item, purpose)?;
        Ok((digest, pinned))
    }

    /// Pins the item of a digest once more, where sessions pin it, and returns whether it did.
    pub(crate) fn pin(&self, rt: &impl Wait, digest: Digest) -> bool {
        self.shard(&digest).lock(rt).pin(&digest)
    }

    /// Lets one session fewer pin the item of a digest. Where that was the last one, the item goes.
    /// Nothing changes where nobody pins it.
    pub(crate) fn unpin(&self, rt: &impl Wait, digest: Digest) {
        self.shard(&digest).lock(rt).unpin(&digest);
    }

    /// Lets the item of a digest stay for good, if it stays: nobody pins it any more.
    pub(crate) fn let_stay(&self, rt: &impl Wait, digest: Digest) {
        self.shard(&digest).lock(rt).let_stay(&digest);
    }

    /// Puts an item that is kept elsewhere too, as the newest of those that may go, and answers its
    /// digest. It isn't held where it has more bytes than there is room for at all. `TooBig` where
    /// it has not 1 to 70,000 bytes, and just there; `NoMemory` where there is no memory for it. Where the item is there already, whether it stays doesn't change.
    pub fn share(&self, rt: &impl Wait, alloc: Global, item: &[u8]) -> Result<Digest, Refusal>
        ensures digest { IfOk result (λ digest. digest ≡ sha256 item.now) }
        ensures too_big { (result ≡ Err TooBig) ↔ (is_item item.now ≡ false) }
        ensures refused { IfErr result (λ e. (e ≡ TooBig) ⊎ (e ≡ NoMemory)) }
    {
        if !is_item(item) {
            return Err(Refusal::TooBig);
        }
        let digest = digest_of(item);
        self.shard(&digest).lock(rt).share(alloc, &digest, item)?;
        Ok(digest)
    }

    /// Tells that the item of a digest is kept elsewhere too. It is the newest of those that may go
    /// from then on, or is gone, where there is no room or no memory for that, and nobody pins it
    /// any more. Nothing changes where there is no such item, or where that was told before.
    pub fn release(&self, rt: &impl Wait, _alloc: Global, digest: Digest) {
        self.shard(&digest).lock(rt).release(&digest);
    }

    /// Lends the shard of a digest.
    fn shard(&self, digest: &Digest) -> &Mutex<Section> {
        let first = digest.as_bytes()[0];
        &self.shards[usize::from(first) % SHARDS]
    }
}
