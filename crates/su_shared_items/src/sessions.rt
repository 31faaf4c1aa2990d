// Items that a session puts.
ghost use Rattle.std.specs.Prelude.{◌≡◌, ◌⊎◌, ◌↔◌, [], false, IfOk, IfErr, OnErr, Err, MatchBool};
ghost use Rattle.sha2.specs.Sha256.{sha256};
ghost use Rattle.su_block.specs.Item.{is_item};
ghost use Rattle.su_bytes.specs.declared.refusals.Refusal.TheVariants.{TooBig, NoMemory};
ghost use Rattle.su_shared_items.specs.Section.{with_one, without};

use crate::purposes::Purpose;
use crate::shared::SharedBlocks;
use std::alloc::Global;
use std::collections::BTreeSet;
use std::marker::Model;
use std::sync::Wait;
use su_bytes::{Digest, Refusal};

/// The items of shared ones that a session pins: those that it has put, as far as nothing else lets
/// them stay for good and the session has handed in no commit that names them. Its model is their
/// digests. Each is pinned once, however often it is put.
///
/// What sessions do side by side changes an item under the lock of its shard alone, so:
/// - Of two that put an item, and of which one ends, the other one pins it still.
/// - A commit that names an item lets it stay for good, whoever put it: those that pinned it find
///   it pinned by nobody when they end. It is pinned once more while the commit is handed in
///   (`pin_named`), so that it doesn't go, with the last session that put it, between the commit's
///   being stored and the item's being let stay.
/// - A keeper that keeps the item of a commit reads it before it releases it. If it goes in
///   between, it is kept all the same; and once it is released nobody pins it, so that a session
///   that ends finds nothing to let go.
/// - An item that is kept elsewhere isn't pinned. Where there was no memory to note that it is, it
///   may be pinned anew beside a session that pinned it before, and goes with the first of them
///   that ends: it is read where it is kept.
#[derive(Drop)]
pub struct SessionItems<'a> {
    blocks: &'a SharedBlocks,
    pinned: BTreeSet<[u8; 32]>,
}

impl<'a> Model for SessionItems<'a> {
    ghost use Rattle.std.specs.Prelude.{ℕ, List};

    ghost Value = { List (List ℕ) };

    ghost view = { λ s. s.pinned.keys };
}

impl<'a> SessionItems<'a> {
    /// Begins a session over shared items, of which it pins none.
    pub fn new(alloc: Global, blocks: &'a SharedBlocks) -> SessionItems<'a>
        ensures { result ≡ [] }
    {
        SessionItems {
            blocks,
            pinned: BTreeSet::new(alloc),
        }
    }

    /// Puts an item for this purpose, and answers its digest. It stays until the session has ended, and for longer
    /// where others pin it, where it stays for good, or where a commit names it; it may go where it
    /// is kept elsewhere. `TooBig` where it has not 1 to 70,000 bytes, and just there; `NoMemory`
    /// where there is no memory for it, or no room in its shard among the items that stay, of which
    /// a quarter is for commits alone, and then nothing changes. Putting what stays already is
    /// answered whatever the room.
    pub fn put(
        &mut self,
        rt: &impl Wait,
        alloc: Global,
        item: &[u8],
        purpose: Purpose,
    ) -> Result<Digest, Refusal>
        ensures digest { IfOk result (λ digest. digest ≡ sha256 item.now) }
        ensures too_big { (result ≡ Err TooBig) ↔ (is_item item.now ≡ false) }
        ensures refused { IfErr result (λ e. (e ≡ TooBig) ⊎ (e ≡ NoMemory)) }
        // The session pins no other item more than before.
        ensures pinned { IfOk result (λ digest.
            (self.new ≡ self.old) ⊎ (self.new ≡ with_one digest self.old)) }
        ensures unchanged { OnErr result (self.new ≡ self.old) }
    {
        let (digest, pinned) = self.blocks.put_pinned(rt, alloc, item, purpose)?;
        if pinned && !self.note(rt, digest) {
            return Err(Refusal::NoMemory);
        }
        Ok(digest)
    }

    /// Notes the digest of an item that was pinned for the session. One that it pins already is
    /// unpinned, as it is pinned twice. Returns whether there was memory for it: where there isn't,
    /// the item is unpinned too, and nothing changes.
    fn note(&mut self, rt: &impl Wait, digest: Digest) -> bool
        ensures { MatchBool result (self.new ≡ with_one digest self.old) (self.new ≡ self.old) }
    {
        match self.pinned.insert(*digest.as_bytes()) {
            Ok(true) => true,
            Ok(false) => {
                self.blocks.unpin(rt, digest);
                true
            }
            Err(_) => {
                self.blocks.unpin(rt, digest);
                false
            }
        }
    }

    /// Pins the item of a digest, which a commit names that is handed in next, once more, and
    /// returns whether it did: it doesn't where nobody pins it. `let_stay` or `unpin_named` ends
    /// that.
    pub fn pin_named(&self, rt: &impl Wait, digest: Digest) -> bool {
        self.blocks.pin(rt, digest)
    }

    /// Ends what `pin_named` began, where the commit wasn't stored.
    pub fn unpin_named(&self, rt: &impl Wait, digest: Digest) {
        self.blocks.unpin(rt, digest);
    }

    /// Lets the item of a digest stay for good, as a commit that was stored names it, unless it is
    /// kept elsewhere: nobody pins it any more, and the session forgets that it did.
    pub fn let_stay(&mut self, rt: &impl Wait, digest: Digest)
        ensures { self.new ≡ without digest self.old }
    {
        self.blocks.let_stay(rt, digest);
        let _ = self.pinned.remove(digest.as_bytes());
    }

    /// Ends the session: it unpins all that it pins. What others pin, and what stays for good, is
    /// left.
    pub fn end(&mut self, rt: &impl Wait)
        ensures { self.new ≡ [] }
    {
        while let Some(digest) = self.pinned.pop_first() {
            self.blocks.unpin(rt, Digest::new(digest));
        }
    }
}
