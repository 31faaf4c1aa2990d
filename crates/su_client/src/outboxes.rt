// Items that wait to be sent to a server.
ghost use Rattle.std.specs.Prelude.{◌≡◌, ◌⊎◌, ◌↔◌, [], ℕ, List, false, None, IfOk, IfErr, IfSome, OnOk, OnErr, Err};
ghost use Rattle.std.specs.Borrow.{Lends, sem};
ghost use Rattle.sha2.specs.Sha256.{sha256};
ghost use Rattle.su_block.specs.Item.{is_item};
ghost use Rattle.su_block.specs.Failure.{failures_after};
ghost use Rattle.su_bytes.specs.declared.refusals.Refusal.TheVariants.{MissingBlock, SourceFailed, TooBig, NoMemory};
ghost use Rattle.su_client.specs.Following.{follows_itself, follows_on};
ghost use Rattle.su_client.specs.Link.{Follows, GoesAhead, MayGive};
ghost use Rattle.su_client.specs.Outbox.{contents, IsAtHand, IsHandedIn, IsRefusedHandIn, PutsAll, PutsFirst, PutsSome, WaitsToo};
ghost use Rattle.su_client.specs.contracts.outboxes.Outbox.{the_row};
ghost use Rattle.su_client.specs.contracts.clients.Client.{the_row as client_row};

use crate::clients::{Client, of_source};
use std::alloc::Global;
use std::collections::VecDeque;
use std::io::{Read, Write};
use su_block::{BlockSource, Failures, LONGEST_ITEM, digest_of};
use su_bytes::{Digest, Refusal};
use su_message::{Bytes, Request};

/// How many bytes of items wait at most, and one item more.
const MOST_WAITING: usize = 1_048_576;

/// A client of a server that puts items later: an item that is put waits until what needs it is
/// handed in, or until many do; then all leave together. The item that was put last is at hand until
/// it is asked for, so that the server isn't.
#[derive(Drop)]
pub struct Outbox<R: Read, W: Write> {
    client: Client<R, W>,
    waiting: VecDeque<Vec<u8>>,
    /// How many of those are on their way.
    sent: usize,
    /// How many bytes those have that wait.
    bytes: usize,
    at_hand: Option<(Digest, Vec<u8>)>,
    failures: Failures,
}

impl<R: Read + Drop, W: Write + Drop> Outbox<R, W> {
    /// Makes it of a client. No item waits, and none is at hand.
    pub fn new(alloc: Global, client: Client<R, W>) -> Outbox<R, W>
        ensures client { result.client ≡ client }
        ensures waiting { result.waiting.items ≡ [] }
        ensures at_hand { result.at_hand ≡ None }
    {
        Outbox {
            client,
            waiting: VecDeque::new(alloc),
            sent: 0,
            bytes: 0,
            at_hand: None,
            failures: Failures::none(),
        }
    }

    /// Lends the client. What is done to that changes nothing else.
    pub fn client_mut(&mut self) -> &mut Client<R, W>
        ensures value { result.now ≡ self.old.client }
        ensures* writes_back { sem 𝓛 (Lends (the_row R.row W.row R.Read W.Write)
            (client_row R.row W.row R.Read W.Write) self.entry result
            (λ client. record self.old { client = client })) }
    {
        &mut self.client
    }

    /// Forgets the items that wait and the one at hand.
    pub fn forget(&mut self)
        ensures client { self.new.client ≡ self.old.client }
        ensures waiting { self.new.waiting.items ≡ [] }
        ensures at_hand { self.new.at_hand ≡ None }
    {
        self.waiting.clear();
        self.sent = 0;
        self.bytes = 0;
        self.at_hand = None;
    }

    /// Sends the items that wait ahead of their time, and tells whether all are on their way, on
    /// which nothing rests.
    pub fn send_ahead(&mut self, alloc: Global) -> bool
        ensures ahead { GoesAhead self.old.client.link self.new.client.link }
        ensures no_more { (s : List ℕ) → MayGive self.new.client.link s
            → MayGive self.old.client.link s }
        ensures waiting { self.new.waiting ≡ self.old.waiting }
        ensures at_hand { self.new.at_hand ≡ self.old.at_hand }
        ensures failures { self.new.failures ≡ self.old.failures }
    {
        for _ in self.sent..self.waiting.len() {
            if !self.send_next(alloc) {
                return false;
            }
        }
        true
    }

    /// Sends the next of the items that wait ahead of its time.
    fn send_next(&mut self, alloc: Global) -> bool
        ensures ahead { GoesAhead self.old.client.link self.new.client.link }
        ensures no_more { (s : List ℕ) → MayGive self.new.client.link s
            → MayGive self.old.client.link s }
        ensures waiting { self.new.waiting ≡ self.old.waiting }
        ensures at_hand { self.new.at_hand ≡ self.old.at_hand }
        ensures failures { self.new.failures ≡ self.old.failures }
    {
        let Some(item) = self.waiting.get(self.sent) else {
            return false;
        };
        let Ok(item) = Bytes::copy_of(alloc, item.as_slice()) else {
            return false;
        };
        if !self.client.send_ahead(&Request::Put(item)) {
            return false;
        }
        self.sent = self.sent.saturating_add(1);
        true
    }

    /// Puts all items that wait, in order. `SourceFailed` where the link fails, `NoMemory`: then those
    /// that weren't put wait still.
    pub fn settle(&mut self, alloc: Global) -> Result<(), Refusal>
        ensures put { OnOk result (PutsAll (contents self.old.waiting.items)
            self.old.client.link self.new.client.link) }
        ensures waiting { OnOk result (self.new.waiting.items ≡ []) }
        ensures err { OnErr result (PutsSome (contents self.old.waiting.items)
            self.old.client.link (contents self.new.waiting.items) self.new.client.link) }
        ensures refused { IfErr result (λ e. (e ≡ SourceFailed) ⊎ (e ≡ NoMemory)) }
        ensures follows { Follows self.old.client.link self.new.client.link }
        ensures no_more { (s : List ℕ) → MayGive self.new.client.link s
            → MayGive self.old.client.link s }
        ensures at_hand { self.new.at_hand ≡ self.old.at_hand }
        ensures failures { self.new.failures ≡ self.old.failures }
    {
        while !self.waiting.is_empty() {
            self.put_next(alloc)?;
        }
        self.sent = 0;
        self.bytes = 0;
        Ok(())
    }

    /// Puts the first item that waits. Where that fails, it waits still.
    fn put_next(&mut self, alloc: Global) -> Result<(), Refusal>
        ensures put { OnOk result (PutsFirst self.old.waiting.items self.old.client.link
            self.new.waiting.items self.new.client.link) }
        ensures err { OnErr result (self.new.waiting ≡ self.old.waiting) }
        ensures refused { IfErr result (λ e. (e ≡ SourceFailed) ⊎ (e ≡ NoMemory)) }
        ensures follows { Follows self.old.client.link self.new.client.link }
        ensures no_more { (s : List ℕ) → MayGive self.new.client.link s
            → MayGive self.old.client.link s }
        ensures at_hand { self.new.at_hand ≡ self.old.at_hand }
        ensures failures { self.new.failures ≡ self.old.failures }
    {
        self.send_ahead(alloc);
        let Some(item) = self.waiting.front() else {
            return Ok(());
        };
        if let Err(refusal) = self.client.put(alloc, item.as_slice()) {
            return Err(of_source(refusal));
        }
        let _put = self.waiting.pop_front();
        self.sent = self.sent.saturating_sub(1);
        Ok(())
    }

    /// Puts all items that wait, and hands in a commit by its bytes. Returns the number of its
    /// record. The refusals are those of `settle`, and then of `Client::commit`; items that weren't
    /// put wait still.
    pub fn hand_in(&mut self, alloc: Global, commit: Vec<u8>) -> Result<u64, Refusal>
        ensures handed_in { IfOk result (IsHandedIn (contents self.old.waiting.items) commit.items
            self.old.client.link self.new.client.link) }
        ensures err { OnErr result (PutsSome (contents self.old.waiting.items)
            self.old.client.link (contents self.new.waiting.items) self.new.client.link) }
        ensures refused { IfErr result (IsRefusedHandIn (contents self.old.waiting.items)
            commit.items self.old.client.link self.new.client.link) }
        ensures follows { Follows self.old.client.link self.new.client.link }
        ensures at_hand { self.new.at_hand ≡ self.old.at_hand }
    {
        self.settle(alloc)?;
        self.client.commit(commit)
    }

    /// Lets an item wait, of this digest, which is at hand then. Where many wait, those are put first.
    fn take_in(&mut self, alloc: Global, item: &[u8], digest: Digest) -> Result<(), Refusal>
        ensures waits { OnOk result (WaitsToo (contents self.old.waiting.items) item.now
            self.old.client.link (contents self.new.waiting.items) self.new.client.link) }
        ensures at_hand { OnOk result ((s : List ℕ) → IsAtHand self.new.at_hand s → s ≡ item.now) }
        ensures err { OnErr result (self.new.at_hand ≡ self.old.at_hand) }
        ensures unput { OnErr result (PutsSome (contents self.old.waiting.items)
            self.old.client.link (contents self.new.waiting.items) self.new.client.link) }
        ensures refused { IfErr result (λ e. (e ≡ SourceFailed) ⊎ (e ≡ NoMemory)) }
        ensures follows { Follows self.old.client.link self.new.client.link }
        ensures no_more { (s : List ℕ) → MayGive self.new.client.link s
            → MayGive self.old.client.link s }
        ensures failures { self.new.failures ≡ self.old.failures }
    {
        if MOST_WAITING < self.bytes {
            self.settle(alloc)?;
        }
        let waits = Vec::from_slice(alloc, item)?;
        let kept = Vec::from_slice(alloc, item)?;
        self.waiting.reserve(1)?;
        self.waiting.push_back_reserved(waits);
        self.bytes = self.bytes.saturating_add(item.len());
        self.at_hand = Some((digest, kept));
        Ok(())
    }

    /// Gives the item of this digest away, if it is at hand.
    fn take_at_hand(&mut self, digest: Digest) -> Option<Vec<u8>>
        ensures given { IfSome result (λ item. IsAtHand self.old.at_hand item.items) }
        ensures no_more { (s : List ℕ) → IsAtHand self.new.at_hand s
            → IsAtHand self.old.at_hand s }
        ensures client { self.new.client ≡ self.old.client }
        ensures failures { self.new.failures ≡ self.old.failures }
    {
        match self.at_hand.take() {
            Some((of, item)) if of == digest => Some(item),
            kept => {
                self.at_hand = kept;
                None
            }
        }
    }

    /// Gets the item of a digest from the server, once all items that wait are put. What was sent
    /// ahead before the request for it is passed by: what lies in a cache above isn't asked for.
    fn get_put(&mut self, alloc: Global, digest: Digest) -> Result<Vec<u8>, Refusal>
        ensures given { IfOk result (λ item. MayGive self.old.client.link item.items) }
        ensures err { OnErr result (PutsSome (contents self.old.waiting.items)
            self.old.client.link (contents self.new.waiting.items) self.new.client.link) }
        ensures refused { IfErr result (λ e.
            (e ≡ MissingBlock) ⊎ (e ≡ SourceFailed) ⊎ (e ≡ NoMemory)) }
        ensures follows { Follows self.old.client.link self.new.client.link }
        ensures no_more { (s : List ℕ) → MayGive self.new.client.link s
            → MayGive self.old.client.link s }
        ensures at_hand { self.new.at_hand ≡ self.old.at_hand }
        ensures failures { self.new.failures ≡ self.old.failures }
    {
        self.settle(alloc)?;
        self.client.pass_to(&Request::Get(digest));
        self.client.get(alloc, digest)
    }
}

/// The items at hand, and those that the server holds, which isn't checked: a server may give
/// anything. The refusals of `Client::get`; of `put` also those that meet items that were put before,
/// and wait.
impl<R: Read + Drop, W: Write + Drop> BlockSource for Outbox<R, W> {
    ghost may_give = { λ o item. IsAtHand o.at_hand item ⊎ MayGive o.client.link item };

    ghost is_checked = { false };

    ghost failed = { λ o. o.failures };

    ghost follows = { λ o p. Follows o.client.link p.client.link };

    ghost puts = { λ o item p. WaitsToo (contents o.waiting.items) item o.client.link
        (contents p.waiting.items) p.client.link };

    ghost follows_itself = { λ o. follows_itself o.client.link };

    ghost follows_on = { λ o p q. follows_on o.client.link p.client.link q.client.link };

    fn get(&mut self, alloc: Global, digest: Digest) -> Result<Vec<u8>, Refusal>
        ensures given { IfOk result (λ item. IsAtHand self.old.at_hand item.items
            ⊎ MayGive self.old.client.link item.items) }
        ensures refused { IfErr result (λ e.
            (e ≡ MissingBlock) ⊎ (e ≡ SourceFailed) ⊎ (e ≡ NoMemory)) }
        ensures follows { Follows self.old.client.link self.new.client.link }
        ensures no_more { (s : List ℕ)
            → IsAtHand self.new.at_hand s ⊎ MayGive self.new.client.link s
            → IsAtHand self.old.at_hand s ⊎ MayGive self.old.client.link s }
        ensures counted { self.new.failures ≡ failures_after result digest self.old.failures }
    {
        if let Some(item) = self.take_at_hand(digest) {
            return Ok(item);
        }
        match self.get_put(alloc, digest) {
            Ok(item) => Ok(item),
            Err(refusal) => {
                self.failures.note(&refusal, digest);
                Err(refusal)
            }
        }
    }

    fn put(&mut self, alloc: Global, item: &[u8]) -> Result<Digest, Refusal>
        ensures digest { IfOk result (λ digest. digest ≡ sha256 item.now) }
        ensures puts { OnOk result (WaitsToo (contents self.old.waiting.items) item.now
            self.old.client.link (contents self.new.waiting.items) self.new.client.link) }
        ensures follows { Follows self.old.client.link self.new.client.link }
        ensures too_big { (result ≡ Err TooBig) ↔ (is_item item.now ≡ false) }
        ensures refused { IfErr result (λ e. (e ≡ TooBig) ⊎ (e ≡ SourceFailed) ⊎ (e ≡ NoMemory)) }
        ensures more { (s : List ℕ) → IsAtHand self.new.at_hand s ⊎ MayGive self.new.client.link s
            → (IsAtHand self.old.at_hand s ⊎ MayGive self.old.client.link s) ⊎ (s ≡ item.now) }
        ensures err { OnErr result ((s : List ℕ)
            → IsAtHand self.new.at_hand s ⊎ MayGive self.new.client.link s
            → IsAtHand self.old.at_hand s ⊎ MayGive self.old.client.link s) }
        // No item is lost.
        ensures unput { OnErr result (PutsSome (contents self.old.waiting.items)
            self.old.client.link (contents self.new.waiting.items) self.new.client.link) }
        ensures counted { self.new.failures
            ≡ failures_after result (sha256 item.now) self.old.failures }
    {
        if item.is_empty() || LONGEST_ITEM < item.len() {
            return Err(Refusal::TooBig);
        }
        let digest = digest_of(item);
        match self.take_in(alloc, item, digest) {
            Ok(()) => Ok(digest),
            Err(refusal) => {
                self.failures.note(&refusal, digest);
                Err(refusal)
            }
        }
    }

    fn failures(&self) -> u64 {
        self.failures.count
    }

    fn failed_at(&self) -> Option<Digest> {
        self.failures.last
    }
}
