// A client of a server.
ghost use Rattle.std.specs.Prelude.{◌≡◌, ◌⊎◌, ◌↔◌, ℕ, List, [], true, false, IfOk, IfErr, OnOk, OnErr, Err};
ghost use Rattle.sha2.specs.Sha256.{sha256};
ghost use Rattle.su_bytes.specs.declared.refusals.Refusal.TheVariants.{MissingBlock, SourceFailed, TooBig, NoMemory};
ghost use Rattle.su_bytes.specs.Refusal.{refusal_number};
ghost use Rattle.su_client.specs.Following.{follows_itself, follows_on};
ghost use Rattle.su_block.specs.Item.{is_item};
ghost use Rattle.su_block.specs.Failure.{failures_after};
ghost use Rattle.su_message.specs.declared.requests.Request.TheVariants as request;
ghost use Rattle.su_message.specs.declared.replies.Reply.TheVariants as reply;
ghost use Rattle.su_client.specs.Link.{LinkState, Exchanged, Follows, GoesAhead, IsRefusal, MayGive, kept_or_nothing, of_source};

use crate::links::Link;
use std::alloc::Global;
use std::io::{Read, Write};
use su_block::{BlockSource, Failures, LONGEST_ITEM, digest_of};
use su_bytes::{Digest, Refusal};
use su_message::{Bytes, LastNumbers, Reply, Request};

/// A client of a server that need not be trusted: one call for each request. A call fails with
/// `NoMemory` where there is none for the request, and then nothing was sent, or where the server
/// had none; with `LinkFailed` where the link fails or the server replies what doesn't fit the
/// request, and so ever after.
#[derive(Drop)]
pub struct Client<R: Read, W: Write> {
    link: Link<R, W>,
    failures: Failures,
}

impl<R: Read + Drop, W: Write + Drop> Client<R, W> {
    /// Makes the client over a reader and a writer.
    pub fn new(alloc: Global, reader: R, writer: W) -> Client<R, W>
        ensures link { result.link ≡ record {
          known = R.remaining reader;
          held = W.contents writer;
          waits = [];
          failed = false;
        } }
    {
        Client {
            link: Link::new(alloc, reader, writer),
            failures: Failures::none(),
        }
    }

    /// Tells whether the link has failed.
    pub fn has_failed(&self) -> bool
        ensures { result ≡ self.now.link.failed }
    {
        self.link.has_failed()
    }

    /// Sends a request ahead of its time, and tells whether it is on its way, on which nothing rests:
    /// its reply is read when it is asked for. It isn't sent where many are on their way, without
    /// memory for it, or over a link that fails. What was sent ahead has to be asked for next, in its
    /// order, or passed by: else the link fails.
    pub fn send_ahead(&mut self, request: &Request) -> bool
        ensures ahead { GoesAhead self.old.link self.new.link }
        ensures no_more { (s : List ℕ) → MayGive self.new.link s → MayGive self.old.link s }
        ensures failures { self.new.failures ≡ self.old.failures }
    {
        self.link.send_ahead(request)
    }

    /// Reads the replies to what was sent ahead, which isn't asked for any more.
    pub fn pass_ahead(&mut self)
        ensures follows { Follows self.old.link self.new.link }
        ensures failures { self.new.failures ≡ self.old.failures }
    {
        self.link.pass_ahead();
    }

    /// Reads the replies to what was sent ahead before this request, which isn't asked for any more:
    /// to all of it, where the request wasn't sent. The request may be asked for then.
    pub fn pass_to(&mut self, request: &Request)
        ensures follows { Follows self.old.link self.new.link }
        ensures no_more { (s : List ℕ) → MayGive self.new.link s → MayGive self.old.link s }
        ensures failures { self.new.failures ≡ self.old.failures }
    {
        self.link.pass_to(request);
    }

    /// Asks for the turn. Returns how many records there are, and the last of each user. `Busy`
    /// with the seat that has it.
    pub fn grant(&mut self) -> Result<(u64, LastNumbers), Refusal>
        ensures granted { IfOk result (λ g.
            Exchanged request.Grant self.old.link self.new.link (reply.Granted g.0 g.1)) }
        ensures refused { IfErr result (IsRefusal request.Grant self.old.link self.new.link) }
        ensures follows { Follows self.old.link self.new.link }
    {
        let request = Request::Grant;
        match self.link.ask(&request)? {
            Reply::Granted(count, last) => Ok((count, last)),
            reply => Err(self.link.refusal(&request, &reply)),
        }
    }

    /// Hands in a commit by its bytes. Returns the number of its record. The refusals are those of
    /// the server's book: `NotYourTurn`, `Malformed`, `BadSignature`, `WrongPrev`, `OldFormat`,
    /// `WrongVector`, `KeyReuse`, `BadKey`, `BookFull`.
    pub fn commit(&mut self, bytes: Vec<u8>) -> Result<u64, Refusal>
        ensures stored { IfOk result (λ n.
            Exchanged (request.Commit bytes.items) self.old.link self.new.link (reply.Stored n)) }
        ensures refused { IfErr result
            (IsRefusal (request.Commit bytes.items) self.old.link self.new.link) }
        ensures follows { Follows self.old.link self.new.link }
    {
        let request = Request::Commit(Bytes::new(bytes));
        match self.link.ask(&request)? {
            Reply::Stored(number) => Ok(number),
            reply => Err(self.link.refusal(&request, &reply)),
        }
    }

    /// Gives the turn back. `NotYourTurn` where this client hasn't it.
    pub fn give(&mut self) -> Result<(), Refusal>
        ensures given { IfOk result (λ _.
            Exchanged request.Give self.old.link self.new.link reply.Given) }
        ensures refused { IfErr result (IsRefusal request.Give self.old.link self.new.link) }
        ensures follows { Follows self.old.link self.new.link }
    {
        let request = Request::Give;
        match self.link.ask(&request)? {
            Reply::Given => Ok(()),
            reply => Err(self.link.refusal(&request, &reply)),
        }
    }

    /// Fetches the bytes of the record of that number; none where the server shows none.
    pub fn fetch(&mut self, number: u64) -> Result<Option<Bytes>, Refusal>
        ensures fetched { IfOk result (λ bytes. Exchanged (request.Fetch number) self.old.link
            self.new.link (kept_or_nothing bytes)) }
        ensures refused { IfErr result
            (IsRefusal (request.Fetch number) self.old.link self.new.link) }
        ensures follows { Follows self.old.link self.new.link }
    {
        let request = Request::Fetch(number);
        match self.link.ask(&request)? {
            Reply::Kept(bytes) => Ok(Some(bytes)),
            Reply::Nothing => Ok(None),
            reply => Err(self.link.refusal(&request, &reply)),
        }
    }

    /// Gets the item of a digest, as the server gives it. `MissingBlock` where it has none.
    fn get_item(&mut self, digest: Digest) -> Result<Vec<u8>, Refusal>
        ensures got { IfOk result (λ item. Exchanged (request.Get digest) self.old.link
            self.new.link (reply.Item item.items)) }
        ensures refused { IfErr result
            (IsRefusal (request.Get digest) self.old.link self.new.link) }
        ensures follows { Follows self.old.link self.new.link }
        ensures failures { self.new.failures ≡ self.old.failures }
    {
        let request = Request::Get(digest);
        match self.link.ask(&request)? {
            Reply::Item(bytes) => Ok(bytes.into_vec()),
            reply => Err(self.link.refusal(&request, &reply)),
        }
    }

    /// Puts an item. Returns the digest under which the server says that it is held.
    fn put_item(&mut self, item: Vec<u8>) -> Result<Digest, Refusal>
        ensures done { IfOk result (λ digest. Exchanged (request.Put item.items) self.old.link
            self.new.link (reply.PutDone digest)) }
        ensures refused { IfErr result
            (IsRefusal (request.Put item.items) self.old.link self.new.link) }
        ensures follows { Follows self.old.link self.new.link }
        ensures failures { self.new.failures ≡ self.old.failures }
    {
        let request = Request::Put(Bytes::new(item));
        match self.link.ask(&request)? {
            Reply::PutDone(digest) => Ok(digest),
            reply => Err(self.link.refusal(&request, &reply)),
        }
    }
}

/// What a source that is a client answers to a refusal: a link that failed is a source that could
/// not be asked.
pub(crate) fn of_source(refusal: Refusal) -> Refusal
    ensures { result ≡ of_source refusal }
{
    match refusal {
        Refusal::MissingBlock => Refusal::MissingBlock,
        Refusal::NoMemory => Refusal::NoMemory,
        _ => Refusal::SourceFailed,
    }
}

/// The items that the server holds. It isn't checked: a server may give anything. `MissingBlock`
/// where the server says that it has none; `SourceFailed` where the link fails, or the server
/// replies what doesn't fit.
impl<R: Read + Drop, W: Write + Drop> BlockSource for Client<R, W> {
    ghost may_give = { λ c item. MayGive c.link item };

    ghost is_checked = { false };

    ghost failed = { λ c. c.failures };

    ghost follows = { λ c d. Follows c.link d.link };

    ghost puts = { λ c item d.
        Exchanged (request.Put item) c.link d.link (reply.PutDone (sha256 item)) };

    ghost follows_itself = { λ c. follows_itself c.link };

    ghost follows_on = { λ a b c. follows_on a.link b.link c.link };

    fn get(&mut self, _alloc: Global, digest: Digest) -> Result<Vec<u8>, Refusal>
        ensures given { IfOk result (λ item. MayGive self.old.link item.items) }
        ensures got { IfOk result (λ item. Exchanged (request.Get digest) self.old.link
            self.new.link (reply.Item item.items)) }
        ensures missing { result ≡ Err MissingBlock → Exchanged (request.Get digest) self.old.link
            self.new.link (reply.Refused (refusal_number MissingBlock) 0) }
        ensures failed { result ≡ Err SourceFailed → self.new.link.failed ≡ true }
        ensures refused { IfErr result (λ e.
            (e ≡ MissingBlock) ⊎ (e ≡ SourceFailed) ⊎ (e ≡ NoMemory)) }
        ensures follows { Follows self.old.link self.new.link }
        ensures no_more { (s : List ℕ) → MayGive self.new.link s → MayGive self.old.link s }
        ensures counted { self.new.failures ≡ failures_after result digest self.old.failures }
    {
        match self.get_item(digest) {
            Ok(item) => Ok(item),
            Err(refusal) => {
                let refusal = of_source(refusal);
                self.failures.note(&refusal, digest);
                Err(refusal)
            }
        }
    }

    fn put(&mut self, alloc: Global, item: &[u8]) -> Result<Digest, Refusal>
        ensures digest { IfOk result (λ digest. digest ≡ sha256 item.now) }
        ensures puts { OnOk result (Exchanged (request.Put item.now) self.old.link self.new.link
            (reply.PutDone (sha256 item.now))) }
        ensures failed { result ≡ Err SourceFailed → self.new.link.failed ≡ true }
        ensures follows { Follows self.old.link self.new.link }
        ensures too_big { (result ≡ Err TooBig) ↔ (is_item item.now ≡ false) }
        ensures refused { IfErr result (λ e. (e ≡ TooBig) ⊎ (e ≡ SourceFailed) ⊎ (e ≡ NoMemory)) }
        ensures no_more { (s : List ℕ) → MayGive self.new.link s → MayGive self.old.link s }
        ensures counted { self.new.failures
            ≡ failures_after result (sha256 item.now) self.old.failures }
    {
        if item.is_empty() || LONGEST_ITEM < item.len() {
            return Err(Refusal::TooBig);
        }
        let copy = Vec::from_slice(alloc, item)?;
        let digest = digest_of(item);
        match self.put_item(copy) {
            Ok(held) => {
                if held == digest {
                    return Ok(digest);
                }
            }
            Err(Refusal::NoMemory) => return Err(Refusal::NoMemory),
            Err(_) => {}
        }
        self.link.fail();
        self.failures.add(digest);
        Err(Refusal::SourceFailed)
    }

    fn failures(&self) -> u64 {
        self.failures.count
    }

    fn failed_at(&self) -> Option<Digest> {
        self.failures.last
    }
}
