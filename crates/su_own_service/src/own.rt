// A service that owns what it serves.
ghost use Rattle.std.specs.Prelude.{◌≡◌};
ghost use Rattle.su_book.specs.Machine.{TellsRecords, count_of};
ghost use Rattle.su_message.specs.declared.requests.Request.TheVariants as request;
ghost use Rattle.su_own_service.specs.Kept.{said};
ghost use Rattle.su_own_service.specs.Own.{Answers, reply_of};

use std::alloc::Global;
use std::marker::Model;
use su_block::{BlockSource, MemoryBlocks};
use su_book::{Book, BookReply, Event, Offer};
use su_bytes::{Digest, Refusal};
use su_message::{Bytes, LastNumbers, Reply, Request};
use su_session::Service;

/// The seat of whoever is served.
pub const SEAT: u16 = 0;

/// A service for one session at a time, which has a seat of its book. Its model is the book, and
/// the items that are held.
#[derive(Drop)]
pub struct OwnService {
    book: Book,
    blocks: MemoryBlocks,
    records: Vec<Bytes>,
}

impl Model for OwnService {
    ghost use Rattle.std.specs.Prelude.{◌≡◌};
    ghost use Rattle.su_own_service.specs.Kept.{bytes_of};
    ghost use Rattle.su_own_service.specs.Own.{Owned};

    ghost Value = { Owned };

    ghost view = { λ s. record { book = s.book; items = s.blocks.items } };

    ghost invariant = { λ s. s.records.items ≡ bytes_of s.book };
}

impl OwnService {
    /// Makes the service of a book that has no records yet, and of these items. (What a log has is
    /// asked of it anew, commit by commit.)
    pub fn new(alloc: Global, book: Book, blocks: MemoryBlocks) -> OwnService
        requires empty { count_of book.journal ≡ 0 }
        ensures { result ≡ record { book = book; items = blocks.items } }
    {
        OwnService {
            book,
            blocks,
            records: Vec::new(alloc),
        }
    }

    /// Lends the book.
    pub fn book(&self) -> &Book
        ensures { result.now ≡ self.now.book }
    {
        &self.book
    }

    fn grant(&mut self) -> Result<Reply, Refusal>
        ensures { Answers self.old request.Grant (said result) self.new }
    {
        let reply = self.book.step(SEAT, &mut Event::Grant)?;
        Ok(told(reply))
    }

    /// Stores a commit. What memory its bytes take is there before the book makes the step.
    fn store(&mut self, alloc: Global, commit: &Bytes) -> Result<Reply, Refusal>
        ensures { Answers self.old (request.Commit commit.now) (said result) self.new }
    {
        let bytes = Vec::from_slice(alloc, commit.as_slice())?;
        let mut event = Event::Commit(Offer::new(bytes));
        self.records.reserve(1)?;
        let reply = self.book.step(SEAT, &mut event)?;
        let Event::Commit(offer) = event else {
            unreachable!()
        };
        self.records.push_reserved(Bytes::new(offer.into_bytes()));
        Ok(told(reply))
    }

    fn give(&mut self) -> Result<Reply, Refusal>
        ensures { Answers self.old request.Give (said result) self.new }
    {
        let reply = self.book.step(SEAT, &mut Event::Give)?;
        Ok(told(reply))
    }

    fn fetch(&self, alloc: Global, number: u64) -> Result<Reply, Refusal>
        ensures { Answers self.now (request.Fetch number) (said result) self.now }
    {
        if number == 0 {
            return Ok(Reply::Nothing);
        }
        let Some(bytes) = self.records.get((number - 1) as usize) else {
            return Ok(Reply::Nothing);
        };
        let copy = Bytes::copy_of(alloc, bytes.as_slice())?;
        Ok(Reply::Kept(copy))
    }

    fn put(&mut self, alloc: Global, item: &Bytes) -> Result<Reply, Refusal>
        ensures { Answers self.old (request.Put item.now) (said result) self.new }
    {
        let digest = self.blocks.put(alloc, item.as_slice())?;
        Ok(Reply::PutDone(digest))
    }

    fn get(&mut self, alloc: Global, digest: Digest) -> Result<Reply, Refusal>
        ensures { Answers self.old (request.Get digest) (said result) self.new }
    {
        let item = self.blocks.get(alloc, digest)?;
        Ok(Reply::Item(Bytes::new(item)))
    }
}

/// Returns the reply that tells what a book tells.
pub fn told(reply: BookReply) -> Reply
    requires { TellsRecords reply }
    ensures { result ≡ reply_of reply }
{
    match reply {
        BookReply::Granted { count, last } => Reply::Granted(count, LastNumbers::new(last)),
        BookReply::Stored { number } => Reply::Stored(number),
        BookReply::Given => Reply::Given,
    }
}

/// Returns the reply, or the one that tells of the refusal.
pub fn reply_or_refusal(reply: Result<Reply, Refusal>) -> Reply
    ensures { result ≡ said reply }
{
    match reply {
        Ok(reply) => reply,
        Err(refusal) => Reply::refused(&refusal),
    }
}

impl Service for OwnService {
    ghost answers = { Answers };

    fn answer(&mut self, alloc: Global, request: &Request) -> Reply {
        match request {
            Request::Grant => reply_or_refusal(self.grant()),
            Request::Commit(commit) => reply_or_refusal(self.store(alloc, commit)),
            Request::Give => reply_or_refusal(self.give()),
            Request::Fetch(number) => reply_or_refusal(self.fetch(alloc, *number)),
            Request::Put(item) => reply_or_refusal(self.put(alloc, item)),
            Request::Get(digest) => reply_or_refusal(self.get(alloc, *digest)),
        }
    }
}
