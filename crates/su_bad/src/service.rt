// What the server replies.
ghost use Rattle.std.specs.Prelude.{◌≡◌, ◌⊎◌};
ghost use Rattle.su_message.specs.declared.requests.Request.TheVariants as request;
ghost use Rattle.su_bad.specs.Replies.{Answers, LacksMemory, Shows, beside, is_wrong, said};

use crate::servers::BadServer;
use std::alloc::Global;
use su_block::BlockSource;
use su_bytes::{Digest, Refusal};
use su_message::{Bytes, LastNumbers, Reply, Request};
use su_session::Service;

impl BadServer {
    fn grant(&self, alloc: Global) -> Result<Reply, Refusal>
        ensures { Shows self.now request.Grant (said result) self.now
            ⊎ LacksMemory self.now (said result) self.now }
    {
        let last = Vec::from_slice(alloc, self.last.as_slice())?;
        Ok(Reply::Granted(self.records.len() as u64, LastNumbers::new(last)))
    }

    fn store(&mut self, alloc: Global, commit: &Bytes) -> Result<Reply, Refusal>
        ensures { Shows self.old (request.Commit commit.now) (said result) self.new
            ⊎ LacksMemory self.old (said result) self.new }
    {
        let copy = Bytes::copy_of(alloc, commit.as_slice())?;
        self.records.push(Some(copy))?;
        Ok(Reply::Stored(self.records.len() as u64))
    }

    fn fetch(&self, alloc: Global, number: u64) -> Result<Reply, Refusal>
        ensures { Shows self.now (request.Fetch number) (said result) self.now
            ⊎ LacksMemory self.now (said result) self.now }
    {
        if !self.has(number as usize) {
            return Ok(Reply::Nothing);
        }
        match &self.records[(number - 1) as usize] {
            Some(bytes) => Ok(Reply::Kept(Bytes::copy_of(alloc, bytes.as_slice())?)),
            None => Ok(Reply::Nothing),
        }
    }

    fn put(&mut self, alloc: Global, item: &Bytes) -> Result<Reply, Refusal>
        ensures { Shows self.old (request.Put item.now) (said result) self.new
            ⊎ LacksMemory self.old (said result) self.new }
    {
        let digest = self.blocks.put(alloc, item.as_slice())?;
        Ok(Reply::PutDone(digest))
    }

    /// Returns whether other bytes are given for this digest.
    fn is_wrong(&self, digest: Digest) -> bool
        ensures { result ≡ is_wrong self.now digest }
    {
        self.wrong.contains(&digest)
    }

    fn get(&mut self, alloc: Global, digest: Digest) -> Result<Reply, Refusal>
        ensures { Shows self.old (request.Get digest) (said result) self.new
            ⊎ LacksMemory self.old (said result) self.new }
    {
        if self.is_wrong(digest) {
            let item = Vec::from_slice(alloc, &[0])?;
            return Ok(Reply::Item(Bytes::new(item)));
        }
        let item = self.blocks.get(alloc, digest)?;
        Ok(Reply::Item(Bytes::new(item)))
    }

    fn say(&mut self, alloc: Global, request: &Request) -> Result<Reply, Refusal>
        ensures { Shows self.old request.now (said result) self.new
            ⊎ LacksMemory self.old (said result) self.new }
    {
        match request {
            Request::Grant => self.grant(alloc),
            Request::Commit(commit) => self.store(alloc, commit),
            Request::Give => Ok(Reply::Given),
            Request::Fetch(number) => self.fetch(alloc, *number),
            Request::Put(item) => self.put(alloc, item),
            Request::Get(digest) => self.get(alloc, *digest),
        }
    }
}

/// Returns a reply that doesn't fit the request.
fn beside(request: &Request) -> Reply
    ensures { result ≡ beside request.now }
{
    match request {
        Request::Give => Reply::Nothing,
        _ => Reply::Given,
    }
}

/// Returns the reply, or the one that tells of the refusal.
fn reply_or_refusal(reply: Result<Reply, Refusal>) -> Reply
    ensures { result ≡ said reply }
{
    match reply {
        Ok(reply) => reply,
        Err(refusal) => Reply::refused(&refusal),
    }
}

impl Service for BadServer {
    ghost answers = { Answers };

    fn answer(&mut self, alloc: Global, request: &Request) -> Reply {
        if self.is_mute {
            return beside(request);
        }
        reply_or_refusal(self.say(alloc, request))
    }
}
