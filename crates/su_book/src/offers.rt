// Commits that are offered, and examined before their turn.
ghost use Rattle.std.specs.Prelude.{◌≡◌};
ghost use Rattle.su_book.specs.Offer.{IsFoundIn, IsVerdict};

use crate::commits::HashedCommit;
use std::alloc::Global;
use std::marker::Model;
use su_bytes::{FileId, Refusal, User};
use su_lms::PublicKey;
use su_version::Verdict;

/// The commit that bytes spell, and whether it is signed, under which key; no verdict where that
/// isn't known.
#[derive(Drop)]
pub(crate) struct Found {
    pub(crate) commit: HashedCommit,
    pub(crate) verdict: Option<Verdict>,
}

/// The bytes of a commit that is offered, and what was found out of them before its turn comes: the
/// commit with a verdict on its signature, or why there is none; nothing where that isn't known. Its
/// model is the bytes.
#[derive(Drop)]
pub struct Offer {
    bytes: Vec<u8>,
    found: Option<Result<Found, Refusal>>,
}

impl Model for Offer {
    ghost use Rattle.std.specs.Prelude.{ℕ, IfSome};
    ghost use Rattle.std.specs.Global.{Vec};
    ghost use Rattle.su_book.specs.Offer.{IsFoundIn};

    ghost Value = { Vec ℕ };

    ghost view = { λ o. o.bytes };

    ghost invariant = { λ o. IfSome o.found (IsFoundIn o.bytes.items) };
}

impl Offer {
    /// Makes the offer of these bytes, of which nothing is found out yet.
    pub fn new(bytes: Vec<u8>) -> Offer
        ensures { result ≡ bytes }
    {
        Offer { bytes, found: None }
    }

    /// Finds out which commit the bytes spell, or why there is none. Returns its author, if there is
    /// one.
    pub fn read(&mut self, alloc: Global) -> Option<User>
        ensures { self.new ≡ self.old }
    {
        let found = read(alloc, self.bytes.as_slice());
        let author = author_of(&found);
        self.found = Some(found);
        author
    }

    /// Finds out whether the commit that was read is signed under a key. Without memory for the
    /// check that isn't known. It makes one check of a signature.
    pub fn examine(&mut self, alloc: Global, key: Option<PublicKey>)
        ensures { self.new ≡ self.old }
    {
        self.found = match self.found.take() {
            Some(Ok(found)) => Some(Ok(examined(alloc, key, found))),
            other => other,
        };
    }

    /// Lends the bytes.
    pub fn bytes(&self) -> &Vec<u8>
        ensures { result.now ≡ self.now }
    {
        &self.bytes
    }

    /// Gives the bytes up.
    pub fn into_bytes(self) -> Vec<u8>
        ensures { result ≡ self }
    {
        self.bytes
    }

    /// Gives up what was found out of the bytes. Where that is nothing, or was given up before, it
    /// is found out without a verdict. `Malformed` where they are no commit's, with the place of
    /// the first part that isn't there; `NoMemory`.
    pub(crate) fn give_up(&mut self, alloc: Global) -> Result<Found, Refusal>
        ensures same { self.new ≡ self.old }
        ensures found { IsFoundIn self.old.items result }
    {
        match self.found.take() {
            Some(found) => found,
            None => read(alloc, self.bytes.as_slice()),
        }
    }
}

/// Finds out which commit the bytes spell, without a verdict on it, or why there is none.
fn read(alloc: Global, bytes: &[u8]) -> Result<Found, Refusal>
    ensures { IsFoundIn bytes.now result }
{
    let commit = HashedCommit::decode(alloc, bytes)?;
    Ok(Found {
        commit,
        verdict: None,
    })
}

/// Returns the author of what was found to be a commit.
fn author_of(found: &Result<Found, Refusal>) -> Option<User> {
    match found {
        Ok(found) => Some(found.commit.author()),
        Err(_) => None,
    }
}

/// Finds out whether a commit is signed under a key. Without memory for the check there is no verdict.
fn examined(alloc: Global, key: Option<PublicKey>, found: Found) -> Found
    ensures commit { result.commit ≡ found.commit }
    ensures verdict { IsVerdict result.commit result.verdict }
{
    // names the type for the prover (docs/ARCHITECTURE.md, "Forms the kit wants")
    let _file: Option<FileId> = None;
    let verdict = Verdict::of(alloc, key, found.commit.commit()).ok();
    Found {
        commit: found.commit,
        verdict,
    }
}
