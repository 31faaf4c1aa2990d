// Records of a log.
ghost use Rattle.std.specs.Prelude.{◌≡◌, ℕ, List, Some, IfOk, IfErr, OnErr};
ghost use Rattle.sha2.specs.Sha256.{sha256};
ghost use Rattle.su_version.specs.Commit.{commit_format};
ghost use Rattle.su_log.specs.Log.{Reads, PassesPart};
ghost use Rattle.su_log.specs.Record.{AreDigests, HasDigests, IsRead, IsVerdict, ReadsNext, StaysAt};

use crate::parts::{Part, next_part};
use sha2::Sha256;
use std::alloc::Global;
use std::io;
use std::io::Read;
use su_bytes::{Digest, FileId, Refusal};
use su_lms::PublicKey;
use su_version::{Commit, Verdict};

/// The SHA-256 of what a log has of a commit: of the commit's bytes, and of the item.
#[derive(Clone, Copy, Debug)]
pub struct Digests {
    pub commit: Digest,
    pub item: Digest,
}

impl Digests {
    /// Finds the digests of these bytes of a commit, and of this item.
    pub fn of(commit: &[u8], item: &[u8]) -> Digests
        ensures { AreDigests commit.now item.now result }
    {
        Digests {
            commit: digest_of(commit),
            item: digest_of(item),
        }
    }
}

/// The SHA-256 of these bytes.
fn digest_of(bytes: &[u8]) -> Digest
    ensures { result ≡ sha256 bytes.now }
{
    Digest::new(<Sha256 as sha2::Digest>::digest(bytes))
}

/// What a log has of a commit, and what is found out of it before its turn comes.
#[derive(Drop)]
pub struct Record {
    /// The bytes of the commit.
    pub bytes: Vec<u8>,
    /// The item.
    pub item: Vec<u8>,
    /// The commit that the bytes spell, or why there is none.
    pub commit: Result<Commit, Refusal>,
    /// The key under which the commit is examined: the one that its author is presumed to have.
    pub key: Option<PublicKey>,
    /// Whether the commit is signed, under which key; none where that isn't known.
    pub verdict: Option<Verdict>,
    /// The digests of the bytes and of the item, once they are found.
    pub digests: Option<Digests>,
}

impl Record {
    /// Finds out whether the commit is signed under the key that is set, and the digests. Without
    /// memory for the former, it isn't known.
    pub fn examine(&mut self, alloc: Global)
        ensures verdict { IsVerdict self.new.commit self.new.verdict }
        ensures digests { HasDigests self.new }
        ensures same { self.new ≡ record self.old {
          verdict = self.new.verdict;
          digests = self.new.digests;
        } }
    {
        self.verdict = verdict_on(alloc, self.key, &self.commit);
        self.digests = Some(Digests::of(self.bytes.as_slice(), self.item.as_slice()));
    }
}

/// Whether a commit is signed under that key; none where there is no commit, or no memory.
fn verdict_on(
    alloc: Global,
    key: Option<PublicKey>,
    commit: &Result<Commit, Refusal>,
) -> Option<Verdict>
    ensures { IsVerdict commit.now result }
{
    // names the type for the prover (docs/ARCHITECTURE.md, "Forms the kit wants")
    let _file: Option<FileId> = None;
    match commit {
        Ok(commit) => Verdict::of(alloc, key, commit).ok(),
        Err(_) => None,
    }
}

/// Why no record comes next in a log.
#[derive(Drop)]
pub enum Stop {
    /// The log ends.
    End,
    /// The number of bytes at this place is cut, or goes past the end.
    Cut(u64),
    /// The log can't be read.
    Failed(io::Error),
}

/// A log that is read, and how many bytes of it were.
#[derive(Drop)]
pub struct Log<R> {
    pub reader: R,
    pub place: u64,
}

impl<R: Read + Drop> Log<R> {
    /// Makes the log that this reader gives, of which nothing is read yet.
    pub fn new(reader: R) -> Log<R>
        ensures reader { result.reader ≡ reader }
        ensures place { result.place ≡ 0 }
    {
        Log { reader, place: 0 }
    }

    /// Reads the next record, and the commit that its bytes spell. Fails where there is none; at the
    /// end the log stands where it stood.
    pub fn next_record(&mut self, alloc: Global) -> Result<Record, Stop>
        ensures read { IfOk result (λ r. IsRead r.bytes.items r.commit) }
        ensures next { (input : List ℕ) → R.remaining self.old.reader ≡ Some input
            → ReadsNext result self.old.place input self.new.place
            (R.remaining self.new.reader) }
        ensures stays { IfErr result (λ stop. StaysAt stop self.old.place self.new.place) }
    {
        let start = self.place;
        let bytes = match self.next_part(alloc) {
            Ok(Part::Bytes(bytes)) => bytes,
            Ok(Part::Cut) => return Err(Stop::Cut(start)),
            Ok(Part::End) => return Err(Stop::End),
            Err(error) => return Err(Stop::Failed(error)),
        };
        let start = self.place;
        let item = match self.next_part(alloc) {
            Ok(Part::Bytes(bytes)) => bytes,
            Ok(Part::Cut) => return Err(Stop::Cut(start)),
            Ok(Part::End) => return Err(Stop::Cut(start)),
            Err(error) => return Err(Stop::Failed(error)),
        };
        let commit = Commit::decode(alloc, bytes.as_slice());
        Ok(Record {
            bytes,
            item,
            commit,
            key: None,
            verdict: None,
            digests: None,
        })
    }

    /// Reads the next part. Its place is then behind it.
    fn next_part(&mut self, alloc: Global) -> io::Result<Part>
        ensures part { IfOk result (λ part. (input : List ℕ)
            → R.remaining self.old.reader ≡ Some input
            → Reads part input (R.remaining self.new.reader)) }
        ensures place { IfOk result (PassesPart self.old.place self.new.place) }
        ensures err { OnErr result (self.new.place ≡ self.old.place) }
    {
        let part = next_part(alloc, &mut self.reader)?;
        if let Part::Bytes(bytes) = &part {
            let Some(place) = self.place.checked_add(4 + bytes.len() as u64) else {
                return Err(io::Error::other("it has no end"));
            };
            self.place = place;
        }
        Ok(part)
    }
}
