// Where items lie in a scratch.
ghost use Rattle.std.specs.Prelude.{◌≡◌, ◌⊎◌, ℕ, ◌<◌, ◌++◌, List, [], ◌∷◌, IfOk, IfErr, OnOk, OnErr, length};
ghost use Rattle.su_bytes.specs.declared.refusals.Refusal.TheVariants.{SourceFailed, NoMemory};
ghost use Rattle.su_scratch.specs.Places.{place_under, bucket_at, AreHeld};

use crate::buckets::{Bucket, bucket_of};
use crate::notes::{Note, Place};
use crate::scratches::Scratch;
use http_server::Log;
use std::alloc::{AllocError, Global};
use std::marker::Model;
use su_bytes::{Digest, Refusal};

/// Where items lie, by their digests, in 4,096 buckets of which each has a page of notes in memory at
/// most, and the others in the scratch. Its model is all notes that were made, and what is in memory.
#[derive(Drop)]
pub(crate) struct Places {
    /// As many as were needed so far.
    buckets: Vec<Bucket>,
    /// All notes, which proofs read. (`Log` is the kit's list that no memory holds.)
    noted: Log<Digest, Place>,
}

impl Model for Places {
    ghost use Rattle.su_scratch.specs.Places.{Noted};

    ghost Value = { Noted };

    ghost view = { λ p. record { noted = p.noted.items; buckets = p.buckets.items } };
}

impl Places {
    /// Begins with no item.
    pub(crate) fn new(alloc: Global) -> Places
        ensures { result ≡ record { noted = []; buckets = [] } }
    {
        Places {
            buckets: Vec::new(alloc),
            noted: Log::new(),
        }
    }

    /// Finds where the item of a digest lies, if it was noted. `SourceFailed` where a page can't be
    /// read, `NoMemory`.
    pub(crate) fn find<F: Scratch>(
        &self,
        alloc: Global,
        scratch: &mut F,
        digest: &Digest,
    ) -> Result<Option<Place>, Refusal>
        ensures found { F.keeps scratch.old → AreHeld (F.written scratch.old) self.now
            → IfOk result (λ place. place ≡ place_under self.now.noted digest.now) }
        ensures refused { IfErr result (λ e. (e ≡ SourceFailed) ⊎ (e ≡ NoMemory)) }
        ensures no_more { (s : List ℕ) → F.may_give scratch.new s → F.may_give scratch.old s }
        ensures keeps { F.keeps scratch.old → F.keeps scratch.new }
        ensures unchanged { F.keeps scratch.old
            → F.written scratch.new ≡ F.written scratch.old }
    {
        match self.buckets.get(bucket_of(digest)) {
            Some(bucket) => bucket.find(alloc, scratch, digest),
            None => Ok(None),
        }
    }

    /// Notes where the item of a digest lies. `SourceFailed` where a page can't be written, `NoMemory`;
    /// then nothing is noted.
    pub(crate) fn add<F: Scratch>(
        &mut self,
        alloc: Global,
        scratch: &mut F,
        note: Note,
    ) -> Result<(), Refusal>
        ensures added { OnOk result
            (self.new.noted ≡ self.old.noted ++ (note.digest, note.place) ∷ []) }
        ensures unnoted { OnErr result (self.new.noted ≡ self.old.noted) }
        ensures held { F.keeps scratch.old → AreHeld (F.written scratch.old) self.old
            → AreHeld (F.written scratch.new) self.new }
        ensures refused { IfErr result (λ e. (e ≡ SourceFailed) ⊎ (e ≡ NoMemory)) }
        ensures no_more { (s : List ℕ) → F.may_give scratch.new s → F.may_give scratch.old s }
        ensures keeps { F.keeps scratch.old → F.keeps scratch.new }
    {
        let index = bucket_of(&note.digest);
        make_bucket(&mut self.buckets, alloc, index)?;
        let bucket = &mut self.buckets[index];
        bucket.add(alloc, scratch, note)?;
        self.noted = self.noted.and(&note.digest, &note.place);
        Ok(())
    }
}

/// Makes the bucket of a number, where there is none yet. Fails only where memory is refused.
fn make_bucket(buckets: &mut Vec<Bucket>, alloc: Global, index: usize) -> Result<(), AllocError>
    ensures made { OnOk result (index < length buckets.new.items) }
    ensures same { (i : ℕ) → bucket_at buckets.new.items i ≡ bucket_at buckets.old.items i }
{
    while buckets.len() <= index {
        buckets.push(Bucket::new(alloc))?;
    }
    Ok(())
}
