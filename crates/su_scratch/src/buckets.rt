// Notes of digests that begin alike.
ghost use Rattle.std.specs.Prelude.{◌≡◌, ◌⊎◌, ℕ, ◌<◌, ◌++◌, List, [], ◌∷◌, Option, None, IfOk, IfErr, OnOk, OnErr, length};
ghost use Rattle.su_bytes.specs.declared.refusals.Refusal.TheVariants.{SourceFailed, NoMemory};
ghost use Rattle.su_scratch.specs.Page.{place_in};
ghost use Rattle.su_scratch.specs.Bucket.{bucket_of, Finds, found_with, Grows};
ghost use Rattle.su_scratch.specs.declared.notes.Place.{Place as Place_};

use crate::chains::find_on_pages;
use crate::notes::{Note, Place};
use crate::pages::{NOTES_OF_A_PAGE, page_bytes};
use crate::scratches::Scratch;
use std::alloc::{AllocError, Global};
use std::marker::Model;
use su_bytes::{Digest, Refusal};

/// How many buckets there are: one for each of the first 12 bits of a digest.
pub(crate) const BUCKETS: usize = 4_096;

/// The notes of the digests of one bucket: in memory those that no page has, a page's at most, and where
/// the newest page lies. It takes no memory before it has a note.
#[derive(Drop)]
pub(crate) struct Bucket {
    notes: Vec<Note>,
    page: Option<u64>,
}

impl Model for Bucket {
    ghost use Rattle.std.specs.Prelude.{◌≤◌, length};
    ghost use Rattle.su_scratch.specs.Bucket.{InMemory};
    ghost use Rattle.su_scratch.specs.declared.pages.TheConstants.{NOTES_OF_A_PAGE};

    ghost Value = { InMemory };

    ghost view = { λ b. record { notes = b.notes.items; page = b.page } };

    ghost invariant = { λ b. length b.notes.items ≤ NOTES_OF_A_PAGE };
}

/// Returns the number of the bucket of a digest: its first 12 bits.
pub(crate) fn bucket_of(digest: &Digest) -> usize
    ensures value { result ≡ bucket_of digest.now }
    ensures few { result < BUCKETS }
{
    let bytes = digest.as_bytes();
    usize::from(bytes[0]) * 16 + usize::from(bytes[1] / 16)
}

impl Bucket {
    /// Begins with no note.
    pub(crate) fn new(alloc: Global) -> Bucket
        ensures { result ≡ record { notes = []; page = None } }
    {
        Bucket {
            notes: Vec::new(alloc),
            page: None,
        }
    }

    /// Finds where the item of a digest lies, if a note says so: in memory, else on the pages.
    /// `SourceFailed` where a page can't be read, `NoMemory`.
    pub(crate) fn find<F: Scratch>(
        &self,
        alloc: Global,
        scratch: &mut F,
        digest: &Digest,
    ) -> Result<Option<Place>, Refusal>
        ensures found { (found : List ℕ → Option Place_) → F.keeps scratch.old
            → Finds (bucket_of digest.now) (F.written scratch.old) self.now found
            → IfOk result (λ place. place ≡ found digest.now) }
        ensures refused { IfErr result (λ e. (e ≡ SourceFailed) ⊎ (e ≡ NoMemory)) }
        ensures no_more { (s : List ℕ) → F.may_give scratch.new s → F.may_give scratch.old s }
        ensures keeps { F.keeps scratch.old → F.keeps scratch.new }
        ensures unchanged { F.keeps scratch.old
            → F.written scratch.new ≡ F.written scratch.old }
    {
        match place_in(&self.notes, digest) {
            Some(place) => Ok(Some(place)),
            None => find_on_pages(alloc, scratch, self.page, digest),
        }
    }

    /// Adds a note. Where memory has as many as a page, these are written as one before. `SourceFailed`
    /// where that fails, `NoMemory`; then nothing is noted.
    pub(crate) fn add<F: Scratch>(
        &mut self,
        alloc: Global,
        scratch: &mut F,
        note: Note,
    ) -> Result<(), Refusal>
        ensures added { (i : ℕ) (found : List ℕ → Option Place_) → F.keeps scratch.old
            → Finds i (F.written scratch.old) self.old found
            → OnOk result (Finds i (F.written scratch.new) self.new (found_with found note)) }
        ensures err { (i : ℕ) (found : List ℕ → Option Place_) → F.keeps scratch.old
            → Finds i (F.written scratch.old) self.old found
            → OnErr result (Finds i (F.written scratch.new) self.new found) }
        ensures refused { IfErr result (λ e. (e ≡ SourceFailed) ⊎ (e ≡ NoMemory)) }
        ensures no_more { (s : List ℕ) → F.may_give scratch.new s → F.may_give scratch.old s }
        ensures keeps { F.keeps scratch.old → F.keeps scratch.new }
        ensures grows { F.keeps scratch.old
            → Grows (F.written scratch.old) (F.written scratch.new) }
    {
        note.can_be_told();
        self.make_room(alloc, scratch)?;
        self.push(note)?;
        Ok(())
    }

    /// Writes the notes in memory as a page, where they are as many.
    fn make_room<F: Scratch>(&mut self, alloc: Global, scratch: &mut F) -> Result<(), Refusal>
        ensures room { OnOk result (length self.new.notes < NOTES_OF_A_PAGE) }
        ensures same { (i : ℕ) (found : List ℕ → Option Place_) → F.keeps scratch.old
            → Finds i (F.written scratch.old) self.old found
            → Finds i (F.written scratch.new) self.new found }
        ensures refused { IfErr result (λ e. (e ≡ SourceFailed) ⊎ (e ≡ NoMemory)) }
        ensures no_more { (s : List ℕ) → F.may_give scratch.new s → F.may_give scratch.old s }
        ensures keeps { F.keeps scratch.old → F.keeps scratch.new }
        ensures grows { F.keeps scratch.old
            → Grows (F.written scratch.old) (F.written scratch.new) }
    {
        if self.notes.len() < NOTES_OF_A_PAGE {
            return Ok(());
        }
        let place = scratch.end();
        let page = page_bytes(alloc, self.page, &self.notes)?;
        scratch.append(&page)?;
        self.page = Some(place);
        self.notes.clear();
        Ok(())
    }

    /// Adds a note to those in memory. Fails only where memory is refused; then nothing changes.
    fn push(&mut self, note: Note) -> Result<(), AllocError>
        requires { length self.old.notes < NOTES_OF_A_PAGE }
        ensures page { self.new.page ≡ self.old.page }
        ensures added { OnOk result (self.new.notes ≡ self.old.notes ++ note ∷ []) }
        ensures err { OnErr result (self.new.notes ≡ self.old.notes) }
    {
        self.notes.push(note)?;
        Ok(())
    }
}

/// Returns where the item of a digest lies by the last of these notes that is about it, if one is.
fn place_in(notes: &[Note], digest: &Digest) -> Option<Place>
    ensures { result ≡ place_in digest.now notes.now }
{
    let mut found = None;
    for note in notes {
        found = note.tells(digest, found);
    }
    found
}
