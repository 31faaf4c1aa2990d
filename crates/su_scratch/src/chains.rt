// The pages of a bucket, of which each tells where the one before it lies.
ghost use Rattle.std.specs.Prelude.{◌≡◌, ◌⊎◌, ℕ, ◌<◌, List, Option, IfOk, IfErr, IfSome, IsTrue, ◌↔◌};
ghost use Rattle.su_bytes.specs.declared.refusals.Refusal.TheVariants.{SourceFailed, NoMemory};
ghost use Rattle.su_scratch.specs.Page.{place_in};
ghost use Rattle.su_scratch.specs.Bucket.{Pages, newest_of, IsPageAt, AreWritten, found_on};
ghost use Rattle.su_scratch.specs.declared.notes.Note.{Note};

use crate::notes::Place;
use crate::pages::{PAGE_LENGTH, Told, read_page};
use crate::scratches::Scratch;
use std::alloc::Global;
use su_bytes::{Digest, Refusal};

/// Finds where the item of a digest lies by the last note that is about it on the newest of these
/// pages and those before it. `SourceFailed` where one can't be read as a page, or doesn't lie behind
/// the one before it; `NoMemory`.
pub(crate) fn find_on_pages<F: Scratch>(
    alloc: Global,
    scratch: &mut F,
    newest: Option<u64>,
    digest: &Digest,
) -> Result<Option<Place>, Refusal>
    ensures found { (pages : Pages) → F.keeps scratch.old
        → AreWritten (F.written scratch.old) pages → newest ≡ newest_of pages
        → IfOk result (λ found. found ≡ found_on digest.now pages) }
    ensures refused { IfErr result (λ e. (e ≡ SourceFailed) ⊎ (e ≡ NoMemory)) }
    ensures no_more { (s : List ℕ) → F.may_give scratch.new s → F.may_give scratch.old s }
    ensures keeps { F.keeps scratch.old → F.keeps scratch.new }
    ensures unchanged { F.keeps scratch.old → F.written scratch.new ≡ F.written scratch.old }
{
    let mut next = newest;
    while let Some(place) = next {
        let told = page_at(alloc, scratch, place, digest)?;
        if told.found.is_some() {
            return Ok(told.found);
        }
        next = told.older;
    }
    Ok(None)
}

/// Reads what the page at a place tells of a digest. The page before it lies further in front.
fn page_at<F: Scratch>(
    alloc: Global,
    scratch: &mut F,
    place: u64,
    digest: &Digest,
) -> Result<Told, Refusal>
    ensures told { (older : Option ℕ) (notes : List Note) → F.keeps scratch.old
        → IsPageAt (F.written scratch.old) place older notes
        → IfOk result (λ told. (told.older ≡ older) × (told.found ≡ place_in digest.now notes)) }
    ensures descends { IfOk result (λ told. IfSome told.older (λ before. before < place)) }
    ensures refused { IfErr result (λ e. (e ≡ SourceFailed) ⊎ (e ≡ NoMemory)) }
    ensures no_more { (s : List ℕ) → F.may_give scratch.new s → F.may_give scratch.old s }
    ensures keeps { F.keeps scratch.old → F.keeps scratch.new }
    ensures unchanged { F.keeps scratch.old → F.written scratch.new ≡ F.written scratch.old }
{
    let page = scratch.read(alloc, place, PAGE_LENGTH)?;
    let told = read_page(&page, digest)?;
    if !is_before(told.older, place) {
        return Err(Refusal::SourceFailed);
    }
    Ok(told)
}

/// Tells whether a page, if there is one, lies further in front than this place.
fn is_before(page: Option<u64>, place: u64) -> bool
    ensures { IsTrue result ↔ IfSome page (λ before. before < place) }
{
    match page {
        Some(before) => before < place,
        None => true,
    }
}
