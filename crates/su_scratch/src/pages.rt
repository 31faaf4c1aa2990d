// Pages of notes.
ghost use Rattle.std.specs.Prelude.{◌≡◌, ◌⊎◌, ◌++◌, ℕ, List, [], Option, Ok, IfOk, IfErr, IfSome, OnOk, OnErr, length, ◌<◌, ◌^◌};
ghost use Rattle.std.specs.List.{flat_map, AllByRecursion};
ghost use Rattle.su_bytes.specs.declared.refusals.Refusal.TheVariants.{SourceFailed};
ghost use Rattle.su_scratch.specs.Page.{note_bytes, older_bytes, page_bytes, place_in, IsNote, IsPage};
ghost use Rattle.su_scratch.specs.declared.notes.Note.{Note as Note_};

use crate::notes::{Note, Place};
use std::alloc::{AllocError, Global};
use su_bytes::{Digest, FileId, Refusal};
use su_format::{Reader, Writer};

/// How many notes a page has.
pub(crate) const NOTES_OF_A_PAGE: usize = 4;

/// How many bytes a page has: 9 for the place of the page before it, and 44 for each note.
pub(crate) const PAGE_LENGTH: usize = 185;

/// What a page tells of a digest.
#[derive(Clone, Copy, Debug)]
pub(crate) struct Told {
    /// Where the page before it lies, if there is one.
    pub(crate) older: Option<u64>,
    /// Where the item of the digest lies, if a note says so.
    pub(crate) found: Option<Place>,
}

/// Makes the bytes of a page. Fails only where memory is refused.
pub(crate) fn page_bytes(
    alloc: Global,
    older: Option<u64>,
    notes: &[Note],
) -> Result<Vec<u8>, AllocError>
    ensures { IfOk result (λ bytes. bytes.items ≡ page_bytes older notes.now) }
{
    let mut writer = Writer::with_room(alloc, PAGE_LENGTH)?;
    put_older(&mut writer, older)?;
    for note in notes {
        put_note(&mut writer, note)?;
    }
    Ok(writer.finish())
}

/// Writes where the page before it lies.
fn put_older(writer: &mut Writer, older: Option<u64>) -> Result<(), AllocError>
    ensures { OnOk result (writer.new ≡ writer.old ++ older_bytes older) }
{
    let (has_one, place) = match older {
        Some(place) => (1, place),
        None => (0, 0),
    };
    writer.put_u8(has_one)?;
    writer.put_u64(place)
}

/// Writes a note.
fn put_note(writer: &mut Writer, note: &Note) -> Result<(), AllocError>
    ensures { OnOk result (writer.new ≡ writer.old ++ note_bytes note.now) }
{
    writer.put_digest(&note.digest)?;
    writer.put_u64(note.place.first)?;
    writer.put_u32(note.place.count)
}

/// Reads what a page tells of a digest. `SourceFailed` where the bytes are not a page's.
pub(crate) fn read_page(bytes: &[u8], digest: &Digest) -> Result<Told, Refusal>
    ensures told { (older : Option ℕ) (notes : List Note_) → IsPage older notes
        → bytes.now ≡ page_bytes older notes
        → result ≡ Ok (record { older = older; found = place_in digest.now notes }) }
    ensures refused { IfErr result (λ e. e ≡ SourceFailed) }
{
    // names the type for the prover (docs/ARCHITECTURE.md, "Forms the kit wants")
    let _file: Option<FileId> = None;
    let mut reader = Reader::new(bytes);
    let older = take_older(&mut reader)?;
    let found = search(&mut reader, digest)?;
    Ok(Told { older, found })
}

/// Takes where the page before it lies.
fn take_older(reader: &mut Reader<'_>) -> Result<Option<u64>, Refusal>
    ensures told { (older : Option ℕ) (rest : List ℕ) → IfSome older (λ place. place < 2 ^ 64)
        → reader.old.left ≡ older_bytes older ++ rest
        → (result ≡ Ok older) × (reader.new.left ≡ rest) }
    ensures refused { IfErr result (λ e. e ≡ SourceFailed) }
{
    let Ok(has_one) = reader.take_u8() else {
        return Err(Refusal::SourceFailed);
    };
    let Ok(place) = reader.take_u64() else {
        return Err(Refusal::SourceFailed);
    };
    match has_one {
        0 => Ok(None),
        1 => Ok(Some(place)),
        _ => Err(Refusal::SourceFailed),
    }
}

/// Takes the notes of a page, and returns where the last of them that is about a digest says that its
/// item lies, if one is.
fn search(reader: &mut Reader<'_>, digest: &Digest) -> Result<Option<Place>, Refusal>
    ensures told { (notes : List Note_) → AllByRecursion IsNote notes
        → length notes ≡ NOTES_OF_A_PAGE → reader.old.left ≡ flat_map note_bytes notes
        → result ≡ Ok (place_in digest.now notes) }
    ensures refused { IfErr result (λ e. e ≡ SourceFailed) }
{
    // names the type for the prover (docs/ARCHITECTURE.md, "Forms the kit wants")
    let _file: Option<FileId> = None;
    let mut found = None;
    for _ in 0..NOTES_OF_A_PAGE {
        let note = take_note(reader)?;
        found = note.tells(digest, found);
    }
    Ok(found)
}

/// Takes a note.
fn take_note(reader: &mut Reader<'_>) -> Result<Note, Refusal>
    ensures told { (n : Note_) (rest : List ℕ) → IsNote n
        → reader.old.left ≡ note_bytes n ++ rest
        → (result ≡ Ok n) × (reader.new.left ≡ rest) }
    ensures refused { IfErr result (λ e. e ≡ SourceFailed) }
{
    let Ok(digest) = reader.take_digest() else {
        return Err(Refusal::SourceFailed);
    };
    let Ok(first) = reader.take_u64() else {
        return Err(Refusal::SourceFailed);
    };
    let Ok(count) = reader.take_u32() else {
        return Err(Refusal::SourceFailed);
    };
    Ok(Note {
        digest,
        place: Place { first, count },
    })
}
