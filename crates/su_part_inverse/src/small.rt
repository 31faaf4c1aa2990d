// What is small of an inverse, in bytes.
ghost use Rattle.std.specs.Prelude.{◌≡◌, ◌++◌, ℕ, List, IfOk, IfErr, OnOk};
ghost use Rattle.std.specs.List.{AllByRecursion, flat_map};
ghost use Rattle.su_bytes.specs.declared.refusals.Refusal.TheVariants.{NoMemory};
ghost use Rattle.su_kept_areas.specs.Spelling.{place_bytes};
ghost use Rattle.su_part_inverse.specs.Small.{AreMany, BeginWith, IsPlace, IsReset, IsReturn, IsSize, Reads, reset_bytes, return_bytes, size_bytes};

use crate::areas::OfArea;
use crate::returns::Return;
use std::alloc::Global;
use su_bytes::{FileId, Place, Refusal};
use su_format::{Reader, Writer};
use su_inverse::{KeptSize, Reset};
use su_kept_areas::{put_area, take_area};
use su_op::{Area, Part};

/// What is kept of one area, and is spelled in a few bytes.
pub(crate) trait Small: Sized {
    ghost use Rattle.std.specs.Prelude.{◌≡◌, ◌++◌, ℕ, List, IfErr, OnOk};
    ghost use Rattle.su_bytes.specs.declared.refusals.Refusal.TheVariants.{NoMemory};
    ghost use Rattle.su_part_inverse.specs.Small.{Reads};

    // the bytes that spell it
    ghost spelling: { Self → List ℕ };

    // its numbers and its name are in their ranges
    ghost IsMeant: { Self → Type 0 };

    /// Writes it. Fails only with `NoMemory`. What it is passed is such that `take` takes it (`meant`).
    fn put(&self, writer: &mut Writer) -> Result<(), Refusal>
        ensures ok { OnOk result (writer.new ≡ writer.old ++ spelling self.now) }
        ensures meant { OnOk result (IsMeant self.now) }
        ensures refused { IfErr result (λ e. e ≡ NoMemory) };

    /// Takes what is spelled here. Fails only with `NoMemory`; where nothing is, `Malformed` with the
    /// place of a part that isn't there.
    fn take(alloc: Global, reader: &mut Reader<'_>) -> Result<Self, Refusal>
        ensures { Reads IsMeant spelling reader.old.left result reader.new.left };
}

impl Small for Return {
    ghost spelling = { return_bytes };

    ghost IsMeant = { IsReturn };

    fn put(&self, writer: &mut Writer) -> Result<(), Refusal> {
        let area = self.area()?;
        put_area(writer, &area)?;
        match self {
            Return::Name(_, _, file) => writer.put_file_id(*file)?,
            Return::Pointer(_, place) => put_place(writer, place)?,
        }
        Ok(())
    }

    fn take(alloc: Global, reader: &mut Reader<'_>) -> Result<Return, Refusal> {
        let malformed = Refusal::Malformed(reader.place());
        let area = take_area(alloc, reader)?;
        match area {
            Area::Inode(place, part) => {
                let Part::Name(name) = part else {
                    return Err(malformed);
                };
                let file = reader.take_file_id()?;
                Ok(Return::Name(place, name, file))
            }
            Area::Pointer(file) => {
                let place = take_place(reader)?;
                Ok(Return::Pointer(file, place))
            }
        }
    }
}

impl Small for KeptSize {
    ghost spelling = { size_bytes };

    ghost IsMeant = { IsSize };

    fn put(&self, writer: &mut Writer) -> Result<(), Refusal> {
        // names the type for the prover (docs/ARCHITECTURE.md, "Forms the kit wants")
        let _file: Option<FileId> = None;
        put_place(writer, &self.place)?;
        writer.put_u32(self.size)?;
        Ok(())
    }

    fn take(_alloc: Global, reader: &mut Reader<'_>) -> Result<KeptSize, Refusal> {
        // names the type for the prover (docs/ARCHITECTURE.md, "Forms the kit wants")
        let _file: Option<FileId> = None;
        let place = take_place(reader)?;
        let size = reader.take_u32()?;
        Ok(KeptSize { place, size })
    }
}

impl Small for Reset {
    ghost spelling = { reset_bytes };

    ghost IsMeant = { IsReset };

    fn put(&self, writer: &mut Writer) -> Result<(), Refusal> {
        // names the type for the prover (docs/ARCHITECTURE.md, "Forms the kit wants")
        let _file: Option<FileId> = None;
        match self {
            Reset::Nothing(area) => {
                writer.put_u8(0)?;
                put_area(writer, area)?;
            }
            Reset::Links(place, links) => {
                writer.put_u8(1)?;
                put_place(writer, place)?;
                writer.put_u8(*links)?;
            }
        }
        Ok(())
    }

    fn take(alloc: Global, reader: &mut Reader<'_>) -> Result<Reset, Refusal> {
        let malformed = Refusal::Malformed(reader.place());
        let kind = reader.take_u8()?;
        match kind {
            0 => {
                let area = take_area(alloc, reader)?;
                Ok(Reset::Nothing(area))
            }
            1 => {
                let place = take_place(reader)?;
                let links = reader.take_u8()?;
                Ok(Reset::Links(place, links))
            }
            _ => Err(malformed),
        }
    }
}

/// Writes a user and a number of the user's table. Fails only with `NoMemory`.
fn put_place(writer: &mut Writer, place: &Place) -> Result<(), Refusal>
    ensures ok { OnOk result (writer.new ≡ writer.old ++ place_bytes place.now) }
    ensures meant { OnOk result (IsPlace place.now) }
    ensures refused { IfErr result (λ e. e ≡ NoMemory) }
{
    writer.put_user(place.0)?;
    writer.put_inum(place.1)?;
    Ok(())
}

/// Takes a user and a number of the user's table, if they are spelled here; else `Malformed`.
fn take_place(reader: &mut Reader<'_>) -> Result<Place, Refusal>
    ensures { Reads IsPlace place_bytes reader.old.left result reader.new.left }
{
    // names the type for the prover (docs/ARCHITECTURE.md, "Forms the kit wants")
    let _file: Option<FileId> = None;
    let user = reader.take_user()?;
    let number = reader.take_inum()?;
    Ok((user, number))
}

/// Writes all of these, one after another. Fails only with `NoMemory`.
pub(crate) fn put_all<K: Small>(writer: &mut Writer, all: &[K]) -> Result<(), Refusal>
    ensures ok { OnOk result (writer.new ≡ writer.old ++ flat_map K.spelling all.now) }
    ensures meant { OnOk result (AllByRecursion K.IsMeant all.now) }
    ensures refused { IfErr result (λ e. e ≡ NoMemory) }
{
    for kept in all {
        kept.put(writer)?;
    }
    Ok(())
}

/// Takes so many that are spelled here. Fails only with `NoMemory`; where so many aren't, `Malformed`
/// with the place of a part that isn't there.
pub(crate) fn take_all<K: Small + Drop>(
    alloc: Global,
    reader: &mut Reader<'_>,
    count: usize,
) -> Result<Vec<K>, Refusal>
    ensures value { (ks : List K) (rest : List ℕ)
        → BeginWith (AreMany K.IsMeant count) (flat_map K.spelling) reader.old.left ks rest
        → IfOk result (λ all. (all.items ≡ ks) × (reader.new.left ≡ rest)) }
    ensures refused { (ks : List K) (rest : List ℕ)
        → BeginWith (AreMany K.IsMeant count) (flat_map K.spelling) reader.old.left ks rest
        → IfErr result (λ e. e ≡ NoMemory) }
{
    let mut all = Vec::with_capacity(alloc, count)?;
    for _taken in 0..count {
        all.push(K::take(alloc, reader)?)?;
    }
    Ok(all)
}
