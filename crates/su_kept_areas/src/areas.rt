// One area in bytes.
ghost use Rattle.std.specs.Prelude.{◌≡◌, ◌≢◌, ◌++◌, ℕ, List, length, IfOk, IfErr, OnOk};
ghost use Rattle.su_op.specs.declared.areas.Area.{Area as Area_};
ghost use Rattle.su_format.specs.Reading.{Refuses, Takes, Took};
ghost use Rattle.su_kept_areas.specs.Format.{area_format, fields_format, group_file_format, kind_part, part_format, place_format, run_format, short_format};
ghost use Rattle.su_kept_areas.specs.Lent.{area_of, part_of};
ghost use Rattle.su_kept_areas.specs.Spelling.{BeginsWith, IsArea, IsPart, area_bytes, fields_bytes, part_bytes};
ghost use Rattle.su_bytes.specs.declared.refusals.Refusal.TheVariants.{NoMemory};

use crate::kinds::{AreaKind, PartKind};
use crate::lent::{LentArea, LentPart};
use std::alloc::{AllocError, Global};
use su_bytes::{FileId, GroupFile, Place, Refusal};
use su_format::{Reader, Writer};
use su_op::{Area, BlockRun, Part};

/// How many bytes each area has: its kind, a user or a group, and a number of its table.
const FIELDS: usize = 6;

/// How many bytes a run of blocks has besides.
const RUN: usize = 8;

/// Returns how many bytes an area is spelled in.
pub(crate) fn size(area: &Area) -> usize
    ensures { result ≡ length (area_bytes area.now) }
{
    match area {
        Area::Inode(_, Part::Blocks(_)) => FIELDS + RUN,
        Area::Inode(_, Part::Name(name)) => FIELDS + 1 + name.as_bytes().len(),
        _ => FIELDS,
    }
}

/// Writes an area. Fails where there is no room. What it is passed is an area that `take_area`
/// takes (`meant`).
pub fn put_area(writer: &mut Writer, area: &Area) -> Result<(), AllocError>
    ensures ok { OnOk result (writer.new ≡ writer.old ++ area_bytes area.now) }
    ensures meant { OnOk result (IsArea area.now) }
{
    let kind = AreaKind::of(area);
    writer.put_u8(kind.number())?;
    put_fields(writer, area)
}

/// Writes what an area has behind the byte of its kind. Fails where there is no room.
pub(crate) fn put_fields(writer: &mut Writer, area: &Area) -> Result<(), AllocError>
    ensures ok { OnOk result (writer.new ≡ writer.old ++ fields_bytes area.now) }
    ensures meant { OnOk result (IsArea area.now) }
{
    match area {
        Area::Inode((user, number), part) => {
            writer.put_user(*user)?;
            writer.put_inum(*number)?;
            put_part(writer, part)
        }
        Area::Pointer((group, number)) => {
            writer.put_group(*group)?;
            writer.put_inum(*number)
        }
    }
}

/// Writes what a part has besides its kind. Fails where there is no room.
fn put_part(writer: &mut Writer, part: &Part) -> Result<(), AllocError>
    ensures ok { OnOk result (writer.new ≡ writer.old ++ part_bytes part.now) }
    ensures meant { OnOk result (IsPart part.now) }
{
    match part {
        Part::Kind | Part::Links | Part::Size | Part::Whole => Ok(()),
        Part::Blocks(run) => {
            writer.put_u32(run.first)?;
            writer.put_u32(run.more)
        }
        Part::Name(name) => writer.put_name(name),
    }
}

/// Takes an area that is spelled here. Fails only with `NoMemory`; where none is spelled here,
/// `Malformed` with the place of the first part that isn't there.
pub fn take_area(alloc: Global, reader: &mut Reader<'_>) -> Result<Area, Refusal>
    ensures value { (a : Area_) (rest : List ℕ) → BeginsWith reader.old.left a rest
        → IfOk result (λ area. (area ≡ a) × (reader.new.left ≡ rest)) }
    ensures refused { (a : Area_) (rest : List ℕ) → BeginsWith reader.old.left a rest
        → IfErr result (λ e. e ≡ NoMemory) }
{
    match take_lent(reader) {
        Ok(area) => area.to_area(alloc),
        Err(refusal) => Err(refusal),
    }
}

/// Takes an area whose name is lent. `Malformed` with the place of the first part that isn't there.
fn take_lent<'a>(reader: &mut Reader<'a>) -> Result<LentArea<'a>, Refusal>
    ensures value { IfOk result (λ area. Took area_format reader.old (area_of area) reader.new) }
    ensures refused { IfErr result (λ e. Refuses area_format reader.old e) }
    ensures malformed { IfErr result (λ e. e ≢ NoMemory) }
{
    // names the type for the prover (docs/ARCHITECTURE.md, "Forms the kit wants")
    let _file: Option<FileId> = None;
    let kind = take_kind(reader)?;
    take_fields(reader, kind)
}

/// Takes the byte of a kind. `Malformed` where it tells none.
fn take_kind(reader: &mut Reader<'_>) -> Result<AreaKind, Refusal>
    ensures takes { Takes kind_part reader.old result reader.new }
    ensures malformed { IfErr result (λ e. e ≢ NoMemory) }
{
    let malformed = Refusal::Malformed(reader.place());
    let Ok(number) = reader.take_u8() else {
        return Err(malformed);
    };
    let Some(kind) = AreaKind::of_number(number) else {
        return Err(malformed);
    };
    Ok(kind)
}

/// Takes what an area of that kind has behind the byte of its kind.
pub(crate) fn take_fields<'a>(
    reader: &mut Reader<'a>,
    kind: AreaKind,
) -> Result<LentArea<'a>, Refusal>
    ensures value { IfOk result (λ area.
        Took (fields_format kind) reader.old (area_of area) reader.new) }
    ensures refused { IfErr result (λ e. Refuses (fields_format kind) reader.old e) }
    ensures malformed { IfErr result (λ e. e ≢ NoMemory) }
{
    match kind {
        AreaKind::Pointer => {
            let file = take_group_file(reader)?;
            Ok(LentArea::Pointer(file))
        }
        AreaKind::Inode(kind) => {
            let place = take_place(reader)?;
            match take_part(reader, kind) {
                Ok(part) => Ok(LentArea::Inode(place, part)),
                Err(refusal) => Err(refusal),
            }
        }
    }
}

/// Takes a group and a number of its table.
fn take_group_file(reader: &mut Reader<'_>) -> Result<GroupFile, Refusal>
    ensures takes { Takes group_file_format reader.old result reader.new }
    ensures malformed { IfErr result (λ e. e ≢ NoMemory) }
{
    // names the type for the prover (docs/ARCHITECTURE.md, "Forms the kit wants")
    let _file: Option<FileId> = None;
    let group = reader.take_group()?;
    let number = reader.take_inum()?;
    Ok((group, number))
}

/// Takes a user and a number of the user's table.
fn take_place(reader: &mut Reader<'_>) -> Result<Place, Refusal>
    ensures takes { Takes place_format reader.old result reader.new }
    ensures malformed { IfErr result (λ e. e ≢ NoMemory) }
{
    // names the type for the prover (docs/ARCHITECTURE.md, "Forms the kit wants")
    let _file: Option<FileId> = None;
    let user = reader.take_user()?;
    let number = reader.take_inum()?;
    Ok((user, number))
}

/// Takes what a part of that kind has besides its kind.
fn take_part<'a>(reader: &mut Reader<'a>, kind: PartKind) -> Result<LentPart<'a>, Refusal>
    ensures value { IfOk result (λ part.
        Took (part_format kind) reader.old (part_of part) reader.new) }
    ensures refused { IfErr result (λ e. Refuses (part_format kind) reader.old e) }
    ensures malformed { IfErr result (λ e. e ≢ NoMemory) }
{
    match kind {
        PartKind::Kind => Ok(LentPart::Kind),
        PartKind::Links => Ok(LentPart::Links),
        PartKind::Size => Ok(LentPart::Size),
        PartKind::Whole => Ok(LentPart::Whole),
        PartKind::Blocks => {
            let run = take_run(reader)?;
            Ok(LentPart::Blocks(run))
        }
        PartKind::Name => match take_short(reader) {
            Ok(name) => Ok(LentPart::Name(name)),
            Err(refusal) => Err(refusal),
        },
    }
}

/// Takes the first block of a run and how many follow it.
fn take_run(reader: &mut Reader<'_>) -> Result<BlockRun, Refusal>
    ensures takes { Takes run_format reader.old result reader.new }
    ensures malformed { IfErr result (λ e. e ≢ NoMemory) }
{
    // names the type for the prover (docs/ARCHITECTURE.md, "Forms the kit wants")
    let _file: Option<FileId> = None;
    let first = reader.take_u32()?;
    let more = reader.take_u32()?;
    Ok(BlockRun { first, more })
}

/// Takes how many bytes there are, and these.
fn take_short<'a>(reader: &mut Reader<'a>) -> Result<&'a [u8], Refusal>
    ensures value { IfOk result (λ bytes. Took short_format reader.old bytes.now reader.new) }
    ensures refused { IfErr result (λ e. Refuses short_format reader.old e) }
    ensures malformed { IfErr result (λ e. e ≢ NoMemory) }
{
    let count = reader.take_u8()?;
    match reader.take_bytes(usize::from(count)) {
        Ok(bytes) => Ok(bytes),
        Err(refusal) => Err(refusal),
    }
}
