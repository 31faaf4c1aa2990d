// Reading the item of a change.
ghost use Rattle.std.specs.Prelude.{◌≡◌, ◌+◌, ◌⊎◌, Ok, Err, IfOk};
ghost use Rattle.su_bytes.specs.declared.refusals.Refusal.TheVariants.{NoMemory};
ghost use Rattle.su_format.specs.Reading.{Decodes, Takes};
ghost use Rattle.su_op.specs.declared.operations.Change.{Change as Change_};
ghost use Rattle.su_change.specs.Kinds.{fields_of};
ghost use Rattle.su_change.specs.Operation.{op_kinds};
ghost use Rattle.su_change.specs.Batch.{batch_fields};
ghost use Rattle.su_change.specs.Item.{HasItem, IsChange, alone_fields, item_bytes, item_format, kinds, marked_format, tagged_format, undo_fields};

use crate::{batch, operation, rekey};
use std::alloc::Global;
use su_bytes::{FileId, Refusal};
use su_format::Reader;
use su_op::Change;

/// The first byte of the item of a change.
pub const FIRST_BYTE: &[u8] = &[5];

/// The most bytes of an item.
pub const LONGEST_ITEM: usize = 70_000;

/// Returns the change whose item the bytes are. `Malformed` where they are none's, with the place
/// of the first byte of the part that isn't there, or of the first byte that is left over, and 0
/// where they would be longer than `LONGEST_ITEM`; `NoMemory` where there is no room for it.
pub fn decode(alloc: Global, bytes: &[u8]) -> Result<Change, Refusal>
    // What is read is spelled so.
    ensures found { IfOk result (λ c. IsChange c × HasItem c × (bytes.now ≡ item_bytes c)) }
    // What is spelled so is read.
    ensures only { (c : Change_) → IsChange c → HasItem c → bytes.now ≡ item_bytes c
        → (result ≡ Ok c) ⊎ (result ≡ Err NoMemory) }
    // What is refused has no such part at that place.
    ensures decodes { Decodes item_format bytes.now result }
{
    let mut reader = Reader::new(bytes);
    let change = read_item(alloc, &mut reader)?;
    reader.finish()?;
    Ok(change)
}

/// Reads an item. `Malformed` with its place where it is longer than `LONGEST_ITEM`, or else with
/// that of the first part that isn't there; `NoMemory` where there is no room for it.
fn read_item(alloc: Global, reader: &mut Reader<'_>) -> Result<Change, Refusal>
    ensures { Takes item_format reader.old result reader.new }
{
    let place = reader.place();
    let change = read_marked(alloc, reader)?;
    if reader.place() - place > LONGEST_ITEM as u64 {
        return Err(Refusal::Malformed(place));
    }
    Ok(change)
}

/// Reads the first byte of an item, and the change behind it, of any length. `Malformed` with the
/// place of the first part that isn't there; `NoMemory` where there is no room for it.
fn read_marked(alloc: Global, reader: &mut Reader<'_>) -> Result<Change, Refusal>
    ensures { Takes marked_format reader.old result reader.new }
{
    // names the type for the prover (docs/ARCHITECTURE.md, "Forms the kit wants")
    let _file: Option<FileId> = None;
    reader.take_mark(FIRST_BYTE)?;
    read_tagged(alloc, reader)
}

/// Reads the number of a kind, and the fields of that kind. It is refused as `read_marked` says.
fn read_tagged(alloc: Global, reader: &mut Reader<'_>) -> Result<Change, Refusal>
    ensures { Takes tagged_format reader.old result reader.new }
{
    let place = reader.place();
    let number = reader.take_u8()?;
    read_fields(alloc, reader, place, number)
}

/// Reads the fields of a change of the kind that has the number. `Malformed` with the place of the
/// first that isn't there, or of the number, in front of them, where none has it; `NoMemory` where
/// there is no room for it.
fn read_fields(
    alloc: Global,
    reader: &mut Reader<'_>,
    place: u64,
    number: u8,
) -> Result<Change, Refusal>
    requires { place + 1 ≡ reader.old.place }
    ensures { Takes (fields_of kinds number) reader.old result reader.new }
{
    match number {
        0 => read_undo(reader),
        9 => rekey::read(reader),
        10 => read_batch(alloc, reader),
        _ => read_alone(alloc, reader, place, number),
    }
}

/// Reads an undo: the number of the operation. `Malformed` where it isn't there.
fn read_undo(reader: &mut Reader<'_>) -> Result<Change, Refusal>
    ensures { Takes undo_fields reader.old result reader.new }
{
    // names the type for the prover (docs/ARCHITECTURE.md, "Forms the kit wants")
    let _file: Option<FileId> = None;
    let number = reader.take_u64()?;
    Ok(Change::Undo(number))
}

/// Reads a change of several operations. It is refused as `batch::read` says.
fn read_batch(alloc: Global, reader: &mut Reader<'_>) -> Result<Change, Refusal>
    ensures { Takes batch_fields reader.old result reader.new }
{
    // names the type for the prover (docs/ARCHITECTURE.md, "Forms the kit wants")
    let _file: Option<FileId> = None;
    let batch = batch::read(alloc, reader)?;
    Ok(Change::Do(batch))
}

/// Reads the fields of a change that is one operation, of the kind that has the number. It is
/// refused as `operation::read_fields` says.
fn read_alone(
    alloc: Global,
    reader: &mut Reader<'_>,
    place: u64,
    number: u8,
) -> Result<Change, Refusal>
    requires { place + 1 ≡ reader.old.place }
    ensures { Takes (alone_fields (fields_of op_kinds number)) reader.old result reader.new }
{
    // names the type for the prover (docs/ARCHITECTURE.md, "Forms the kit wants")
    let _file: Option<FileId> = None;
    let operation = operation::read_fields(alloc, reader, place, number)?;
    Ok(Change::of(alloc, operation))
}
