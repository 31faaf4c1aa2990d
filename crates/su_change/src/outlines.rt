// The outline of a batch: its operations in bytes, without the bytes that they write.
ghost use Rattle.std.specs.Prelude.{◌≡◌, ◌+◌, ◌≤◌, ◌∷◌, ◌++◌, List, map, IfOk, OnOk};
ghost use Rattle.std.specs.List.{flat_map, AllByRecursion};
ghost use Rattle.su_format.specs.Reading.{Decodes, Takes};
ghost use Rattle.su_op.specs.Action.{op_without_bytes};
ghost use Rattle.su_op.specs.declared.operations.Op.{Op as Op_};
ghost use Rattle.su_change.specs.Kinds.{fields_of};
ghost use Rattle.su_change.specs.Operation.{IsOp};
ghost use Rattle.su_change.specs.Outline.{IsOutline, IsOutlineOf, number_part, op_outline, outline_format, outline_kinds, outlined_op, outlined_ops, place_bytes, place_fields};
ghost use Rattle.su_change.specs.Write.{IsWrite};

use crate::operation;
use std::alloc::{AllocError, Global};
use su_bytes::{FileId, Refusal};
use su_format::{Reader, Writer};
use su_op::{Batch, Op, Write};

/// Returns the outline of a batch, with no room left over, which `read_outline` reads. Fails only
/// where there is no room.
pub fn outline(alloc: Global, batch: &Batch) -> Result<Vec<u8>, AllocError>
    ensures { IfOk result (λ bytes. IsOutlineOf batch.now bytes.items) }
{
    let (first, more) = batch.parts();
    let count = batch.count() as u64;
    let mut writer = Writer::with_room(alloc, 0)?;
    writer.put_u64(count)?;
    write_operation(&mut writer, first)?;
    write_operations(&mut writer, more)?;
    let bytes = writer.finish();
    Vec::from_slice(alloc, bytes.as_slice())
}

/// Writes the outlines of operations, one after another. Fails only where there is no room.
fn write_operations(writer: &mut Writer, operations: &[Op]) -> Result<(), AllocError>
    ensures { OnOk result (AllByRecursion IsOp operations.now
        × (writer.new ≡ writer.old ++ flat_map op_outline operations.now)) }
{
    for operation in operations {
        write_operation(writer, operation)?;
    }
    Ok(())
}

/// Writes the number of its kind, and its fields; of a write, where it writes. Fails only where
/// there is no room.
fn write_operation(writer: &mut Writer, operation: &Op) -> Result<(), AllocError>
    ensures { OnOk result
        (IsOp operation.now × (writer.new ≡ writer.old ++ op_outline operation.now)) }
{
    match operation {
        Op::Write(write) => write_place(writer, 2, write),
        _ => operation::write(writer, operation),
    }
}

/// Writes the number of the kind, the file, and the offset. Fails only where there is no room.
fn write_place(writer: &mut Writer, number: u8, write: &Write) -> Result<(), AllocError>
    ensures { OnOk result
        (IsWrite write.now × (writer.new ≡ writer.old ++ (number ∷ place_bytes write.now))) }
{
    writer.put_u8(number)?;
    writer.put_file_id(write.file)?;
    writer.put_u32(write.off)
}

/// Returns the batch whose outline the bytes are, with no bytes in its writes. Fails only where
/// there is no room.
pub fn read_outline(alloc: Global, bytes: &[u8]) -> Result<Batch, AllocError>
    requires { IsOutline bytes.now }
    ensures { (ops : List Op_) → IsOutlineOf ops bytes.now
        → IfOk result (λ batch. batch ≡ map op_without_bytes ops) }
{
    match decode(alloc, bytes) {
        Ok(batch) => Ok(batch),
        Err(refusal) => match refusal {
            Refusal::NoMemory => Err(AllocError),
            _ => unreachable!(),
        },
    }
}

/// Returns the batch whose outline the bytes are. `Malformed` where they are none's, with the place
/// of the first byte of the part that isn't there, or of the first byte that is left over;
/// `NoMemory` where there is no room for it.
fn decode(alloc: Global, bytes: &[u8]) -> Result<Batch, Refusal>
    ensures { Decodes outline_format bytes.now result }
{
    let mut reader = Reader::new(bytes);
    let batch = read(alloc, &mut reader)?;
    reader.finish()?;
    Ok(batch)
}

/// Reads how many operations there are, and these. `Malformed` with the place of the first part that
/// isn't there; `NoMemory` where there is no room for them.
fn read(alloc: Global, reader: &mut Reader<'_>) -> Result<Batch, Refusal>
    ensures { Takes outline_format reader.old result reader.new }
{
    // names the type for the prover (docs/ARCHITECTURE.md, "Forms the kit wants")
    let _file: Option<FileId> = None;
    let count = read_count(reader)?;
    read_operations(alloc, reader, count)
}

/// Reads how many operations there are. `Malformed` where there are none.
fn read_count(reader: &mut Reader<'_>) -> Result<u64, Refusal>
    ensures { Takes number_part reader.old result reader.new }
{
    let malformed = Refusal::Malformed(reader.place());
    let Ok(count) = reader.take_u64() else {
        return Err(malformed);
    };
    if count == 0 {
        return Err(malformed);
    }
    Ok(count)
}

/// Reads so many operations, one at least. It is refused as `read` says.
fn read_operations(alloc: Global, reader: &mut Reader<'_>, count: u64) -> Result<Batch, Refusal>
    requires { 1 ≤ count }
    ensures { Takes (outlined_ops count) reader.old result reader.new }
{
    // names the type for the prover (docs/ARCHITECTURE.md, "Forms the kit wants")
    let _file: Option<FileId> = None;
    let first = read_operation(alloc, reader)?;
    let mut batch = Batch::of(alloc, first);
    for _ in 1..count {
        let next = read_operation(alloc, reader)?;
        batch.push(next)?;
    }
    Ok(batch)
}

/// Reads an operation: the number of its kind, and its fields. It is refused as `read` says.
fn read_operation(alloc: Global, reader: &mut Reader<'_>) -> Result<Op, Refusal>
    ensures { Takes outlined_op reader.old result reader.new }
{
    let place = reader.place();
    let number = reader.take_u8()?;
    read_fields(alloc, reader, place, number)
}

/// Reads the fields of an operation of the kind that has the number; of a write, where it writes. It
/// is refused as `operation::read_fields` says.
fn read_fields(
    alloc: Global,
    reader: &mut Reader<'_>,
    place: u64,
    number: u8,
) -> Result<Op, Refusal>
    requires { place + 1 ≡ reader.old.place }
    ensures { Takes (fields_of outline_kinds number) reader.old result reader.new }
{
    match number {
        2 => read_place(alloc, reader),
        _ => operation::read_fields(alloc, reader, place, number),
    }
}

/// Reads where a write writes: the file, and the offset. `Malformed` where one isn't there.
fn read_place(alloc: Global, reader: &mut Reader<'_>) -> Result<Op, Refusal>
    ensures { Takes place_fields reader.old result reader.new }
{
    // names the type for the prover (docs/ARCHITECTURE.md, "Forms the kit wants")
    let _file: Option<FileId> = None;
    let file = reader.take_file_id()?;
    let off = reader.take_u32()?;
    Ok(Op::Write(Write {
        file,
        off,
        bytes: Vec::new(alloc),
    }))
}
