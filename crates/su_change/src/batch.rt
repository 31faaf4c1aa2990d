// Operations that one change makes together, in bytes.
ghost use Rattle.std.specs.Prelude.{◌≡◌, ◌≤◌, ◌∷◌, ◌++◌, ◌↔◌, length, IfErr, IfOk, IsTrue, OnOk};
ghost use Rattle.std.specs.List.{flat_map, AllByRecursion};
ghost use Rattle.su_bytes.specs.declared.refusals.Refusal.TheVariants.{BadNumber};
ghost use Rattle.su_format.specs.Reading.{Takes};
ghost use Rattle.su_change.specs.Operation.{CanBeSpelled, IsOp, op_bytes};
ghost use Rattle.su_change.specs.Batch.{CanAllBeSpelled, IsCount, batch_bytes, batch_format, count_part, ops_format};

use crate::operation;
use std::alloc::{AllocError, Global};
use su_bytes::{FileId, Refusal};
use su_format::{Reader, Writer};
use su_op::{Batch, Op};

/// The most operations of one change.
pub const MOST_OPERATIONS: usize = 256;

/// Reads a batch: how many operations there are, and these. `Malformed` with the place of the count
/// where it isn't 2 to 256, or of the first part of an operation that isn't there; `NoMemory` where
/// there is no room for them.
pub fn read(alloc: Global, reader: &mut Reader<'_>) -> Result<Batch, Refusal>
    ensures { Takes batch_format reader.old result reader.new }
{
    // names the type for the prover (docs/ARCHITECTURE.md, "Forms the kit wants")
    let _file: Option<FileId> = None;
    let count = read_count(reader)?;
    read_operations(alloc, reader, count)
}

/// Reads how many operations a batch has. `Malformed` where it isn't 2 to 256.
fn read_count(reader: &mut Reader<'_>) -> Result<u16, Refusal>
    ensures { Takes count_part reader.old result reader.new }
{
    let malformed = Refusal::Malformed(reader.place());
    let Ok(count) = reader.take_u16() else {
        return Err(malformed);
    };
    if !is_count(count as usize) {
        return Err(malformed);
    }
    Ok(count)
}

/// Tells whether a batch that has an item may have that many operations.
fn is_count(count: usize) -> bool
    ensures { IsTrue result ↔ IsCount count }
{
    (2..=MOST_OPERATIONS).contains(&count)
}

/// Reads so many operations, one at least. It is refused as `operation::read` says.
fn read_operations(alloc: Global, reader: &mut Reader<'_>, count: u16) -> Result<Batch, Refusal>
    requires { 1 ≤ count }
    ensures { Takes (ops_format count) reader.old result reader.new }
{
    // names the type for the prover (docs/ARCHITECTURE.md, "Forms the kit wants")
    let _file: Option<FileId> = None;
    let first = operation::read(alloc, reader)?;
    let mut batch = Batch::of(alloc, first);
    for _ in 1..count {
        let next = operation::read(alloc, reader)?;
        batch.push(next)?;
    }
    Ok(batch)
}

/// Returns how many bytes the operations have in an item, all together. `BadNumber` where there are
/// more than `MOST_OPERATIONS`, or one of them can't be spelled.
pub fn size(batch: &Batch) -> Result<usize, Refusal>
    ensures spelled { IfOk result (λ size. CanAllBeSpelled batch.now) }
    ensures size { IfOk result (λ size. size ≡ length (flat_map op_bytes batch.now)) }
    ensures few { IfOk result (λ size. size ≤ 16_781_056) }
    ensures refused { IfErr result (λ e. (e ≡ BadNumber) × (CanAllBeSpelled batch.now → ⊥)) }
{
    if batch.count() > MOST_OPERATIONS {
        return Err(Refusal::BadNumber);
    }
    let (first, more) = batch.parts();
    let mut size = operation::size(first)?;
    for next in more {
        size += operation::size(next)?;
    }
    Ok(size)
}

/// Writes the number of the kind, how many operations there are, and these. Fails only where there
/// is no room.
pub fn write(writer: &mut Writer, number: u8, batch: &Batch) -> Result<(), AllocError>
    requires { CanAllBeSpelled batch.now }
    ensures { OnOk result (AllByRecursion IsOp batch.now
        × (writer.new ≡ writer.old ++ (number ∷ batch_bytes batch.now))) }
{
    let (first, more) = batch.parts();
    writer.put_u8(number)?;
    writer.put_u16(batch.count() as u16)?;
    operation::write(writer, first)?;
    write_operations(writer, more)
}

/// Writes operations, one after another. Fails only where there is no room.
fn write_operations(writer: &mut Writer, operations: &[Op]) -> Result<(), AllocError>
    requires { AllByRecursion CanBeSpelled operations.now }
    ensures { OnOk result (AllByRecursion IsOp operations.now
        × (writer.new ≡ writer.old ++ flat_map op_bytes operations.now)) }
{
    for operation in operations {
        operation::write(writer, operation)?;
    }
    Ok(())
}
