// Bytes are written into a file, in bytes.
ghost use Rattle.std.specs.Prelude.{◌≡◌, ◌+◌, ◌≤◌, ◌∷◌, ◌++◌, ◌↔◌, length, IfErr, IfOk, IsTrue, OnOk};
ghost use Rattle.su_bytes.specs.declared.refusals.Refusal.TheVariants.{BadNumber};
ghost use Rattle.su_format.specs.Reading.{Takes};
ghost use Rattle.su_change.specs.Write.{IsWrite, IsLength, HasLength, length_part, write_bytes, write_fields};

use std::alloc::{AllocError, Global};
use su_bytes::{FileId, Refusal};
use su_format::{Reader, Writer};
use su_op::{LARGEST_WRITE, Op, Write};

/// Reads a write: the file, the offset, how many bytes there are, and these.
pub fn read(alloc: Global, reader: &mut Reader<'_>) -> Result<Op, Refusal>
    ensures { Takes write_fields reader.old result reader.new }
{
    // names the type for the prover (docs/ARCHITECTURE.md, "Forms the kit wants")
    let _file: Option<FileId> = None;
    let file = reader.take_file_id()?;
    let off = reader.take_u32()?;
    let length = read_length(reader)?;
    let bytes = reader.take_bytes(length as usize)?;
    let bytes = Vec::from_slice(alloc, bytes)?;
    Ok(Op::Write(Write { file, off, bytes }))
}

/// Reads how many bytes a write has.
fn read_length(reader: &mut Reader<'_>) -> Result<u32, Refusal>
    ensures { Takes length_part reader.old result reader.new }
{
    let malformed = Refusal::Malformed(reader.place());
    let Ok(length) = reader.take_u32() else {
        return Err(malformed);
    };
    if !is_length(length as usize) {
        return Err(malformed);
    }
    Ok(length)
}

/// Whether a write that has an item may have that many bytes.
pub fn is_length(length: usize) -> bool
    ensures { IsTrue result ↔ IsLength length }
{
    (1..=LARGEST_WRITE).contains(&length)
}

/// Returns how many bytes a write has in an item, with the number of its kind. `BadNumber` where it
/// has no bytes of its own, or more than `LARGEST_WRITE`.
pub fn size(write: &Write) -> Result<usize, Refusal>
    ensures length { IfOk result (λ size. HasLength write.now) }
    ensures size { IfOk result (λ size. size ≡ 1 + length (write_bytes write.now)) }
    ensures few { IfOk result (λ size. size ≤ 65_551) }
    ensures refused { IfErr result (λ e. (e ≡ BadNumber) × (HasLength write.now → ⊥)) }
{
    let length = write.bytes.len();
    if !is_length(length) {
        return Err(Refusal::BadNumber);
    }
    Ok(15 + length)
}

/// Writes the number of the kind, and the fields in the same order.
pub fn write(writer: &mut Writer, number: u8, write: &Write) -> Result<(), AllocError>
    requires { HasLength write.now }
    ensures { OnOk result
        (IsWrite write.now × (writer.new ≡ writer.old ++ (number ∷ write_bytes write.now))) }
{
    writer.put_u8(number)?;
    writer.put_file_id(write.file)?;
    writer.put_u32(write.off)?;
    writer.put_u32(write.bytes.len() as u32)?;
    writer.put_bytes(write.bytes.as_slice())
}
