// A file is cut or filled with zeros, in bytes.
ghost use Rattle.std.specs.Prelude.{◌≡◌, ◌∷◌, ◌++◌, OnOk};
ghost use Rattle.su_format.specs.Reading.{Takes};
ghost use Rattle.su_change.specs.Truncate.{IsTruncate, truncate_bytes, truncate_fields};

use std::alloc::AllocError;
use su_bytes::{FileId, Refusal};
use su_format::{Reader, Writer};
use su_op::{Op, Truncate};

/// Reads a truncate: the file, and its size.
pub fn read(reader: &mut Reader<'_>) -> Result<Op, Refusal>
    ensures { Takes truncate_fields reader.old result reader.new }
{
    // names the type for the prover (docs/ARCHITECTURE.md, "Forms the kit wants")
    let _file: Option<FileId> = None;
    let file = reader.take_file_id()?;
    let size = reader.take_u32()?;
    Ok(Op::Truncate(Truncate { file, size }))
}

/// Writes the number of the kind, and the fields in the same order.
pub fn write(writer: &mut Writer, number: u8, truncate: &Truncate) -> Result<(), AllocError>
    ensures { OnOk result
        (IsTruncate truncate.now
        × (writer.new ≡ writer.old ++ (number ∷ truncate_bytes truncate.now))) }
{
    writer.put_u8(number)?;
    writer.put_file_id(truncate.file)?;
    writer.put_u32(truncate.size)
}
