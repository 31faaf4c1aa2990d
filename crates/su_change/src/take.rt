// A group file is taken over, in bytes.
ghost use Rattle.std.specs.Prelude.{◌≡◌, ◌∷◌, ◌++◌, OnOk};
ghost use Rattle.su_format.specs.Reading.{Takes};
ghost use Rattle.su_change.specs.Take.{IsTake, take_bytes, take_fields};

use std::alloc::AllocError;
use su_bytes::{FileId, Refusal};
use su_format::{Reader, Writer};
use su_op::{Op, Take};

/// Reads a take: the file, and the number of the new body.
pub fn read(reader: &mut Reader<'_>) -> Result<Op, Refusal>
    ensures { Takes take_fields reader.old result reader.new }
{
    // names the type for the prover (docs/ARCHITECTURE.md, "Forms the kit wants")
    let _file: Option<FileId> = None;
    let file = reader.take_file_id()?;
    let body = reader.take_inum()?;
    Ok(Op::Take(Take { file, body }))
}

/// Writes the number of the kind, and the fields in the same order.
pub fn write(writer: &mut Writer, number: u8, take: &Take) -> Result<(), AllocError>
    ensures { OnOk result
        (IsTake take.now × (writer.new ≡ writer.old ++ (number ∷ take_bytes take.now))) }
{
    writer.put_u8(number)?;
    writer.put_file_id(take.file)?;
    writer.put_inum(take.body)
}
