// A body goes that no file id leads to, in bytes.
ghost use Rattle.std.specs.Prelude.{◌≡◌, ◌∷◌, ◌++◌, OnOk};
ghost use Rattle.su_format.specs.Reading.{Takes};
ghost use Rattle.su_change.specs.DropBody.{IsDrop, drop_bytes, drop_fields};

use std::alloc::AllocError;
use su_bytes::{FileId, Refusal};
use su_format::{Reader, Writer};
use su_op::{DropBody, Op};

/// Reads a drop: the number of the body.
pub fn read(reader: &mut Reader<'_>) -> Result<Op, Refusal>
    ensures { Takes drop_fields reader.old result reader.new }
{
    // names the type for the prover (docs/ARCHITECTURE.md, "Forms the kit wants")
    let _file: Option<FileId> = None;
    let body = reader.take_inum()?;
    Ok(Op::Drop(DropBody { body }))
}

/// Writes the number of the kind, and that of the body.
pub fn write(writer: &mut Writer, number: u8, dropped: &DropBody) -> Result<(), AllocError>
    ensures { OnOk result
        (IsDrop dropped.now
        × (writer.new ≡ writer.old ++ (number ∷ drop_bytes dropped.now))) }
{
    writer.put_u8(number)?;
    writer.put_inum(dropped.body)
}
