// A new file or directory, in bytes.
ghost use Rattle.std.specs.Prelude.{◌≡◌, ◌∷◌, ◌++◌, OnOk};
ghost use Rattle.su_format.specs.Reading.{Takes};
ghost use Rattle.su_change.specs.Create.{IsCreate, create_bytes, create_fields};

use crate::name_at::NameAt;
use std::alloc::{AllocError, Global};
use su_bytes::{FileId, Refusal};
use su_format::{Reader, Writer};
use su_op::{Create, Op};

/// Reads a create: the directory, the name, the file; the number of its body, its kind.
pub fn read(alloc: Global, reader: &mut Reader<'_>) -> Result<Op, Refusal>
    ensures { Takes create_fields reader.old result reader.new }
{
    // names the type for the prover (docs/ARCHITECTURE.md, "Forms the kit wants")
    let _file: Option<FileId> = None;
    let NameAt { dir, name, file } = NameAt::read(alloc, reader)?;
    let body = reader.take_inum()?;
    let kind = reader.take_kind()?;
    Ok(Op::Create(Create {
        dir,
        name,
        file,
        body,
        kind,
    }))
}

/// Writes the number of the kind, and the fields in the same order.
pub fn write(writer: &mut Writer, number: u8, create: &Create) -> Result<(), AllocError>
    ensures { OnOk result
        (IsCreate create.now × (writer.new ≡ writer.old ++ (number ∷ create_bytes create.now))) }
{
    writer.put_u8(number)?;
    NameAt::write(writer, create.dir, &create.name, create.file)?;
    writer.put_inum(create.body)?;
    writer.put_kind(create.kind)
}
