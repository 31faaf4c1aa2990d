// A file gets another name, in bytes.
ghost use Rattle.std.specs.Prelude.{◌≡◌, ◌+◌, ◌≤◌, ◌∷◌, ◌++◌, length, OnOk};
ghost use Rattle.su_format.specs.Reading.{Takes};
ghost use Rattle.su_change.specs.Rename.{IsRename, rename_bytes, rename_fields};

use std::alloc::{AllocError, Global};
use su_bytes::{FileId, Refusal};
use su_format::{Reader, Writer};
use su_op::{Op, Rename};

/// Reads a rename: the directory that loses the file, the old name, the directory that gets it,
/// the new name, the file.
pub fn read(alloc: Global, reader: &mut Reader<'_>) -> Result<Op, Refusal>
    ensures { Takes rename_fields reader.old result reader.new }
{
    // names the type for the prover (docs/ARCHITECTURE.md, "Forms the kit wants")
    let _file: Option<FileId> = None;
    let from_ = reader.take_file_id()?;
    let old_ = reader.take_name(alloc)?;
    let to_ = reader.take_file_id()?;
    let new_ = reader.take_name(alloc)?;
    let file = reader.take_file_id()?;
    Ok(Op::Rename(Rename {
        from_,
        old_,
        to_,
        new_,
        file,
    }))
}

/// Returns how many bytes a rename has in an item, with the number of its kind.
pub fn size(rename: &Rename) -> usize
    ensures size { result ≡ 1 + length (rename_bytes rename.now) }
    ensures few { result ≤ 531 }
{
    21 + rename.old_.as_bytes().len() + rename.new_.as_bytes().len()
}

/// Writes the number of the kind, and the fields in the same order.
pub fn write(writer: &mut Writer, number: u8, rename: &Rename) -> Result<(), AllocError>
    ensures { OnOk result
        (IsRename rename.now × (writer.new ≡ writer.old ++ (number ∷ rename_bytes rename.now))) }
{
    writer.put_u8(number)?;
    writer.put_file_id(rename.from_)?;
    writer.put_name(&rename.old_)?;
    writer.put_file_id(rename.to_)?;
    writer.put_name(&rename.new_)?;
    writer.put_file_id(rename.file)
}
