// An operation, in bytes.
ghost use Rattle.std.specs.Prelude.{◌≡◌, ◌+◌, ◌≤◌, ◌∷◌, ◌++◌, length, IfErr, IfOk, OnOk};
ghost use Rattle.su_bytes.specs.declared.refusals.Refusal.TheVariants.{BadNumber};
ghost use Rattle.su_format.specs.Reading.{Takes};
ghost use Rattle.su_change.specs.Kinds.{fields_of};
ghost use Rattle.su_change.specs.NameAt.{IsNameAt, link_fields, name_at_bytes, unlink_fields};
ghost use Rattle.su_change.specs.Operation.{CanBeSpelled, IsOp, op_bytes, op_format, op_kinds};

use crate::name_at::NameAt;
use crate::{create, drop_body, rename, take, truncate, write};
use std::alloc::{AllocError, Global};
use su_bytes::{FileId, Name, Refusal};
use su_format::{Reader, Writer};
use su_op::{Link, Op, Unlink};

/// Reads an operation: the number of its kind, and its fields. `Malformed` with the place of the
/// first of these that isn't there, and so with that of the number where no kind of operation has
/// it; `NoMemory` where there is no room for it.
pub fn read(alloc: Global, reader: &mut Reader<'_>) -> Result<Op, Refusal>
    ensures { Takes op_format reader.old result reader.new }
{
    let place = reader.place();
    let number = reader.take_u8()?;
    read_fields(alloc, reader, place, number)
}

/// Reads the fields of an operation of the kind that has the number. `Malformed` with the place of
/// the first that isn't there, or of the number, in front of them, where none has it; `NoMemory`
/// where there is no room for it.
pub fn read_fields(
    alloc: Global,
    reader: &mut Reader<'_>,
    place: u64,
    number: u8,
) -> Result<Op, Refusal>
    requires { place + 1 ≡ reader.old.place }
    ensures { Takes (fields_of op_kinds number) reader.old result reader.new }
{
    match number {
        1 => create::read(alloc, reader),
        2 => write::read(alloc, reader),
        3 => truncate::read(reader),
        4 => read_link(alloc, reader),
        5 => rename::read(alloc, reader),
        6 => read_unlink(alloc, reader),
        7 => take::read(reader),
        8 => drop_body::read(reader),
        _ => Err(Refusal::Malformed(place)),
    }
}

/// Reads a link: the name that it makes. It is refused as `NameAt::read` says.
fn read_link(alloc: Global, reader: &mut Reader<'_>) -> Result<Op, Refusal>
    ensures { Takes link_fields reader.old result reader.new }
{
    // names the type for the prover (docs/ARCHITECTURE.md, "Forms the kit wants")
    let _file: Option<FileId> = None;
    let NameAt { dir, name, file } = NameAt::read(alloc, reader)?;
    Ok(Op::Link(Link { dir, name, file }))
}

/// Reads an unlink: the name that it takes away. It is refused as `NameAt::read` says.
fn read_unlink(alloc: Global, reader: &mut Reader<'_>) -> Result<Op, Refusal>
    ensures { Takes unlink_fields reader.old result reader.new }
{
    // names the type for the prover (docs/ARCHITECTURE.md, "Forms the kit wants")
    let _file: Option<FileId> = None;
    let NameAt { dir, name, file } = NameAt::read(alloc, reader)?;
    Ok(Op::Unlink(Unlink { dir, name, file }))
}

/// Returns how many bytes an operation has in an item: the number of its kind, and its fields.
/// `BadNumber` where it can't be spelled: a write of no bytes, or of more than `LARGEST_WRITE`.
pub fn size(operation: &Op) -> Result<usize, Refusal>
    ensures spelled { IfOk result (λ size. CanBeSpelled operation.now) }
    ensures size { IfOk result (λ size. size ≡ length (op_bytes operation.now)) }
    ensures few { IfOk result (λ size. size ≤ 65_551) }
    ensures refused { IfErr result (λ e.
        (e ≡ BadNumber) × (CanBeSpelled operation.now → ⊥)) }
{
    match operation {
        Op::Create(create) => Ok(19 + create.name.as_bytes().len()),
        Op::Write(write) => write::size(write),
        Op::Truncate(_) => Ok(11),
        Op::Link(link) => Ok(14 + link.name.as_bytes().len()),
        Op::Rename(rename) => Ok(rename::size(rename)),
        Op::Unlink(unlink) => Ok(14 + unlink.name.as_bytes().len()),
        Op::Take(_) => Ok(11),
        Op::Drop(_) => Ok(5),
    }
}

/// Writes the number of its kind, and its fields. Fails only where there is no room.
pub fn write(writer: &mut Writer, operation: &Op) -> Result<(), AllocError>
    requires { CanBeSpelled operation.now }
    ensures { OnOk result
        (IsOp operation.now × (writer.new ≡ writer.old ++ op_bytes operation.now)) }
{
    match operation {
        Op::Create(create) => create::write(writer, 1, create),
        Op::Write(write) => write::write(writer, 2, write),
        Op::Truncate(truncate) => truncate::write(writer, 3, truncate),
        Op::Link(link) => write_name(writer, 4, link.dir, &link.name, link.file),
        Op::Rename(rename) => rename::write(writer, 5, rename),
        Op::Unlink(unlink) => write_name(writer, 6, unlink.dir, &unlink.name, unlink.file),
        Op::Take(take) => take::write(writer, 7, take),
        Op::Drop(dropped) => drop_body::write(writer, 8, dropped),
    }
}

/// Writes the number of the kind, and a name in a directory with its file. Fails only where there
/// is no room.
fn write_name(
    writer: &mut Writer,
    number: u8,
    dir: FileId,
    name: &Name,
    file: FileId,
) -> Result<(), AllocError>
    ensures meant { OnOk result
        (IsNameAt (record { dir = dir; name = name.now; file = file })) }
    ensures value { OnOk result (writer.new ≡ writer.old
        ++ (number ∷ name_at_bytes (record { dir = dir; name = name.now; file = file }))) }
{
    writer.put_u8(number)?;
    NameAt::write(writer, dir, name, file)
}
