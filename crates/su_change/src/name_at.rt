// A name in a directory and its file, in bytes.
ghost use Rattle.std.specs.Prelude.{◌≡◌, ◌++◌, OnOk};
ghost use Rattle.su_format.specs.Reading.{Takes};
ghost use Rattle.su_change.specs.NameAt.{IsNameAt, name_at_bytes, name_at_format};

use std::alloc::{AllocError, Global};
use su_bytes::{FileId, Name, Refusal};
use su_format::{Reader, Writer};

/// A directory, a name in it, and the file that the name leads to: what a create and a link make,
/// and an unlink takes away.
#[derive(Debug, Drop)]
pub struct NameAt {
    pub dir: FileId,
    pub name: Name,
    pub file: FileId,
}

impl NameAt {
    /// Reads the directory, the name, the file. `Malformed` with the place of the first of them
    /// that isn't there, `NoMemory` where there is no room for the name.
    pub fn read(alloc: Global, reader: &mut Reader<'_>) -> Result<NameAt, Refusal>
        ensures { Takes name_at_format reader.old result reader.new }
    {
        // names the type for the prover (docs/ARCHITECTURE.md, "Forms the kit wants")
        let _file: Option<FileId> = None;
        let dir = reader.take_file_id()?;
        let name = reader.take_name(alloc)?;
        let file = reader.take_file_id()?;
        Ok(NameAt { dir, name, file })
    }

    /// Writes the three in the same order. Fails only where there is no room.
    pub fn write(
        writer: &mut Writer,
        dir: FileId,
        name: &Name,
        file: FileId,
    ) -> Result<(), AllocError>
        ensures meant { OnOk result
            (IsNameAt (record { dir = dir; name = name.now; file = file })) }
        ensures value { OnOk result (writer.new
            ≡ writer.old ++ name_at_bytes (record { dir = dir; name = name.now; file = file })) }
    {
        writer.put_file_id(dir)?;
        writer.put_name(name)?;
        writer.put_file_id(file)
    }
}
