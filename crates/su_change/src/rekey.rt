// A user's next key, in bytes.
ghost use Rattle.std.specs.Prelude.{◌≡◌, ◌+◌, ◌≤◌, ◌∷◌, ◌++◌, length, OnOk};
ghost use Rattle.su_format.specs.Reading.{Takes};
ghost use Rattle.su_change.specs.Rekey.{IsKey, rekey_fields};

use std::alloc::AllocError;
use su_bytes::{FileId, KEY_LENGTH, Refusal};
use su_format::{Reader, Writer};
use su_op::Change;

/// Reads a rekey: the bytes of the key.
pub fn read(reader: &mut Reader<'_>) -> Result<Change, Refusal>
    ensures { Takes rekey_fields reader.old result reader.new }
{
    // names the type for the prover (docs/ARCHITECTURE.md, "Forms the kit wants")
    let _file: Option<FileId> = None;
    let bytes = reader.take_bytes(KEY_LENGTH)?;
    let mut key = [0u8; KEY_LENGTH];
    key.copy_from_slice(bytes);
    Ok(Change::Rekey(key))
}

/// Returns how many bytes a rekey has in an item, with the number of its kind.
pub fn size(key: &[u8; KEY_LENGTH]) -> usize
    ensures size { result ≡ 1 + length key.now }
    ensures few { result ≤ 57 }
{
    1 + key.len()
}

/// Writes the number of the kind, and the bytes of the key.
pub fn write(writer: &mut Writer, number: u8, key: &[u8; KEY_LENGTH]) -> Result<(), AllocError>
    ensures { OnOk result
        (IsKey key.now × (writer.new ≡ writer.old ++ (number ∷ key.now))) }
{
    writer.put_u8(number)?;
    writer.put_bytes(key)
}
