// What is printed of a command.
ghost use Rattle.std.specs.Prelude.{◌≡◌, ◌++◌, IfOk, OnOk};
ghost use Rattle.su_client_script.specs.Text.{byte_shown, bytes_shown, entry_shown, listing_shown, refusal_shown};

use std::alloc::{AllocError, Global};
use su_bytes::{FileId, Name};
use su_view::ViewRefusal;

/// Writes `no NUMBER NAME ARGS`.
pub(crate) fn refused(alloc: Global, refusal: &ViewRefusal) -> Result<Vec<u8>, AllocError>
    ensures { IfOk result (λ text. text.items ≡ refusal_shown refusal.now) }
{
    let text = format!(in alloc; "no {refusal}\n")?;
    Vec::from_slice(alloc, text.as_bytes())
}

/// Writes a line for each name.
pub(crate) fn listed(alloc: Global, names: &[(Name, FileId)]) -> Result<Vec<u8>, AllocError>
    ensures { IfOk result (λ text. text.items ≡ listing_shown names.now) }
{
    let mut text = Vec::new(alloc);
    for entry in names {
        push_entry(alloc, &mut text, entry)?;
    }
    Ok(text)
}

/// Appends `NAME FILE`.
fn push_entry(alloc: Global, text: &mut Vec<u8>, entry: &(Name, FileId)) -> Result<(), AllocError>
    ensures { OnOk result (text.new.items ≡ text.old.items ++ entry_shown entry.now) }
{
    let file = entry.1;
    let file = format!(in alloc; " {file}\n")?;
    push_bytes(alloc, text, entry.0.as_bytes())?;
    text.extend_from_slice(file.as_bytes())?;
    Ok(())
}

/// Appends the bytes of a name, so that no name can look like the end of a line or another name.
fn push_bytes(alloc: Global, text: &mut Vec<u8>, bytes: &[u8]) -> Result<(), AllocError>
    ensures { OnOk result (text.new.items ≡ text.old.items ++ bytes_shown bytes.now) }
{
    for byte in bytes {
        push_byte(alloc, text, *byte)?;
    }
    Ok(())
}

/// Appends a byte as it is, or as `\xHH` where it is below 0x20, 0x7f or a backslash.
fn push_byte(alloc: Global, text: &mut Vec<u8>, byte: u8) -> Result<(), AllocError>
    ensures { OnOk result (text.new.items ≡ text.old.items ++ byte_shown byte) }
{
    if 0x20 <= byte && byte != 0x7f && byte != b'\\' {
        text.push(byte)?;
        return Ok(());
    }
    let digits = hex::encode(alloc, &[byte])?;
    text.extend_from_slice(b"\\x")?;
    text.extend_from_slice(digits.as_bytes())?;
    Ok(())
}
