// Who the user of a state folder is: the text of `me`.
ghost use Rattle.std.specs.Prelude.{◌≡◌, IfOk, IfSome};
ghost use Rattle.std.specs.String.{string_bytes};
ghost use Rattle.su_folder.specs.Text.{me_text};

use std::alloc::{AllocError, Global};
use std::str;

/// A user by the name, and the path of the user's key file.
#[derive(Drop)]
pub(crate) struct Me {
    pub(crate) name: Vec<u8>,
    pub(crate) key: String,
}

/// Spells the text of `me`.
pub(crate) fn spelled_me(alloc: Global, name: &[u8], key: &str) -> Result<Vec<u8>, AllocError>
    ensures { IfOk result (λ text. text.items ≡ me_text name.now key.now) }
{
    let mut text = Vec::from_slice(alloc, name)?;
    text.push(b'\n')?;
    text.extend_from_slice(key.as_bytes())?;
    text.push(b'\n')?;
    Ok(text)
}

/// Reads the text of `me`. `None` where it isn't a name and a path, on a line each, or where one of
/// them is empty.
pub(crate) fn read_me(alloc: Global, text: &[u8]) -> Result<Option<Me>, AllocError>
    ensures { IfOk result (λ found. IfSome found (λ me.
        text.now ≡ me_text me.name.items (string_bytes me.key))) }
{
    let Some(me) = parsed(alloc, text)? else {
        return Ok(None);
    };
    let spelled = spelled_me(alloc, &me.name, me.key.as_str())?;
    if spelled.as_slice() != text {
        return Ok(None);
    }
    Ok(Some(me))
}

/// Whether a path may stand on the line of a key file.
pub(crate) fn is_key_path(path: &str) -> bool {
    !path.is_empty() && !path.contains('\n')
}

/// Reads a name and a path, which may be spelled otherwise.
fn parsed(alloc: Global, text: &[u8]) -> Result<Option<Me>, AllocError> {
    let Ok(text) = str::from_utf8(text) else {
        return Ok(None);
    };
    let Some((name, key)) = text.split_once('\n') else {
        return Ok(None);
    };
    let Some(key) = key.strip_suffix('\n') else {
        return Ok(None);
    };
    if name.is_empty() || !is_key_path(key) {
        return Ok(None);
    }
    Ok(Some(Me {
        name: Vec::from_slice(alloc, name.as_bytes())?,
        key: String::from_str(alloc, key)?,
    }))
}
