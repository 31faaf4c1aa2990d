// How what is shown is read back.
ghost use Rattle.std.specs.Prelude.{◌≡◌, ◌≤◌, ◌∷◌, [], ◌⊎◌, IfOk, IfErr, IfSome, Some, None, option_map, length};
ghost use Rattle.su_spelling.specs.Read.{escaped, path_read, read};
ghost use Rattle.su_bytes.specs.declared.refusals.Refusal.TheVariants.{BadPath, NoMemory};

use std::alloc::Global;
use su_bytes::Refusal;

/// Returns the bytes that a text spells: an escape `\xHH`, with digits in either case, is its byte,
/// and each other byte is itself. `BadPath` where a backslash begins no escape, `NoMemory` where
/// there is no room.
pub fn read(alloc: Global, text: &[u8]) -> Result<Vec<u8>, Refusal>
    ensures value { IfOk result (λ name. read text.now ≡ Some name.items) }
    ensures bad { result ≡ Err BadPath → read text.now ≡ None }
    ensures refused { IfErr result (λ e. (e ≡ BadPath) ⊎ (e ≡ NoMemory)) }
{
    let mut name = Vec::new(alloc);
    let mut left = text;
    while let [first, behind @ ..] = left {
        if *first == b'\\' {
            let byte = escaped(behind).ok_or(Refusal::BadPath)?;
            name.push(byte)?;
            left = &behind[3..];
        } else {
            name.push(*first)?;
            left = behind;
        }
    }
    Ok(name)
}

/// Returns the bytes of a path that a text spells, with the first `/` where the text lacks it. The
/// refusals of `read`.
pub fn read_path(alloc: Global, text: &[u8]) -> Result<Vec<u8>, Refusal>
    ensures value { IfOk result (λ path. path_read text.now ≡ Some path.items) }
    ensures bad { result ≡ Err BadPath → path_read text.now ≡ None }
    ensures refused { IfErr result (λ e. (e ≡ BadPath) ⊎ (e ≡ NoMemory)) }
{
    let mut path = read(alloc, text)?;
    if path.first() != Some(&b'/') {
        path.insert(0, b'/')?;
    }
    Ok(path)
}

/// Returns the byte of an escape, by what is behind its backslash.
fn escaped(behind: &[u8]) -> Option<u8>
    ensures value { option_map (λ byte. byte ∷ []) result ≡ escaped behind.now }
    ensures room { IfSome result (λ byte. 3 ≤ length behind.now) }
{
    let [b'x', high, low, ..] = behind else {
        return None;
    };
    let mut byte = [0];
    hex::decode_to_slice(&[*high, *low], &mut byte).ok()?;
    Some(byte[0])
}
