// The lines that tell up to which commit a file was seen.
ghost use Rattle.std.specs.Fmt.{decimal};
ghost use Rattle.std.specs.String.{string_bytes};
ghost use Rattle.std.specs.Prelude.{◌≡◌, ◌≢◌, ◌<◌, ◌≤◌, ◌^◌, ℕ, List, Some, IfOk, IfSome, length, slice_index};
ghost use Rattle.su_spelling.specs.Shown.{AreBytes};
ghost use Rattle.su_seen.specs.Line.{seen_line};
ghost use Rattle.su_seen.specs.Tells.{Tells};

use std::alloc::{AllocError, Global};
use std::str;
use su_bytes::Refusal;

/// A file by its path, and up to which commit its user has seen it.
#[derive(Debug, Drop)]
pub struct SeenFile {
    pub number: u64,
    pub path: Vec<u8>,
}

/// Spells `NUMBER PATH`, the path as it is shown to people.
pub fn spelled_line(alloc: Global, number: u64, path: &[u8]) -> Result<String, AllocError>
    ensures { IfOk result (λ line. string_bytes line ≡ seen_line number path.now) }
{
    let mut line = format!(in alloc; "{number} ")?;
    let path = su_spelling::shown(alloc, path)?;
    line.push_str(path.as_str())?;
    Ok(line)
}

/// Reads the number and the path that a line spells, without the line feed behind it. `None` where
/// it is no line that `spelled_line` writes.
pub fn read_line(alloc: Global, line: &[u8]) -> Result<Option<SeenFile>, AllocError>
    ensures spelled { IfOk result (λ file. IfSome file (λ file.
        line.now ≡ seen_line file.number file.path.items)) }
    ensures read { IfOk result (λ file. (n : ℕ) (path : List ℕ) → n < 2 ^ 64 → AreBytes path
        → line.now ≡ seen_line n path → Tells file n path) }
{
    let Some(file) = parsed_line(alloc, line)? else {
        return Ok(None);
    };
    let spelled = spelled_line(alloc, file.number, &file.path)?;
    if spelled.as_bytes() != line {
        return Ok(None);
    }
    Ok(Some(file))
}

/// Reads a line, which may be one that isn't spelled so.
fn parsed_line(alloc: Global, line: &[u8]) -> Result<Option<SeenFile>, AllocError>
    ensures { IfOk result (λ file. (n : ℕ) (path : List ℕ) → n < 2 ^ 64 → AreBytes path
        → line.now ≡ seen_line n path → Tells file n path) }
{
    let place = place_of(b' ', line);
    if line.len() <= place {
        return Ok(None);
    }
    let Some(number) = parsed_number(&line[..place]) else {
        return Ok(None);
    };
    match su_spelling::read(alloc, &line[place + 1..]) {
        Ok(path) => Ok(Some(SeenFile { number, path })),
        Err(Refusal::BadPath) => Ok(None),
        Err(_) => Err(AllocError),
    }
}

/// Returns the place of the first byte that is this one, or how many bytes there are.
pub(crate) fn place_of(wanted: u8, bytes: &[u8]) -> usize
    ensures within { result ≤ length bytes.now }
    ensures before { (k : ℕ) → k < result → slice_index bytes.now k ≢ wanted }
    ensures at { result < length bytes.now → slice_index bytes.now result ≡ wanted }
{
    for (place, byte) in bytes.iter().enumerate() {
        if *byte == wanted {
            return place;
        }
    }
    bytes.len()
}

/// Reads a decimal number, which may be one that isn't spelled so.
fn parsed_number(digits: &[u8]) -> Option<u64>
    ensures { (n : ℕ) → n < 2 ^ 64 → digits.now ≡ decimal n → result ≡ Some n }
{
    match str::from_utf8(digits) {
        Ok(digits) => digits.parse::<u64>().ok(),
        Err(_) => None,
    }
}
