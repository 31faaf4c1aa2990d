// How a name is shown.
ghost use Rattle.std.specs.Prelude.{◌≡◌, ◌<◌, ◌++◌, IfOk, OnOk, MatchOption, true, false, take, length};
ghost use Rattle.std.specs.String.{string_bytes};
ghost use Rattle.su_spelling.specs.Shown.{begins_text, char_len, escape, is_hidden, plain_len, shown};

use std::alloc::{AllocError, Global};
use std::str;

/// Most bytes of a character.
const LONGEST_CHARACTER: usize = 4;

/// Returns how a name or a path is shown: its characters as they are, and as `\xHH`, with two
/// digits in lower case, each byte below 0x20, each 0x7f, each backslash, and each byte that is in
/// no character, as the bytes aren't UTF-8 there.
pub fn shown(alloc: Global, name: &[u8]) -> Result<String, AllocError>
    ensures { IfOk result (λ text. string_bytes text ≡ shown name.now) }
{
    let mut text = String::new(alloc);
    let mut left = name;
    while let [first, behind @ ..] = left {
        if let Some(front) = plain_front(left) {
            text.push_str(front)?;
            left = &left[front.len()..];
        } else {
            push_escape(alloc, &mut text, *first)?;
            left = behind;
        }
    }
    Ok(text)
}

/// Appends `\xHH`.
fn push_escape(alloc: Global, text: &mut String, byte: u8) -> Result<(), AllocError>
    ensures { OnOk result (string_bytes text.new ≡ string_bytes text.old ++ escape byte) }
{
    let digits = hex::encode(alloc, &[byte])?;
    text.push_str("\\x")?;
    text.push_str(digits.as_str())
}

/// Lends the character that these bytes begin with, if there is one and it is shown as it is.
fn plain_front(bytes: &[u8]) -> Option<&str>
    requires { 0 < length bytes.now }
    ensures { MatchOption result (plain_len bytes.now ≡ 0)
        (λ front. (front.now ≡ take (plain_len bytes.now) bytes.now) × (0 < plain_len bytes.now)) }
{
    if is_hidden(bytes[0]) {
        return None;
    }
    front_character(bytes)
}

/// Whether a byte is shown by its escape wherever it stands.
fn is_hidden(byte: u8) -> bool
    ensures { result ≡ is_hidden byte }
{
    byte < 0x20 || byte == 0x7f || byte == b'\\'
}

/// Lends the character that these bytes begin with, if there is one.
fn front_character(bytes: &[u8]) -> Option<&str>
    ensures { MatchOption result (char_len bytes.now ≡ 0)
        (λ front. (front.now ≡ take (char_len bytes.now) bytes.now) × (0 < char_len bytes.now)) }
{
    for len in 1..=LONGEST_CHARACTER {
        if let Some(front) = front_text(bytes, len) {
            return Some(front);
        }
    }
    None
}

/// Lends the first `len` bytes, if there are so many and they are a text.
fn front_text(bytes: &[u8], len: usize) -> Option<&str>
    ensures { MatchOption result (begins_text bytes.now len ≡ false)
        (λ front. (front.now ≡ take len bytes.now) × (begins_text bytes.now len ≡ true)) }
{
    match str::from_utf8(bytes.get(..len)?) {
        Ok(front) => Some(front),
        Err(_) => None,
    }
}
