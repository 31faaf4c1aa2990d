// What the words of a command say, read by its form. Numbers and names may still be outside their
// ranges.
ghost use Rattle.std.specs.Prelude.{◌≡◌, IfOk, map, option_map};
ghost use Rattle.su_desk_lines.specs.Form.{first_value, left_out, own_body, read_plain, read_value, read_values, words_after};
ghost use Rattle.su_desk_lines.specs.Raw.{texts};
ghost use Rattle.su_desk_lines.specs.Value.{value_of};

use crate::forms::WordKind;
use crate::parse::{
    RawFile, RawPrincipal, read_bytes, read_file, read_key, read_number, read_principal,
};
use std::alloc::{AllocError, Global};
use su_bytes::KEY_LENGTH;

/// What a word of a command says.
#[derive(Drop)]
pub enum Value<'a> {
    /// The user whose command it is.
    User(u64),
    Number(u64),
    /// A number that is to fit 32 bits.
    Size(u64),
    /// The number at which a file stands.
    Body(u64),
    Name(&'a [u8]),
    File(RawFile),
    Principal(RawPrincipal),
    Bytes(Vec<u8>),
    /// The bytes of a public key.
    Key([u8; KEY_LENGTH]),
    /// A word as it is written.
    Text(&'a [u8]),
}

/// Reads the words after a command's own by their kinds. `None` where there are too few or too many,
/// or where one is not of its kind. Fails where there is no memory for what they say.
pub fn read_values<'a>(
    alloc: Global,
    kinds: &[WordKind],
    words: &[&'a [u8]],
) -> Result<Option<Vec<Value<'a>>>, AllocError>
    ensures { IfOk result (λ values.
        option_map (λ vs. map value_of vs.items) values ≡ read_values kinds.now (texts words.now)) }
{
    let mut values = Vec::new(alloc);
    let mut own = None;
    let mut left = kinds;
    let mut rest = words;
    while let [kind, others @ ..] = left {
        let Some(value) = first_value(alloc, *kind, own, rest)? else {
            return Ok(None);
        };
        own = own_body(&value);
        rest = words_after(rest);
        left = others;
        values.push(value)?;
    }
    if rest.is_empty() {
        Ok(Some(values))
    } else {
        Ok(None)
    }
}

/// Reads the first word by its kind, or gives what stands for it where none is left.
fn first_value<'a>(
    alloc: Global,
    kind: WordKind,
    own: Option<u64>,
    words: &[&'a [u8]],
) -> Result<Option<Value<'a>>, AllocError>
    ensures { IfOk result (λ value.
        option_map value_of value ≡ first_value kind own (texts words.now)) }
{
    match words {
        [word, ..] => read_value(alloc, kind, word),
        [] => Ok(left_out(kind, own)),
    }
}

/// The words after the first.
fn words_after<'b, 'a>(words: &'b [&'a [u8]]) -> &'b [&'a [u8]]
    ensures { texts result.now ≡ words_after (texts words.now) }
{
    match words {
        [_, others @ ..] => others,
        [] => words,
    }
}

/// Reads a word of a kind. `None` where it is no such word. Fails where there is no memory for the
/// bytes that hex digits say.
fn read_value<'a>(
    alloc: Global,
    kind: WordKind,
    word: &'a [u8],
) -> Result<Option<Value<'a>>, AllocError>
    ensures { IfOk result (λ value. option_map value_of value ≡ read_value kind word.now) }
{
    match kind {
        WordKind::Hex => match read_bytes(alloc, word)? {
            Some(bytes) => Ok(Some(Value::Bytes(bytes))),
            None => Ok(None),
        },
        _ => Ok(read_plain(kind, word)),
    }
}

/// Reads a word of any kind but `Hex`.
fn read_plain<'a>(kind: WordKind, word: &'a [u8]) -> Option<Value<'a>>
    ensures { option_map value_of result ≡ read_plain kind word.now }
{
    match kind {
        WordKind::Number => Some(Value::Number(read_number(word)?)),
        WordKind::Size => Some(Value::Size(read_number(word)?)),
        WordKind::Body => Some(Value::Body(read_number(word)?)),
        WordKind::OwnBody => Some(Value::Body(read_number(word)?)),
        WordKind::Name => Some(Value::Name(word)),
        WordKind::File => Some(Value::File(read_file(word)?)),
        WordKind::Principal => Some(Value::Principal(read_principal(word)?)),
        WordKind::Path => Some(Value::Text(word)),
        WordKind::FileName => Some(Value::Text(word)),
        WordKind::Key => Some(Value::Key(read_key(word)?)),
        WordKind::Hex => None,
    }
}

/// What stands for a word that is left out after a file with that number of its own: for the number
/// at which a file stands, the own one.
fn left_out<'a>(kind: WordKind, own: Option<u64>) -> Option<Value<'a>>
    ensures { option_map value_of result ≡ left_out kind own }
{
    match kind {
        WordKind::OwnBody => Some(Value::Body(own?)),
        _ => None,
    }
}

/// The number of its own that a file of a user has.
fn own_body(value: &Value<'_>) -> Option<u64>
    ensures { result ≡ own_body (value_of value.now) }
{
    match value {
        Value::File(file) => match file.owner {
            RawPrincipal::User(_) => Some(file.number),
            RawPrincipal::Group(_) => None,
        },
        _ => None,
    }
}
