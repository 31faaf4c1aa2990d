// From the bytes of a line to what it says, by the form of its command. Its numbers and names may
// still be outside their ranges.
ghost use Rattle.std.specs.Prelude.{◌≡◌, IfOk, length, map, nat_eq, option_map};
ghost use Rattle.std.specs.List.{list_any, position};
ghost use Rattle.su_desk_lines.specs.Desk.{is_operation, line_said, operations_of, read_alone, read_batch, read_command, read_operation, read_row, read_user, read_words, row_said, spoken_of};
ghost use Rattle.su_desk_lines.specs.Form.{row_of};
ghost use Rattle.su_desk_lines.specs.Raw.{file_of, principal_of, texts};
ghost use Rattle.su_desk_lines.specs.Script.{read_bytes, read_file, read_key, read_number, read_principal, words_of};

use crate::forms::{Form, find_form};
use crate::lines::LONGEST_LINE;
use crate::values::{Value, read_values};
use crate::verbs::{BATCH, ChangeVerb, NEXT_OPERATION, OTHER_FORMS, USER_FORMS, Verb};
use hex::{FromHex, FromHexError};
use memchr::memchr;
use std::alloc::{AllocError, Global};
use su_bytes::KEY_LENGTH;

/// Digits of the longest number.
const MOST_DIGITS: usize = 20;

/// A user or a group as a line names it.
#[derive(Clone, Copy)]
pub enum RawPrincipal {
    User(u64),
    Group(u64),
}

/// A file id as a line names it: the number of a file of that user or group.
#[derive(Clone, Copy)]
pub struct RawFile {
    pub owner: RawPrincipal,
    pub number: u64,
}

/// A command as a line says it: which it is, or which operations a batch has, in their order; and
/// what its words say, of which the first is the user of a command that is a user's.
#[derive(Drop)]
pub struct Spoken<'a> {
    pub verbs: Vec<Verb>,
    pub values: Vec<Value<'a>>,
}

/// Reads a line. `None` where it is no command. Fails where there is no memory for its words.
pub fn parse_line<'a>(alloc: Global, line: &'a [u8]) -> Result<Option<Spoken<'a>>, AllocError>
    ensures { IfOk result (λ said. option_map spoken_of said ≡ line_said line.now) }
{
    if LONGEST_LINE < line.len() {
        return Ok(None);
    }
    let words = split_words(alloc, line)?;
    if has_empty_word(words.as_slice()) {
        return Ok(None);
    }
    read_words(alloc, words.as_slice())
}

/// Splits a line at single spaces. Fails where there is no memory for the list of words.
pub fn split_words<'a>(alloc: Global, line: &'a [u8]) -> Result<Vec<&'a [u8]>, AllocError>
    ensures { IfOk result (λ words. texts words.items ≡ words_of line.now) }
{
    line.split(|byte| *byte == b' ').collect(alloc)
}

/// Whether one of the words is empty.
pub fn has_empty_word(words: &[&[u8]]) -> bool
    ensures { result ≡ list_any (λ word. nat_eq (length word.now) 0) words.now }
{
    words.iter().any(|word| word.is_empty())
}

/// Reads words of which none is empty. The first is the number of a user, or the word of a command
/// that is no user's.
fn read_words<'a>(alloc: Global, words: &[&'a [u8]]) -> Result<Option<Spoken<'a>>, AllocError>
    ensures { IfOk result (λ said. option_map spoken_of said ≡ read_words (texts words.now)) }
{
    let [first, others @ ..] = words else {
        return Ok(None);
    };
    match read_number(first) {
        Some(user) => read_user(alloc, user, others),
        None => read_alone(alloc, find_form(&OTHER_FORMS, first), others),
    }
}

/// Reads a command of a user, after the user's number.
fn read_user<'a>(
    alloc: Global,
    user: u64,
    words: &[&'a [u8]],
) -> Result<Option<Spoken<'a>>, AllocError>
    ensures { IfOk result (λ said. option_map spoken_of said ≡ read_user user (texts words.now)) }
{
    let [word, arguments @ ..] = words else {
        return Ok(None);
    };
    let Some(said) = read_command(alloc, word, arguments)? else {
        return Ok(None);
    };
    let Spoken { verbs, mut values } = said;
    values.insert(0, Value::User(user))?;
    Ok(Some(Spoken { verbs, values }))
}

/// Reads a command of a user by its own word, and the words after it. `None` where no command has
/// them.
fn read_command<'a>(
    alloc: Global,
    word: &[u8],
    arguments: &[&'a [u8]],
) -> Result<Option<Spoken<'a>>, AllocError>
    ensures { IfOk result (λ said.
        option_map spoken_of said ≡ read_command word.now (texts arguments.now)) }
{
    if BATCH.as_bytes() == word {
        read_batch(alloc, arguments)
    } else {
        read_alone(alloc, find_form(&USER_FORMS, word), arguments)
    }
}

/// Reads the operations of a batch, between which the word `+` stands. `None` where one of them is
/// no operation. Fails where there is no memory for what they say.
fn read_batch<'a>(alloc: Global, words: &[&'a [u8]]) -> Result<Option<Spoken<'a>>, AllocError>
    ensures { IfOk result (λ said. option_map spoken_of said ≡ read_batch (texts words.now)) }
{
    let operations = operations_in(alloc, words)?;
    let mut verbs = Vec::new(alloc);
    let mut values = Vec::new(alloc);
    for operation in &operations {
        let Some((verb, mut said)) = read_operation(alloc, operation)? else {
            return Ok(None);
        };
        verbs.push(verb)?;
        values.append(&mut said)?;
    }
    Ok(Some(Spoken { verbs, values }))
}

/// Splits the words of a batch into those of each of its operations, between which the word `+`
/// stands. Fails where there is no memory for the list.
fn operations_in<'b, 'a>(
    alloc: Global,
    words: &'b [&'a [u8]],
) -> Result<Vec<&'b [&'a [u8]]>, AllocError>
    ensures { IfOk result (λ operations.
        map (λ part. texts part.now) operations.items ≡ operations_of (texts words.now)) }
{
    words
        .split(|word| NEXT_OPERATION.as_bytes() == *word)
        .collect(alloc)
}

/// Reads the words of one operation of a batch. `None` where no operation has them.
pub(crate) fn read_operation<'a>(
    alloc: Global,
    words: &[&'a [u8]],
) -> Result<Option<(Verb, Vec<Value<'a>>)>, AllocError>
    ensures { IfOk result (λ said. option_map row_said said ≡ read_operation (texts words.now)) }
{
    let [word, arguments @ ..] = words else {
        return Ok(None);
    };
    let Some((verb, values)) = read_row(alloc, find_form(&USER_FORMS, word), arguments)? else {
        return Ok(None);
    };
    if is_operation(verb) {
        Ok(Some((verb, values)))
    } else {
        Ok(None)
    }
}

/// Tells whether a command makes an operation, as each one of a batch does.
pub(crate) fn is_operation(verb: Verb) -> bool
    ensures { result ≡ is_operation verb }
{
    match verb {
        Verb::Change(ChangeVerb::Undo) => false,
        Verb::Change(ChangeVerb::Rekey) => false,
        Verb::Change(_) => true,
        _ => false,
    }
}

/// Reads the words after a command's own by its row, as those of a whole line. `None` where no
/// command has one.
fn read_alone<'a>(
    alloc: Global,
    row: Option<&Form<Verb>>,
    arguments: &[&'a [u8]],
) -> Result<Option<Spoken<'a>>, AllocError>
    ensures { IfOk result (λ said. option_map spoken_of said
        ≡ read_alone (option_map (λ form. row_of form.now) row.entry) (texts arguments.now)) }
{
    let Some((verb, values)) = read_row(alloc, row, arguments)? else {
        return Ok(None);
    };
    let mut verbs = Vec::new(alloc);
    verbs.push(verb)?;
    Ok(Some(Spoken { verbs, values }))
}

/// Reads the words after a command's own by its row. `None` where no command has one.
fn read_row<'a>(
    alloc: Global,
    row: Option<&Form<Verb>>,
    arguments: &[&'a [u8]],
) -> Result<Option<(Verb, Vec<Value<'a>>)>, AllocError>
    ensures { IfOk result (λ said. option_map row_said said
        ≡ read_row (option_map (λ form. row_of form.now) row.entry) (texts arguments.now)) }
{
    let Some(form) = row else {
        return Ok(None);
    };
    match read_values(alloc, form.2, arguments)? {
        Some(values) => Ok(Some((form.1, values))),
        None => Ok(None),
    }
}

/// Reads a number of 1 to 20 decimal digits. `None` where the word is no such digits, or the number
/// doesn't fit 64 bits.
#[tactic(auto, unfolding(crate::specs::Script::read_number))]
pub fn read_number(word: &[u8]) -> Option<u64>
    ensures { result ≡ read_number word.now }
{
    if word.is_empty() || MOST_DIGITS < word.len() {
        return None;
    }
    let mut value: u64 = 0;
    for byte in word {
        if !byte.is_ascii_digit() {
            return None;
        }
        value = value.checked_mul(10)?.checked_add(u64::from(*byte - b'0'))?;
    }
    Some(value)
}

/// Reads a user as `U0` or a group as `G0`.
#[tactic(auto, unfolding(crate::specs::Script::read_principal))]
pub(crate) fn read_principal(word: &[u8]) -> Option<RawPrincipal>
    ensures { option_map principal_of result ≡ read_principal word.now }
{
    let [letter, digits @ ..] = word else {
        return None;
    };
    match letter {
        b'U' => Some(RawPrincipal::User(read_number(digits)?)),
        b'G' => Some(RawPrincipal::Group(read_number(digits)?)),
        _ => None,
    }
}

/// Reads a file id as `U0:2` or `G0:1`.
#[tactic(auto, unfolding(crate::specs::Script::read_file))]
pub(crate) fn read_file(word: &[u8]) -> Option<RawFile>
    ensures { option_map file_of result ≡ read_file word.now }
{
    let colon = first_colon(word)?;
    let owner = read_principal(&word[..colon])?;
    let number = read_number(&word[colon + 1..])?;
    Some(RawFile { owner, number })
}

/// The place of the first colon, if there is one.
fn first_colon(word: &[u8]) -> Option<usize>
    ensures { result ≡ position (λ b. nat_eq b 58) word.now }
{
    memchr(b':', word)
}

/// Reads bytes from their hex digits, of either case, two a byte. `None` where the word is no such
/// digits. Fails where there is no memory for the bytes.
#[tactic(auto, unfolding(crate::specs::Script::read_bytes))]
pub fn read_bytes(alloc: Global, word: &[u8]) -> Result<Option<Vec<u8>>, AllocError>
    ensures { IfOk result (λ bytes. option_map (λ v. v.items) bytes ≡ read_bytes word.now) }
{
    match hex::decode(alloc, word) {
        Ok(bytes) => Ok(Some(bytes)),
        Err(FromHexError::OutOfMemory) => Err(AllocError),
        Err(_) => Ok(None),
    }
}

/// Reads the bytes of a public key from their 112 hex digits, of either case. `None` where the word
/// is no such digits.
#[tactic(auto, unfolding(crate::specs::Script::read_key))]
pub(crate) fn read_key(word: &[u8]) -> Option<[u8; KEY_LENGTH]>
    ensures { result ≡ read_key word.now }
{
    <[u8; KEY_LENGTH] as FromHex>::from_hex(word).ok()
}
