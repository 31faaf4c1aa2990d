// The words of a command, each within its range, to be taken one after the other.
ghost use Rattle.std.specs.Prelude.{◌≡◌, ◌⊎◌, ◌∷◌, [], ◌↔◌, true, false, None, Some, IfOk, IfErr, IfSome, OnOk, IsTrue, is_some, map};
ghost use Rattle.su_bytes.specs.declared.refusals.Refusal.TheVariants.{BadName, BadNumber, NoMemory};
ghost use Rattle.su_desk_lines.specs.Form.{is_good_name, is_good_number, value_refusal, Value.User as SaysUser, Value.Number as SaysNumber, Value.Size as SaysSize, Value.Bytes as SaysBytes, Value.Key as SaysKey, Value.Text as SaysText, Value.Body as SaysBody, Value.Name as SaysName, Value.File as SaysFile, Value.Principal as SaysPrincipal};
ghost use Rattle.su_desk_lines.specs.Value.{left_of, said_by, value_of};

use crate::ranges::{file_id, principal_id};
use crate::values::Value;
use std::alloc::{AllocError, Global};
use std::collections::VecDeque;
use su_bytes::{FileId, Inum, KEY_LENGTH, Name, Principal, Refusal, User};

/// What a word of a command says, which is within its range.
#[derive(Drop)]
pub enum Word {
    User(User),
    Number(u64),
    Size(u32),
    Body(Inum),
    Name(Name),
    File(FileId),
    Principal(Principal),
    Bytes(Vec<u8>),
    Key([u8; KEY_LENGTH]),
    Text(Vec<u8>),
}

/// The words of a command that are still to be taken, in their order.
#[derive(Drop)]
pub struct Words {
    left: VecDeque<Word>,
}

/// Checks the words of a command. Refuses a bad name by `BadName`, then any other word outside its
/// range by `BadNumber`; fails with `NoMemory` where there is no room for the words.
pub fn check_values(alloc: Global, values: Vec<Value<'_>>) -> Result<Words, Refusal>
    ensures value { IfOk result (λ words. left_of words ≡ map value_of values.entry.items) }
    ensures accepted { OnOk result (value_refusal (map value_of values.entry.items) ≡ None) }
    ensures refused { IfErr result (λ e.
        (e ≡ NoMemory) ⊎ (value_refusal (map value_of values.entry.items) ≡ Some e)) }
{
    let mut left = VecDeque::new(alloc);
    let mut in_range = true;
    for value in values {
        match check_value(alloc, value)? {
            Some(word) => left.push_back(word)?,
            None => in_range = false,
        }
    }
    if in_range {
        Ok(Words { left })
    } else {
        Err(Refusal::BadNumber)
    }
}

/// Checks a word. `None` where it is a number outside its range, or has one. Refuses a bad name by
/// `BadName`; fails with `NoMemory` where there is no room for the word.
fn check_value(alloc: Global, value: Value<'_>) -> Result<Option<Word>, Refusal>
    ensures value { IfOk result (λ word. IfSome word (λ w. said_by w ≡ value_of value.entry)) }
    ensures number { IfOk result (λ word. is_good_number (value_of value.entry) ≡ is_some word) }
    ensures name { OnOk result (is_good_name (value_of value.entry) ≡ true) }
    ensures refused { IfErr result (λ e. (e ≡ NoMemory)
        ⊎ ((e ≡ BadName) × (is_good_name (value_of value.entry) ≡ false))) }
{
    match value {
        Value::User(number) => match User::new(number) {
            Ok(user) => Ok(Some(Word::User(user))),
            Err(_) => Ok(None),
        },
        Value::Number(number) => Ok(Some(Word::Number(number))),
        Value::Size(size) => match u32::try_from(size) {
            Ok(size) => Ok(Some(Word::Size(size))),
            Err(_) => Ok(None),
        },
        Value::Body(number) => match Inum::new(number) {
            Ok(number) => Ok(Some(Word::Body(number))),
            Err(_) => Ok(None),
        },
        Value::Name(name) => Ok(Some(Word::Name(Name::new(alloc, name)?))),
        Value::File(file) => match file_id(file) {
            Ok(file) => Ok(Some(Word::File(file))),
            Err(_) => Ok(None),
        },
        Value::Principal(principal) => match principal_id(principal) {
            Ok(principal) => Ok(Some(Word::Principal(principal))),
            Err(_) => Ok(None),
        },
        Value::Bytes(bytes) => Ok(Some(Word::Bytes(bytes))),
        Value::Key(key) => Ok(Some(Word::Key(key))),
        Value::Text(text) => Ok(Some(Word::Text(Vec::from_slice(alloc, text)?))),
    }
}

impl Words {
    /// Whether no word is left.
    pub fn is_empty(&self) -> bool
        ensures { IsTrue result ↔ (left_of self.now ≡ []) }
    {
        self.left.is_empty()
    }

    /// Takes the user whose command it is. `None` where another word comes next, or none.
    pub fn take_user(&mut self) -> Option<User>
        ensures { IfSome result (λ a. left_of self.old ≡ SaysUser a ∷ left_of self.new) }
    {
        match self.left.pop_front()? {
            Word::User(user) => Some(user),
            _ => None,
        }
    }

    /// Takes a number. `None` where another word comes next, or none.
    pub fn take_number(&mut self) -> Option<u64>
        ensures { IfSome result (λ n. left_of self.old ≡ SaysNumber n ∷ left_of self.new) }
    {
        match self.left.pop_front()? {
            Word::Number(number) => Some(number),
            _ => None,
        }
    }

    /// Takes a number that fits 32 bits. `None` where another word comes next, or none.
    pub fn take_size(&mut self) -> Option<u32>
        ensures { IfSome result (λ n. left_of self.old ≡ SaysSize n ∷ left_of self.new) }
    {
        match self.left.pop_front()? {
            Word::Size(size) => Some(size),
            _ => None,
        }
    }

    /// Takes bytes. `None` where another word comes next, or none.
    pub fn take_bytes(&mut self) -> Option<Vec<u8>>
        ensures { IfSome result (λ bytes.
            left_of self.old ≡ SaysBytes bytes.items ∷ left_of self.new) }
    {
        match self.left.pop_front()? {
            Word::Bytes(bytes) => Some(bytes),
            _ => None,
        }
    }

    /// Takes a public key. `None` where another word comes next, or none.
    pub fn take_key(&mut self) -> Option<[u8; KEY_LENGTH]>
        ensures { IfSome result (λ key. left_of self.old ≡ SaysKey key ∷ left_of self.new) }
    {
        match self.left.pop_front()? {
            Word::Key(key) => Some(key),
            _ => None,
        }
    }

    /// Takes a word as it is written. `None` where another word comes next, or none.
    pub fn take_text(&mut self) -> Option<Vec<u8>>
        ensures { IfSome result (λ text. left_of self.old ≡ SaysText text.items ∷ left_of self.new) }
    {
        match self.left.pop_front()? {
            Word::Text(text) => Some(text),
            _ => None,
        }
    }

    /// Takes the number at which a file stands. `None` where another word comes next, or none.
    pub fn take_body(&mut self) -> Option<Inum>
        ensures { IfSome result (λ n. left_of self.old ≡ SaysBody n ∷ left_of self.new) }
    {
        match self.left.pop_front()? {
            Word::Body(number) => Some(number),
            _ => None,
        }
    }

    /// Takes a name. `None` where another word comes next, or none.
    pub fn take_name(&mut self) -> Option<Name>
        ensures { IfSome result (λ name. left_of self.old ≡ SaysName name ∷ left_of self.new) }
    {
        match self.left.pop_front()? {
            Word::Name(name) => Some(name),
            _ => None,
        }
    }

    /// Takes a file id. `None` where another word comes next, or none.
    pub fn take_file(&mut self) -> Option<FileId>
        ensures { IfSome result (λ file. left_of self.old ≡ SaysFile file ∷ left_of self.new) }
    {
        let word = self.left.pop_front()?;
        match &word {
            Word::File(file) => Some(*file),
            _ => None,
        }
    }

    /// Takes a user or a group. `None` where another word comes next, or none.
    pub fn take_principal(&mut self) -> Option<Principal>
        ensures { IfSome result (λ p. left_of self.old ≡ SaysPrincipal p ∷ left_of self.new) }
    {
        let word = self.left.pop_front()?;
        match &word {
            Word::Principal(principal) => Some(*principal),
            _ => None,
        }
    }
}
