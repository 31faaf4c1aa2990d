// From the bytes of a line to what it says: its words are read by the form of its command.
ghost use Rattle.std.specs.Prelude.{◌≡◌, ◌++◌, IfOk, IfSome, map, option_map};
ghost use Rattle.su_desk_lines.specs.Form.{row_of};
ghost use Rattle.su_desk_lines.specs.Raw.{texts};
ghost use Rattle.su_desk_lines.specs.Value.{left_of, value_of};
ghost use Rattle.su_client_lines.specs.Said.{asked_of, change_of, line_of};
ghost use Rattle.su_client_lines.specs.ClientScript.{line_said, read_form, read_words, verb_said};

use crate::commands::{ClientCommand, ClientLine};
use crate::verbs::{CLIENT_FORMS, PathVerb, Verb};
use std::alloc::{AllocError, Global};
use su_bytes::Refusal;
use su_desk_lines::{
    LONGEST_LINE, Value, WordKind, Words, check_values, find_form, has_empty_word, read_values,
    split_words,
};
use su_draft::Command;

/// Reads a line. It says no command where it has more than `LONGEST_LINE` bytes or an empty word,
/// where no command has its first word, and where its further words are too few, too many or not
/// what the command wants there. The offset of a write and the size of a truncation are refused by
/// `BadNumber` where they don't fit 32 bits. Fails where there is no memory for the words.
pub fn read_line(alloc: Global, line: &[u8]) -> Result<ClientLine, AllocError>
    ensures { IfOk result (λ said. line_of said ≡ line_said line.now) }
{
    if LONGEST_LINE < line.len() {
        return Ok(ClientLine::Bad);
    }
    let words = split_words(alloc, line)?;
    if has_empty_word(words.as_slice()) {
        return Ok(ClientLine::Bad);
    }
    read_words(alloc, words.as_slice())
}

/// Reads words of which none is empty. The first says which command it is.
fn read_words(alloc: Global, words: &[&[u8]]) -> Result<ClientLine, AllocError>
    ensures { IfOk result (λ said. line_of said ≡ read_words (texts words.now)) }
{
    let [word, arguments @ ..] = words else {
        return Ok(ClientLine::Bad);
    };
    match find_form(&CLIENT_FORMS, word) {
        Some(form) => read_form(alloc, form.1, form.2, arguments),
        None => Ok(ClientLine::Bad),
    }
}

/// Reads the words after a command's own, by their kinds.
fn read_form(
    alloc: Global,
    verb: Verb,
    kinds: &[WordKind],
    arguments: &[&[u8]],
) -> Result<ClientLine, AllocError>
    ensures { IfOk result (λ said.
        line_of said ≡ read_form verb kinds.now (texts arguments.now)) }
{
    match read_values(alloc, kinds, arguments)? {
        Some(values) => in_range(alloc, verb, values),
        None => Ok(ClientLine::Bad),
    }
}

/// Makes the command of its words, or tells that one is outside its range.
fn in_range(alloc: Global, verb: Verb, values: Vec<Value<'_>>) -> Result<ClientLine, AllocError>
    ensures { IfOk result (λ said.
        line_of said ≡ verb_said verb (map value_of values.entry.items)) }
{
    match check_values(alloc, values) {
        Ok(words) => Ok(ClientLine::Command(command(verb, words).ok_or(AllocError)?)),
        Err(Refusal::NoMemory) => Err(AllocError),
        Err(refusal) => Ok(ClientLine::OutOfRange(refusal)),
    }
}

/// Makes a command of its words. `None` where they are not those of its form.
fn command(verb: Verb, mut words: Words) -> Option<ClientCommand>
    ensures { IfSome result (λ c. asked_of c ≡ record { verb = verb; values = left_of words }) }
{
    let command = take_command(verb, &mut words)?;
    if words.is_empty() {
        Some(command)
    } else {
        None
    }
}

/// Takes the words of a command. `None` where other words come.
fn take_command(verb: Verb, words: &mut Words) -> Option<ClientCommand>
    ensures verb { IfSome result (λ c. (asked_of c).verb ≡ verb) }
    ensures words { IfSome result (λ c.
        left_of words.old ≡ (asked_of c).values ++ left_of words.new) }
{
    match verb {
        Verb::Change(verb) => Some(ClientCommand::Change(take_change(verb, words)?)),
        Verb::Undo => Some(ClientCommand::Undo(words.take_number()?)),
        Verb::UndoLast => Some(ClientCommand::UndoLast),
        Verb::List => {
            let path = words.take_text()?;
            Some(ClientCommand::List { path })
        }
        Verb::Read => {
            let path = words.take_text()?;
            let off = words.take_number()?;
            let len = words.take_number()?;
            Some(ClientCommand::Read { path, off, len })
        }
        Verb::Rekey => {
            let file = words.take_text()?;
            Some(ClientCommand::Rekey { file })
        }
        Verb::Save => {
            let file = words.take_text()?;
            Some(ClientCommand::Save { file })
        }
    }
}

/// Takes the words of a command that is planned. `None` where other words come.
fn take_change(verb: PathVerb, words: &mut Words) -> Option<Command>
    ensures verb { IfSome result (λ c. (change_of c).verb ≡ verb) }
    ensures words { IfSome result (λ c.
        left_of words.old ≡ (change_of c).values ++ left_of words.new) }
{
    match verb {
        PathVerb::Mkdir => {
            let path = words.take_text()?;
            Some(Command::Mkdir { path })
        }
        PathVerb::Create => {
            let path = words.take_text()?;
            Some(Command::Create { path })
        }
        PathVerb::Write => {
            let path = words.take_text()?;
            let off = words.take_size()?;
            let bytes = words.take_bytes()?;
            Some(Command::Write { path, off, bytes })
        }
        PathVerb::Truncate => {
            let path = words.take_text()?;
            let size = words.take_size()?;
            Some(Command::Truncate { path, size })
        }
        PathVerb::Link => {
            let old_ = words.take_text()?;
            let new_ = words.take_text()?;
            Some(Command::Link { old_, new_ })
        }
        PathVerb::Rename => {
            let old_ = words.take_text()?;
            let new_ = words.take_text()?;
            Some(Command::Rename { old_, new_ })
        }
        PathVerb::Remove => {
            let path = words.take_text()?;
            Some(Command::Remove { path })
        }
        PathVerb::Tidy => Some(Command::Tidy),
    }
}
