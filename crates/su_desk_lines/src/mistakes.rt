// Why a line is no command, in words for whoever wrote it. What a script does never rests on it.
// A script has tables of the forms of its commands, and tells its mistakes by them.
use crate::forms::WordKind::{
    Body, File, FileName, Hex, Key, Name, Number, OwnBody, Path, Principal, Size,
};
use crate::forms::{Form, WordKind, find_form};
use crate::lines::LONGEST_LINE;
use crate::parse::{
    has_empty_word, is_operation, read_file, read_key, read_number, read_operation, read_principal,
    split_words,
};
use crate::verbs::{BATCH, NEXT_OPERATION, OTHER_FORMS, USER_FORMS};
use std::alloc::{AllocError, Global};
use std::fmt;

/// Why a line is no command: the first mistake in it.
#[derive(Clone, Copy, Debug, PartialEq, Eq)]
pub enum Mistake {
    /// It has more than `LONGEST_LINE` bytes.
    LongLine,
    /// It ends in a carriage return.
    CarriageReturn,
    /// It has two spaces in a row, or a space at an end.
    EmptyWord,
    /// Its word is that of no command.
    UnknownCommand,
    /// The word with that number, from 1, isn't what stands there in this command.
    WrongWord(usize, WordKind),
    FewWords,
    ManyWords,
    /// It makes a file of a group, and doesn't say where the body stands.
    NoBody,
    /// The word with that number, from 1, begins no operation of a batch, though it is a command's.
    NoOperation(usize),
}

/// Tells the first mistake in a line that is no command of a desk script. Fails where there is no
/// memory for the list of words.
pub fn mistake_in(alloc: Global, line: &[u8]) -> Result<Mistake, AllocError> {
    match words_in(alloc, line)? {
        Ok(words) => mistake_in_words(alloc, words.as_slice()),
        Err(mistake) => Ok(mistake),
    }
}

/// Splits a line into its words, or tells the mistake that it is in any script: it is too long, it
/// ends in a carriage return, or it has an empty word. Fails where there is no memory for the list.
pub fn words_in<'a>(
    alloc: Global,
    line: &'a [u8],
) -> Result<Result<Vec<&'a [u8]>, Mistake>, AllocError> {
    if LONGEST_LINE < line.len() {
        return Ok(Err(Mistake::LongLine));
    }
    if line.last() == Some(&b'\r') {
        return Ok(Err(Mistake::CarriageReturn));
    }
    let words = split_words(alloc, line)?;
    if has_empty_word(words.as_slice()) {
        return Ok(Err(Mistake::EmptyWord));
    }
    Ok(Ok(words))
}

/// Tells the first mistake in words of which none is empty. Fails where there is no memory for what
/// the operations of a batch say.
fn mistake_in_words(alloc: Global, words: &[&[u8]]) -> Result<Mistake, AllocError> {
    match words {
        [] => Ok(Mistake::FewWords),
        [user] if read_number(user).is_some() => Ok(Mistake::FewWords),
        [user, command, arguments @ ..] if read_number(user).is_some() => {
            if BATCH.as_bytes() == *command {
                return mistake_in_batch(alloc, arguments, 3);
            }
            Ok(mistake_in_command(&USER_FORMS, command, arguments, 3))
        }
        [command, arguments @ ..] => Ok(mistake_in_command(&OTHER_FORMS, command, arguments, 2)),
    }
}

/// Tells the first mistake in the operations of a batch, of which the first word has the number
/// `first` in its line. Fails where there is no memory for what they say.
fn mistake_in_batch(alloc: Global, words: &[&[u8]], first: usize) -> Result<Mistake, AllocError> {
    let mut place = first;
    for operation in words.split(|word| NEXT_OPERATION.as_bytes() == *word) {
        if read_operation(alloc, operation)?.is_none() {
            return Ok(mistake_in_operation(operation, place));
        }
        place = place.saturating_add(operation.len()).saturating_add(1);
    }
    Ok(Mistake::FewWords)
}

/// Tells the first mistake in the words of one operation of a batch, of which the first has the
/// number `place` in its line.
fn mistake_in_operation(words: &[&[u8]], place: usize) -> Mistake {
    let [command, arguments @ ..] = words else {
        return Mistake::FewWords;
    };
    match find_form(&USER_FORMS, command) {
        Some(form) if !is_operation(form.1) => Mistake::NoOperation(place),
        _ => mistake_in_command(&USER_FORMS, command, arguments, place.saturating_add(1)),
    }
}

/// Tells the first mistake in a command that is none of those forms, and the words after it, of which
/// the first has the number `first` in its line. Where they have a form, what they lack is the body
/// that it leaves out.
pub fn mistake_in_command<V>(
    forms: &[Form<V>],
    command: &[u8],
    arguments: &[&[u8]],
    first: usize,
) -> Mistake {
    let Some(form) = find_form(forms, command) else {
        return Mistake::UnknownCommand;
    };
    let kinds = form.2;
    for (place, (word, kind)) in arguments.iter().zip(kinds).enumerate() {
        if !is_of_kind(word, *kind) {
            return Mistake::WrongWord(first.saturating_add(place), *kind);
        }
    }
    if arguments.len() > kinds.len() {
        return Mistake::ManyWords;
    }
    match kinds.get(arguments.len()) {
        None | Some(OwnBody) => Mistake::NoBody,
        Some(_) => Mistake::FewWords,
    }
}

/// Whether a word is of that kind. Any word is a name or a path, as far as the line goes.
fn is_of_kind(word: &[u8], kind: WordKind) -> bool {
    match kind {
        Number | Size | Body | OwnBody => read_number(word).is_some(),
        Name | Path | FileName => true,
        File => read_file(word).is_some(),
        Principal => read_principal(word).is_some(),
        Key => read_key(word).is_some(),
        Hex => word.len() % 2 == 0 && word.iter().all(|digit| digit.is_ascii_hexdigit()),
    }
}

impl fmt::Display for Mistake {
    fn fmt<W: fmt::Write>(&self, f: &mut fmt::Formatter<W>) -> fmt::Result {
        match self {
            Mistake::LongLine => write!(f, "more than {LONGEST_LINE} bytes"),
            Mistake::CarriageReturn => write!(f, "a carriage return at its end"),
            Mistake::EmptyWord => write!(f, "two spaces in a row, or a space at an end"),
            Mistake::UnknownCommand => write!(f, "an unknown command"),
            Mistake::WrongWord(number, kind) => write!(f, "word {number} is not {kind}"),
            Mistake::FewWords => write!(f, "too few words"),
            Mistake::ManyWords => write!(f, "too many words"),
            Mistake::NoBody => write!(f, "a file of a group needs a BODY"),
            Mistake::NoOperation(number) => write!(f, "word {number} begins no operation"),
        }
    }
}
