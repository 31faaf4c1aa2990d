// The forms of commands: tables whose rows say a command's own word, and what the words after it are.
ghost use Rattle.std.specs.Prelude.{◌≡◌, find, map, option_map};
ghost use Rattle.su_desk_lines.specs.Form.{form_of, row_of};
ghost use Rattle.su_desk_lines.specs.Script.{is_word};

use crate::forms::WordKind::{
    Body, File, FileName, Hex, Key, Name, Number, OwnBody, Path, Principal, Size,
};
use std::fmt;

/// What a word of a command is.
#[derive(Clone, Copy, Debug, PartialEq, Eq)]
pub enum WordKind {
    /// A number that fits 64 bits.
    Number,
    /// A number that is to fit 32 bits.
    Size,
    /// The number at which a file stands.
    Body,
    /// The same; it may be left out after a user's file, which has its own number.
    OwnBody,
    /// A name in a directory.
    Name,
    /// A file id.
    File,
    /// A user or a group.
    Principal,
    /// Bytes in hex digits.
    Hex,
    /// The bytes of a public key in hex digits.
    Key,
    /// A path, of which any word may be one.
    Path,
    /// The name of a file outside, which any word may be.
    FileName,
}

/// A row of a table of commands: a command's own word, which command it is, and what the words after
/// it are.
pub type Form<V> = (&'static str, V, &'static [WordKind]);

/// The rows of a table, of which each has a line of help behind, without these lines.
#[macro_export]
macro_rules! forms_of {
    ($(($word:literal, $verb:expr, [$($kind:expr),*], $help:literal)),*) => {
        [$(($word, $verb, &[$($kind),*])),*]
    };
}

/// Finds the row of a command's own word. `None` where no command has it.
pub fn find_form<'a, V>(forms: &'a [Form<V>], word: &[u8]) -> Option<&'a Form<V>>
    ensures { option_map (λ form. row_of form.now) result
        ≡ form_of (map row_of forms.now) word.now }
{
    first_form(forms, word)
}

/// Finds the first row of a word.
fn first_form<'a, V>(forms: &'a [Form<V>], word: &[u8]) -> Option<&'a Form<V>>
    ensures { option_map (λ form. form.now) result
        ≡ find (λ form. is_word form.0.now word.now) forms.now }
{
    forms.iter().find(|form| form.0.as_bytes() == word)
}

impl fmt::Display for WordKind {
    fn fmt<W: fmt::Write>(&self, f: &mut fmt::Formatter<W>) -> fmt::Result {
        let text = match self {
            Number | Size | Body | OwnBody => "a number of at most 20 digits that fits 64 bits",
            Name => "a name",
            File => "a file id, as U0:2 or G0:1",
            Principal => "a user or a group, as U0 or G0",
            Hex => "bytes in hex, two digits each",
            Key => "a public key in 112 hex digits",
            Path => "a path",
            FileName => "the name of a file",
        };
        f.write_str(text)
    }
}
