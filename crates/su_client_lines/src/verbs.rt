// The commands of a client's script, and the words after each.
use su_desk_lines::WordKind::{FileName, Hex, Number, Path, Size};
use su_desk_lines::{Form, forms_of};

/// Which command of a client's script a line is.
#[derive(Clone, Copy)]
pub enum Verb {
    Change(PathVerb),
    Undo,
    UndoLast,
    List,
    Read,
    Rekey,
    Save,
}

/// Which command of those that are planned as operations a line is.
#[derive(Clone, Copy)]
pub enum PathVerb {
    Mkdir,
    Create,
    Write,
    Truncate,
    Link,
    Rename,
    Remove,
    Tidy,
}

// The commands: of each its own word, which it is, the words after it, and its line of help.
macro_rules! client_rows {
    ($table:ident) => {
        $table!(
            (
                "mkdir",
                Verb::Change(PathVerb::Mkdir),
                [Path],
                "mkdir P          make a directory"
            ),
            (
                "create",
                Verb::Change(PathVerb::Create),
                [Path],
                "create P         make an empty file"
            ),
            (
                "write",
                Verb::Change(PathVerb::Write),
                [Path, Size, Hex],
                "write P OFF HEX  write bytes, in hex digits, from an offset on"
            ),
            (
                "truncate",
                Verb::Change(PathVerb::Truncate),
                [Path, Size],
                "truncate P SIZE  cut a file, or fill it with zeros, to a size"
            ),
            (
                "link",
                Verb::Change(PathVerb::Link),
                [Path, Path],
                "link OLD NEW     give a file a further name"
            ),
            (
                "rename",
                Verb::Change(PathVerb::Rename),
                [Path, Path],
                "rename OLD NEW   give a file another name; what had that name loses it"
            ),
            (
                "remove",
                Verb::Change(PathVerb::Remove),
                [Path],
                "remove P         take a name away, and the file with its last one"
            ),
            (
                "tidy",
                Verb::Change(PathVerb::Tidy),
                [],
                "tidy             take away your old copies of files that were taken over"
            ),
            (
                "undo",
                Verb::Undo,
                [Number],
                "undo N           undo operation N"
            ),
            (
                "undo_last",
                Verb::UndoLast,
                [],
                "undo_last        undo the last operation that stands"
            ),
            (
                "ls",
                Verb::List,
                [Path],
                "ls P             list the names of a directory"
            ),
            (
                "cat",
                Verb::Read,
                [Path, Number, Number],
                "cat P OFF LEN    show bytes of a file, in hex digits"
            ),
            (
                "rekey",
                Verb::Rekey,
                [FileName],
                "rekey FILE       sign with the key in a key file from then on"
            ),
            (
                "save",
                Verb::Save,
                [FileName],
                "save FILE        save the log of all commits to a file"
            )
        )
    };
}

macro_rules! client_help {
    ($(($word:literal, $verb:expr, $kinds:tt, $help:literal)),*) => {
        concat!(
            "Commands:\n",
            $("  ", $help, "\n",)*
            "
P, OLD and NEW are paths: / is the root directory, and others are names with a /
before each, as /a/b. A line's words have single spaces between them, so no path
and no FILE has a space in it."
        )
    };
}

/// The commands, and the words after each.
pub const CLIENT_FORMS: [Form<Verb>; 14] = client_rows!(forms_of);

/// The commands of a client's script, for a help text.
pub const CLIENT_WORDS: &str = client_rows!(client_help);
