// The commands of a desk script, and the words after each.
use crate::forms::Form;
use crate::forms::WordKind::{Body, File, Hex, Key, Name, Number, OwnBody, Principal, Size};
use crate::forms_of;
use su_bytes::Kind;

/// Which command of a desk script a line is.
#[derive(Clone, Copy)]
pub enum Verb {
    Change(ChangeVerb),
    UndoLast,
    Ask(QuestionVerb),
    Versions,
    Mark,
    Same,
}

/// Which change of a user a line is.
#[derive(Clone, Copy)]
pub enum ChangeVerb {
    Create(Kind),
    Write,
    Truncate,
    Unlink,
    Take,
    Link,
    Rename,
    Drop,
    Undo,
    Rekey,
}

/// Which question about the tree a line is.
#[derive(Clone, Copy)]
pub enum QuestionVerb {
    List,
    Read,
    Describe,
    Handle,
}

// The commands: first those of a user, which stand after the user's number, then those that are no
// user's. Of each its own word, which it is, the words after it, and its line of help. A batch has
// no row, as the words after it are those of its operations.
macro_rules! desk_rows {
    ($table:ident) => {
        $table!(
            [
                (
                    "mkdir",
                    Verb::Change(ChangeVerb::Create(Kind::Dir)),
                    [File, Name, File, OwnBody],
                    "U mkdir DIR NAME FILE [BODY]   make a directory and give it a name"
                ),
                (
                    "create",
                    Verb::Change(ChangeVerb::Create(Kind::File)),
                    [File, Name, File, OwnBody],
                    "U create DIR NAME FILE [BODY]  make an empty file and give it a name"
                ),
                (
                    "write",
                    Verb::Change(ChangeVerb::Write),
                    [File, Size, Hex],
                    "U write FILE OFF HEX           write bytes, in hex digits, from an offset on"
                ),
                (
                    "truncate",
                    Verb::Change(ChangeVerb::Truncate),
                    [File, Size],
                    "U truncate FILE SIZE           cut a file, or fill it with zeros, to a size"
                ),
                (
                    "unlink",
                    Verb::Change(ChangeVerb::Unlink),
                    [File, Name, File],
                    "U unlink DIR NAME FILE         take a name away"
                ),
                (
                    "take",
                    Verb::Change(ChangeVerb::Take),
                    [File, Body],
                    "U take FILE BODY               take a group file over from who holds it"
                ),
                (
                    "link",
                    Verb::Change(ChangeVerb::Link),
                    [File, Name, File],
                    "U link DIR NAME FILE           give a file a further name"
                ),
                (
                    "rename",
                    Verb::Change(ChangeVerb::Rename),
                    [File, Name, File, Name, File],
                    "U rename FROM OLD TO NEW FILE  give a file another name, here or elsewhere"
                ),
                (
                    "drop",
                    Verb::Change(ChangeVerb::Drop),
                    [Body],
                    "U drop BODY                    take away a body that no file id leads to"
                ),
                (
                    "undo",
                    Verb::Change(ChangeVerb::Undo),
                    [Number],
                    "U undo N                       undo operation N"
                ),
                (
                    "undo_last",
                    Verb::UndoLast,
                    [],
                    "U undo_last                    undo the last operation that stands"
                ),
                (
                    "rekey",
                    Verb::Change(ChangeVerb::Rekey),
                    [Key],
                    "U rekey HEX                    go on with another key, in 112 hex digits"
                )
            ]
            [
                (
                    "ls",
                    Verb::Ask(QuestionVerb::List),
                    [File],
                    "ls DIR                         list the names of a directory"
                ),
                (
                    "cat",
                    Verb::Ask(QuestionVerb::Read),
                    [File, Number, Number],
                    "cat FILE OFF LEN               show bytes of a file, in hex digits"
                ),
                (
                    "stat",
                    Verb::Ask(QuestionVerb::Describe),
                    [File],
                    "stat FILE                      show what a file is"
                ),
                (
                    "ihandle",
                    Verb::Ask(QuestionVerb::Handle),
                    [Principal],
                    "ihandle PRINCIPAL              show the digest of an i-table"
                ),
                (
                    "versions",
                    Verb::Versions,
                    [],
                    "versions                       show the version numbers of all"
                ),
                (
                    "mark",
                    Verb::Mark,
                    [],
                    "mark                           keep the digests of all i-tables"
                ),
                (
                    "same",
                    Verb::Same,
                    [],
                    "same                           compare them with those that were kept"
                )
            ]
        )
    };
}

macro_rules! user_forms {
    ([$($user:tt)*] [$($other:tt)*]) => { forms_of!($($user)*) };
}

macro_rules! other_forms {
    ([$($user:tt)*] [$($other:tt)*]) => { forms_of!($($other)*) };
}

macro_rules! desk_help {
    (
        [$(($user:literal, $user_verb:expr, $user_kinds:tt, $user_help:literal)),*]
        [$(($other:literal, $other_verb:expr, $other_kinds:tt, $other_help:literal)),*]
    ) => {
        concat!(
            "Commands:\n",
            $("  ", $user_help, "\n",)*
            "  U batch OP + OP ..             make several operations as one\n",
            $("  ", $other_help, "\n",)*
            "
U is the number of a user. DIR, FROM, TO and FILE are file ids: U0:2 is number 2
of user 0, G0:1 number 1 of group 0, which is the root directory. BODY is the
number of the user at which the file stands then, or the body that goes; a file
of a user has its own number. OP is an operation, with its words, as it stands
above behind U: from mkdir to drop. PRINCIPAL is a user as U0 or a group as G0."
        )
    };
}

/// The word of a batch, which stands after the user's number.
pub const BATCH: &str = "batch";

/// The word that stands between the operations of a batch.
pub const NEXT_OPERATION: &str = "+";

/// The commands of a user, which stand after the user's number, and the words after each.
pub const USER_FORMS: [Form<Verb>; 12] = desk_rows!(user_forms);

/// The commands that are no user's, and the words after each.
pub const OTHER_FORMS: [Form<Verb>; 7] = desk_rows!(other_forms);

/// The commands of a desk script, for a help text.
pub const DESK_WORDS: &str = desk_rows!(desk_help);
