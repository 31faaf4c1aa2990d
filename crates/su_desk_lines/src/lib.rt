//! The commands of a desk script: lines as they come from a reader, the words of a line, and the
//! command that they say, each of its words within its range. Lines, words and the mistakes in them
//! are there for other scripts too.
#![tactic(auto)]

mod forms;
mod lines;
mod mistakes;
mod parse;
mod ranges;
mod values;
mod verbs;
mod words;

pub use forms::{Form, WordKind, find_form};
pub use lines::{LONGEST_LINE, LineReader, NextLine};
pub use mistakes::{Mistake, mistake_in, mistake_in_command, words_in};
pub use parse::{
    RawFile, RawPrincipal, Spoken, has_empty_word, parse_line, read_bytes, read_number, split_words,
};
pub use ranges::{Command, Question, check_ranges};
pub use values::{Value, read_values};
pub use verbs::{ChangeVerb, DESK_WORDS, QuestionVerb, Verb};
pub use words::{Word, Words, check_values};
