// What people are told of the commands: a help text, and why a line is none. What a script does
// never rests on it.
use crate::verbs::CLIENT_FORMS;
use std::alloc::{AllocError, Global};
use su_desk_lines::{Mistake, mistake_in_command, words_in};

/// Tells the first mistake in a line that is no command of a client's script. Fails where there is
/// no memory for the list of words.
pub fn client_mistake_in(alloc: Global, line: &[u8]) -> Result<Mistake, AllocError> {
    match words_in(alloc, line)? {
        Ok(words) => Ok(mistake_in_words(words.as_slice())),
        Err(mistake) => Ok(mistake),
    }
}

/// Tells the first mistake in words of which none is empty.
fn mistake_in_words(words: &[&[u8]]) -> Mistake {
    match words {
        [command, arguments @ ..] => mistake_in_command(&CLIENT_FORMS, command, arguments, 2),
        [] => Mistake::FewWords,
    }
}
