// The parts of a line.
ghost use Rattle.std.specs.Prelude.{◌≡◌, [], true, IfOk, length, unwrap_or};
ghost use Rattle.std.specs.String.{string_bytes};
ghost use Rattle.su_spelling.specs.Shown.{shown};
ghost use Rattle.su_team.specs.Team.{name_at};
ghost use Rattle.su_history_text.specs.Parts.{author_text, file_text, longest_name, numbers_text, padded, size_text, stays_on_line};

use crate::file_names::FileNames;
use std::alloc::{AllocError, Global};
use std::str;
use su_bytes::{FileId, Name, User};
use su_team::Team;

/// Spells the text with spaces behind it, so that it has at least so many bytes.
pub(crate) fn padded(mut text: String, width: usize) -> Result<String, AllocError>
    requires { stays_on_line (string_bytes text) ≡ true }
    ensures value { IfOk result (λ padded_.
        string_bytes padded_ ≡ padded width (string_bytes text)) }
    ensures line { IfOk result (λ text. stays_on_line (string_bytes text) ≡ true) }
{
    for _place in text.as_str().len()..width {
        text.push_str(" ")?;
    }
    Ok(text)
}

/// Spells the numbers of a line, `240` or `198..214`.
pub(crate) fn numbers_text(alloc: Global, first: u64, last: u64) -> Result<String, AllocError>
    ensures value { IfOk result (λ text. string_bytes text ≡ numbers_text first last) }
    ensures line { IfOk result (λ text. stays_on_line (string_bytes text) ≡ true) }
{
    if first == last {
        format!(in alloc; "{first}")
    } else {
        format!(in alloc; "{first}..{last}")
    }
}

/// Spells how many bytes there are, `1 byte` or `10 bytes`.
pub(crate) fn size_text(alloc: Global, bytes: u64) -> Result<String, AllocError>
    ensures value { IfOk result (λ text. string_bytes text ≡ size_text bytes) }
    ensures line { IfOk result (λ text. stays_on_line (string_bytes text) ≡ true) }
{
    if bytes == 1 {
        format!(in alloc; "{bytes} byte")
    } else {
        format!(in alloc; "{bytes} bytes")
    }
}

/// Spells how a file is called: its path as people see it, or its id where no path leads to it.
pub fn file_text(alloc: Global, file: FileId, names: &FileNames) -> Result<String, AllocError>
    ensures value { IfOk result (λ text. string_bytes text ≡ file_text names.now file) }
    ensures line { IfOk result (λ text. stays_on_line (string_bytes text) ≡ true) }
{
    match names.path_of(file) {
        Some(path) => shown_text(alloc, path),
        None => format!(in alloc; "{file}"),
    }
}

/// Spells a path or a name as people see it.
fn shown_text(alloc: Global, name: &[u8]) -> Result<String, AllocError>
    ensures value { IfOk result (λ text. string_bytes text ≡ shown name.now) }
    ensures line { IfOk result (λ text. stays_on_line (string_bytes text) ≡ true) }
{
    su_spelling::shown(alloc, name)
}

/// Spells a name as people see it.
pub(crate) fn name_text(alloc: Global, name: &Name) -> Result<String, AllocError>
    ensures value { IfOk result (λ text. string_bytes text ≡ shown name.now) }
    ensures line { IfOk result (λ text. stays_on_line (string_bytes text) ≡ true) }
{
    shown_text(alloc, name.as_bytes())
}

/// Spells the name of a user, or `user 7` of one who isn't in the team.
pub fn author_text(alloc: Global, author: User, team: &Team) -> Result<String, AllocError>
    ensures value { IfOk result (λ text. string_bytes text ≡ author_text team.now author) }
    ensures line { IfOk result (λ text. stays_on_line (string_bytes text) ≡ true) }
{
    // tells the prover that the users are a team (docs/ARCHITECTURE.md, "Forms the kit wants")
    let _users = team.user_count();
    let Some(name) = team.name_of(author) else {
        let number = author.number();
        return format!(in alloc; "user {number}");
    };
    // names of a team are ASCII
    match str::from_utf8(name) {
        Ok(name) => format!(in alloc; "{name}"),
        Err(_) => unreachable!(),
    }
}

/// Returns how many bytes the longest name of the team has.
pub(crate) fn longest_name(team: &Team) -> usize
    ensures { result ≡ longest_name team.now }
{
    let mut longest = 0;
    for number in 0..team.user_count() {
        longest = longest.max(name_length(team, number));
    }
    longest
}

/// Returns how many bytes the name of a user has; 0 where there is no such user.
fn name_length(team: &Team, number: usize) -> usize
    ensures { result ≡ length (unwrap_or (name_at team.now number) []) }
{
    if team.user_count() <= number {
        return 0;
    }
    let Ok(user) = User::new(number as u64) else {
        unreachable!()
    };
    match team.name_of(user) {
        Some(name) => name.len(),
        None => 0,
    }
}
