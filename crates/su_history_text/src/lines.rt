// The lines of a history, as text.
ghost use Rattle.std.specs.Prelude.{◌≡◌, true, IfOk, length};
ghost use Rattle.std.specs.String.{string_bytes};
ghost use Rattle.su_history_text.specs.Parts.{line_feeds, longest_name, stays_on_line, stays_on_lines};
ghost use Rattle.su_history_text.specs.Text.{fate_text, history_text, line_text, line_text_at, undone_text};

use crate::deeds::deed_text;
use crate::file_names::FileNames;
use crate::parts::{author_text, longest_name, numbers_text, padded};
use std::alloc::{AllocError, Global};
use su_history::{Fate, Line};
use su_team::Team;

/// Columns of the numbers of a line.
const NUMBER_COLUMNS: usize = 10;

/// Spells a line of a history, with no line feed behind it: its numbers in 10 columns, its author
/// in as many as the longest name of the team has, what was done, and whether it is undone.
pub fn line_text(
    alloc: Global,
    line: &Line,
    team: &Team,
    names: &FileNames,
) -> Result<String, AllocError>
    ensures value { IfOk result (λ text.
        string_bytes text ≡ line_text team.now names.now line.now) }
    ensures line { IfOk result (λ text. stays_on_line (string_bytes text) ≡ true) }
{
    line_text_at(alloc, longest_name(team), line, team, names)
}

/// Spells the lines of a history, with a line feed behind each.
pub fn history_text(
    alloc: Global,
    lines: &[Line],
    team: &Team,
    names: &FileNames,
) -> Result<String, AllocError>
    ensures value { IfOk result (λ text.
        string_bytes text ≡ history_text team.now names.now lines.now) }
    ensures lines { IfOk result (λ text. stays_on_lines (string_bytes text) ≡ true) }
    ensures count { IfOk result (λ text. line_feeds (string_bytes text) ≡ length lines.now) }
{
    let width = longest_name(team);
    let mut text = String::new(alloc);
    for line in lines {
        let told = line_text_at(alloc, width, line, team, names)?;
        text.push_str(told.as_str())?;
        text.push_str("\n")?;
    }
    Ok(text)
}

/// Spells a line of a history, where names have so many columns.
fn line_text_at(
    alloc: Global,
    width: usize,
    line: &Line,
    team: &Team,
    names: &FileNames,
) -> Result<String, AllocError>
    ensures value { IfOk result (λ text.
        string_bytes text ≡ line_text_at width team.now names.now line.now) }
    ensures line { IfOk result (λ text. stays_on_line (string_bytes text) ≡ true) }
{
    let numbers = padded(numbers_text(alloc, line.first, line.last)?, NUMBER_COLUMNS)?;
    let author = padded(author_text(alloc, line.author, team)?, width)?;
    let deed = deed_text(alloc, &line.deed, names)?;
    let fate = fate_text(alloc, line)?;
    format!(in alloc; "{numbers} {author}  {deed}{fate}")
}

/// Spells what became of a line; nothing where it isn't undone.
fn fate_text(alloc: Global, line: &Line) -> Result<String, AllocError>
    ensures value { IfOk result (λ text.
        string_bytes text ≡ fate_text line.now.first line.now.last line.now.fate) }
    ensures line { IfOk result (λ text. stays_on_line (string_bytes text) ≡ true) }
{
    match line.fate {
        Fate::Undone(by) => undone_text(alloc, line.first, line.last, by),
        Fate::Live | Fate::Lasting => Ok(String::new(alloc)),
    }
}

/// Spells by which entry the entries of a line are undone, or the last of several.
fn undone_text(alloc: Global, first: u64, last: u64, by: u64) -> Result<String, AllocError>
    ensures value { IfOk result (λ text. string_bytes text ≡ undone_text first last by) }
    ensures line { IfOk result (λ text. stays_on_line (string_bytes text) ≡ true) }
{
    if first == last {
        format!(in alloc; " (undone by {by})")
    } else {
        format!(in alloc; " (undone, the last by {by})")
    }
}
