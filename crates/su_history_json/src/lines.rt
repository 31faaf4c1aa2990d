// The lines of a history, as JSON.
ghost use Rattle.std.specs.Prelude.{◌≡◌, IfOk};
ghost use Rattle.std.specs.String.{string_bytes};
ghost use Rattle.serde_json.specs.View.{view};
ghost use Rattle.serde_json.specs.Written.{compact_text};
ghost use Rattle.su_history_json.specs.Json.{history_data, line_data};

use crate::parts::{bytes_of, number_or_null, path_or_null, undid_of, undoer_of, what_word};
use serde_json::{Value, json};
use std::alloc::{AllocError, Global};
use su_history::Line;
use su_history_text::{FileNames, author_text};
use su_team::Team;

/// Spells the lines of a history as an array of JSON objects, one for each. Each has `first` and
/// `last`, the numbers of the line; `author`; `what`, a word; and these, which are `null` where
/// there is none: `path`, how the file is called in the text for people; `bytes`, how many were
/// written, or which size the file got; `undid`, the operation that the line undid; `undone_by`.
pub fn history_json(
    alloc: Global,
    lines: &[Line],
    team: &Team,
    names: &FileNames,
) -> Result<String, AllocError>
    ensures { IfOk result (λ text.
        string_bytes text ≡ compact_text (history_data team.now names.now lines.now)) }
{
    let mut values = Vec::new(alloc);
    for line in lines {
        values.push(line_value(alloc, line, team, names)?)?;
    }
    Value::Array(values).to_string(alloc)
}

/// Makes the object of a line.
fn line_value(
    alloc: Global,
    line: &Line,
    team: &Team,
    names: &FileNames,
) -> Result<Value, AllocError>
    ensures { IfOk result (λ value. view value ≡ line_data team.now names.now line.now) }
{
    let author = author_text(alloc, line.author, team)?;
    let path = path_or_null(alloc, &line.deed, names)?;
    let bytes = number_or_null(bytes_of(&line.deed));
    let undid = number_or_null(undid_of(&line.deed));
    let undone_by = number_or_null(undoer_of(line.fate));
    let first = line.first;
    let last = line.last;
    let what = what_word(&line.deed);
    json!(in alloc; {
        "author": author,
        "bytes": bytes,
        "first": first,
        "last": last,
        "path": path,
        "undid": undid,
        "undone_by": undone_by,
        "what": what
    })
}
