// The parts of a line's object.
ghost use Rattle.std.specs.Prelude.{◌≡◌, IfOk};
ghost use Rattle.serde_json.specs.View.{view};
ghost use Rattle.su_history_json.specs.Json.{bytes_of, file_of, number_or_null, path_data, undid_of, undoer_of, what_word};

use serde_json::Value;
use std::alloc::{AllocError, Global};
use su_bytes::FileId;
use su_history::{Deed, Fate};
use su_history_text::{FileNames, file_text};

/// Returns the word for a deed.
pub(crate) fn what_word(deed: &Deed) -> &'static str
    ensures { result.now ≡ what_word deed.now }
{
    match deed {
        Deed::Made(_) => "made",
        Deed::Put { .. } => "put",
        Deed::Wrote { .. } => "wrote",
        Deed::Cut(_) => "cut",
        Deed::Linked(_) => "linked",
        Deed::Renamed(_) => "renamed",
        Deed::Removed(_) => "removed",
        Deed::TookOver(_) => "took",
        Deed::Dropped(_) => "dropped",
        Deed::Together(_) => "together",
        Deed::Undid(_) => "undid",
        Deed::NamedKey => "rekeyed",
    }
}

/// Returns the file that a deed is about, if it is about one.
fn file_of(deed: &Deed) -> Option<FileId>
    ensures { result ≡ file_of deed.now }
{
    match deed {
        Deed::Made(made) | Deed::Put { made, .. } => Some(made.file),
        Deed::Wrote { file, .. } => Some(*file),
        Deed::Cut(truncate) => Some(truncate.file),
        Deed::Linked(link) => Some(link.file),
        Deed::Renamed(rename) => Some(rename.file),
        Deed::Removed(unlink) => Some(unlink.file),
        Deed::TookOver(take) => Some(take.file),
        Deed::Dropped(_) | Deed::Together(_) | Deed::Undid(_) | Deed::NamedKey => None,
    }
}

/// Returns how many bytes a deed wrote, or which size it gave a file.
pub(crate) fn bytes_of(deed: &Deed) -> Option<u64>
    ensures { result ≡ bytes_of deed.now }
{
    match deed {
        Deed::Put { bytes, .. } | Deed::Wrote { bytes, .. } => Some(*bytes),
        Deed::Together(several) => Some(several.bytes),
        Deed::Cut(truncate) => Some(u64::from(truncate.size)),
        _ => None,
    }
}

/// Returns the number of the operation that a deed undid.
pub(crate) fn undid_of(deed: &Deed) -> Option<u64>
    ensures { result ≡ undid_of deed.now }
{
    match deed {
        Deed::Undid(number) => Some(*number),
        _ => None,
    }
}

/// Returns the number of the entry by which a line is undone.
pub(crate) fn undoer_of(fate: Fate) -> Option<u64>
    ensures { result ≡ undoer_of fate }
{
    match fate {
        Fate::Undone(by) => Some(by),
        Fate::Live | Fate::Lasting => None,
    }
}

/// Makes a number, or `null` where there is none.
pub(crate) fn number_or_null(number: Option<u64>) -> Value
    ensures { view result ≡ number_or_null number }
{
    match number {
        Some(number) => Value::from(number),
        None => Value::Null,
    }
}

/// Makes the text by which people know the file that a deed is about, or `null` where it is about
/// none.
pub(crate) fn path_or_null(
    alloc: Global,
    deed: &Deed,
    names: &FileNames,
) -> Result<Value, AllocError>
    ensures { IfOk result (λ value. view value ≡ path_data names.now deed.now) }
{
    let Some(file) = file_of(deed) else {
        return Ok(Value::Null);
    };
    let text = file_text(alloc, file, names)?;
    Ok(Value::String(text))
}
