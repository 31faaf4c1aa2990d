// Some of the lines of a history.
ghost use Rattle.std.specs.Prelude.{◌≡◌, reverse, take};
ghost use Rattle.std.specs.List.{filter, list_any};
ghost use Rattle.su_bytes.specs.Place.{file_eq};
ghost use Rattle.su_history.specs.Line.{files_of, names};

use crate::deeds::is_same;
use crate::line::{Deed, Line};
use su_bytes::FileId;

/// Returns those of the lines that name a file or a directory, in their order.
pub fn of_file(mut lines: Vec<Line>, file: FileId) -> Vec<Line>
    ensures { result.items ≡ filter (names file) lines.items }
{
    lines.retain(|line| names(&line.deed, file));
    lines
}

/// Returns the last of the lines, so many or all of them, the newest first.
pub fn newest(mut lines: Vec<Line>, count: usize) -> Vec<Line>
    ensures { result.items ≡ take count (reverse lines.items) }
{
    lines.reverse();
    lines.truncate(count);
    lines
}

/// Tells whether a deed names that file.
fn names(deed: &Deed, file: FileId) -> bool
    ensures { result ≡ list_any (file_eq file) (files_of deed.now) }
{
    match deed {
        Deed::Made(made) => is_one_of(file, &[made.dir, made.file]),
        Deed::Put { made, .. } => is_one_of(file, &[made.dir, made.file]),
        Deed::Wrote { file: written, .. } => is_same(file, *written),
        Deed::Cut(cut) => is_same(file, cut.file),
        Deed::Linked(link) => is_one_of(file, &[link.dir, link.file]),
        Deed::Renamed(rename) => is_one_of(file, &[rename.from_, rename.to_, rename.file]),
        Deed::Removed(unlink) => is_one_of(file, &[unlink.dir, unlink.file]),
        Deed::TookOver(take) => is_same(file, take.file),
        Deed::Together(several) => is_one_of(file, several.files.as_slice()),
        Deed::Dropped(_) | Deed::Undid(_) | Deed::NamedKey => false,
    }
}

/// Tells whether a file is one of these.
fn is_one_of(file: FileId, files: &[FileId]) -> bool
    ensures { result ≡ list_any (file_eq file) files.now }
{
    files.iter().any(|other| is_same(file, *other))
}
