// The way from the root to a file.
ghost use Rattle.std.specs.Prelude.{◌≡◌, Ok};
ghost use Rattle.su_table.specs.Query.{is_dir_at};
ghost use Rattle.su_draft.specs.Walk.{at, entry, directory_place, directory_of, led_to, found};
ghost use Rattle.su_read_draft.specs.Seen.{seen_path};
ghost use Rattle.su_reading.specs.Reading.{WorksOut};

use crate::paths::{NamedPath, read_path};
use std::alloc::Global;
use su_bytes::{FileId, Kind, Name, Place, Refusal};
use su_reading::TreeReader;

/// Returns the file that a path leads to, as it is written. `BadPath` where the bytes are no path;
/// on the way from the root `NoName` where a name is missing, and `WrongKind` of a file in the
/// middle; as the reader fails; or `NoMemory`.
pub fn find<R: TreeReader>(alloc: Global, reader: &mut R, path: &[u8]) -> Result<FileId, Refusal>
    ensures works_out { WorksOut R.shows R.fails R.follows reader.old reader.new result
        (λ file. file) (λ T. found T path.now) }
{
    let names = read_path(alloc, path)?;
    at(reader, names.as_slice())
}

/// Returns the file at the end of a path. `WrongKind` of a file in the middle, `NoName` where a
/// name is missing; or as the reader fails.
pub(crate) fn at<R: TreeReader>(reader: &mut R, names: &[Name]) -> Result<FileId, Refusal>
    ensures works_out { WorksOut R.shows R.fails R.follows reader.old reader.new result
        (λ file. file) (λ T. at T names.now) }
{
    let mut file = FileId::ROOT;
    for name in names {
        file = entry(reader, &file, name)?;
    }
    Ok(file)
}

/// Returns the directory where the last name of a path is looked for. `WrongKind` of a file in its
/// place, else refused as `at` is.
pub(crate) fn directory_of<R: TreeReader>(
    reader: &mut R,
    path: &NamedPath,
) -> Result<FileId, Refusal>
    ensures works_out { WorksOut R.shows R.fails R.follows reader.old reader.new result
        (λ file. file) (λ T. directory_of T (seen_path path.now)) }
{
    let directory = at(reader, path.directory.as_slice())?;
    directory_place(reader, &directory)?;
    Ok(directory)
}

/// Returns the file that a name of a directory leads to. `WrongKind` where the file is no
/// directory, `NoName` where the name is missing; or as the reader fails.
pub(crate) fn entry<R: TreeReader>(
    reader: &mut R,
    directory: &FileId,
    name: &Name,
) -> Result<FileId, Refusal>
    ensures works_out { WorksOut R.shows R.fails R.follows reader.old reader.new result
        (λ file. file) (λ T. entry T directory.now name.now) }
{
    let place = directory_place(reader, directory)?;
    match led_to(reader, place, name)? {
        Some(file) => Ok(file),
        None => Err(Refusal::NoName),
    }
}

/// Returns where a directory stands. `WrongKind` where the file is none; or as the reader fails.
pub(crate) fn directory_place<R: TreeReader>(
    reader: &mut R,
    directory: &FileId,
) -> Result<Place, Refusal>
    ensures works_out { WorksOut R.shows R.fails R.follows reader.old reader.new result
        (λ place. place) (λ T. directory_place T directory.now) }
{
    let Some(place) = reader.body(*directory)? else {
        return Err(Refusal::WrongKind(*directory));
    };
    if is_directory(reader, &place)? {
        Ok(place)
    } else {
        Err(Refusal::WrongKind(*directory))
    }
}

/// Tells whether a directory stands at `place`.
fn is_directory<R: TreeReader>(reader: &mut R, place: &Place) -> Result<bool, Refusal>
    ensures works_out { WorksOut R.shows R.fails R.follows reader.old reader.new result
        (λ is. is) (λ T. Ok (is_dir_at T place.now)) }
{
    match reader.head(*place)? {
        Some(head) => match head.kind {
            Kind::Dir => Ok(true),
            Kind::File => Ok(false),
        },
        None => Ok(false),
    }
}

/// Returns the file that a name leads to in the directory at `place`, if it is there.
pub(crate) fn led_to<R: TreeReader>(
    reader: &mut R,
    place: Place,
    name: &Name,
) -> Result<Option<FileId>, Refusal>
    ensures works_out { WorksOut R.shows R.fails R.follows reader.old reader.new result
        (λ file. file) (λ T. Ok (led_to T place name.now)) }
{
    reader.led_to(place, name)
}
