// What a file of a tree is, its names and its bytes.
ghost use Rattle.su_files.specs.Place.{place_of};
ghost use Rattle.su_files.specs.Stat.{stat_in};
ghost use Rattle.su_reading.specs.Reading.{WorksOut};
ghost use Rattle.su_table.specs.Query.{contents, contents_within, listing};

use crate::stats::Stat;
use su_bytes::{FileId, Name, Place, Refusal};
use su_reading::TreeReader;

/// Tells what a file is: who holds it, its kind, its size and its names. `NoFile` where it has no
/// body, `WrongKind` where a group's pointer points at nothing; as the reader fails; or `NoMemory`.
pub fn stat<R: TreeReader>(reader: &mut R, file: FileId) -> Result<Stat, Refusal>
    ensures works_out { WorksOut R.shows R.fails R.follows reader.old reader.new result
        (λ s. s) (λ T. stat_in T file) }
{
    let (holder, number) = place_of(reader, &file)?;
    match reader.head((holder, number))? {
        Some(head) => Ok(Stat {
            holder,
            kind: head.kind,
            size: head.size,
            links: head.links,
        }),
        None => Err(Refusal::WrongKind(file)),
    }
}

/// Lists the names of a directory with the files that they lead to, ascending. `NoFile` where the
/// file has no body, `WrongKind` where its body is no directory; as the reader fails; or `NoMemory`.
pub fn list<R: TreeReader>(reader: &mut R, file: FileId) -> Result<Vec<(Name, FileId)>, Refusal>
    ensures works_out { WorksOut R.shows R.fails R.follows reader.old reader.new result
        (λ v. v.items) (λ T. listing T file) }
{
    let place = place_of(reader, &file)?;
    match reader.names(place)? {
        Some(names) => Ok(names),
        None => Err(Refusal::WrongKind(file)),
    }
}

/// Reads all bytes of a file. `NoFile` where the file has no body, `WrongKind` where its body is a
/// directory; as the reader fails; or `NoMemory`.
pub fn read<R: TreeReader>(reader: &mut R, file: FileId) -> Result<Vec<u8>, Refusal>
    ensures works_out { WorksOut R.shows R.fails R.follows reader.old reader.new result
        (λ v. v.items) (λ T. contents T file) }
{
    read_at(reader, file, 0, u64::MAX)
}

/// Reads the bytes of a file within a range, which may reach past its end. `NoFile` where the file
/// has no body, `WrongKind` where its body is a directory; as the reader fails; or `NoMemory`.
pub fn read_at<R: TreeReader>(
    reader: &mut R,
    file: FileId,
    off: u64,
    len: u64,
) -> Result<Vec<u8>, Refusal>
    ensures works_out { WorksOut R.shows R.fails R.follows reader.old reader.new result
        (λ v. v.items) (λ T. contents_within T file off len) }
{
    let place = place_of(reader, &file)?;
    match reader.bytes(place, off, len)? {
        Some(bytes) => Ok(bytes),
        None => Err(Refusal::WrongKind(file)),
    }
}

/// Finds where the body of a file stands. `NoFile` where it has none; or as the reader fails.
fn place_of<R: TreeReader>(reader: &mut R, file: &FileId) -> Result<Place, Refusal>
    ensures works_out { WorksOut R.shows R.fails R.follows reader.old reader.new result
        (λ place. place) (λ T. place_of T file.now) }
{
    match reader.body(*file)? {
        Some(place) => Ok(place),
        None => Err(Refusal::NoFile(*file)),
    }
}
