// Bodies to which no file id leads any more.
ghost use Rattle.std.specs.Prelude.{◌≡◌, Ok};
ghost use Rattle.su_op.specs.DropBody.{group_home, leads_here, stale_home};
ghost use Rattle.su_bytes.specs.declared.file_ids.Kind.{Kind};
ghost use Rattle.su_node.specs.Field.{Field.KindOf, Value.AKind};
ghost use Rattle.su_table.specs.Cell.{Cell.At, Cell.Pointer, val};
ghost use Rattle.su_reading.specs.Reading.{WorksOut};

use su_bytes::{FileId, GroupFile, Place, Refusal};
use su_reading::TreeReader;

/// Returns the group file that the body at `place` was made for, where its pointer is gone or leads
/// elsewhere.
pub(crate) fn stale_home<R: TreeReader>(
    reader: &mut R,
    place: Place,
) -> Result<Option<GroupFile>, Refusal>
    ensures works_out { WorksOut R.shows R.fails R.follows reader.old reader.new result
        (λ home. home) (λ T. Ok (stale_home T place)) }
{
    let Some(home) = group_home(reader, place)? else {
        return Ok(None);
    };
    if leads_here(reader, &home, &place)? {
        Ok(None)
    } else {
        Ok(Some(home))
    }
}

/// Returns the group file that what stands at `place` was made for, if it was made for one.
fn group_home<R: TreeReader>(reader: &mut R, place: Place) -> Result<Option<GroupFile>, Refusal>
    ensures works_out { WorksOut R.shows R.fails R.follows reader.old reader.new result
        (λ home. home) (λ T. Ok (group_home (val T (At place KindOf)))) }
{
    match reader.head(place)? {
        Some(head) => Ok(as_group_file(head.home)),
        None => Ok(None),
    }
}

/// Returns the group file that the file is, if it is one.
fn as_group_file(file: FileId) -> Option<GroupFile>
    ensures { (kind : Kind) → result ≡ group_home (AKind kind file) }
{
    match file {
        FileId::User(..) => None,
        FileId::Group(group, number) => Some((group, number)),
    }
}

/// Tells whether the pointer of a group file leads to `place`.
fn leads_here<R: TreeReader>(
    reader: &mut R,
    file: &GroupFile,
    place: &Place,
) -> Result<bool, Refusal>
    ensures works_out { WorksOut R.shows R.fails R.follows reader.old reader.new result
        (λ leads. leads) (λ T. Ok (leads_here (val T (Pointer file.now)) place.now)) }
{
    let (group, number) = *file;
    match reader.body(FileId::Group(group, number))? {
        Some(body) => Ok(body == *place),
        None => Ok(false),
    }
}
