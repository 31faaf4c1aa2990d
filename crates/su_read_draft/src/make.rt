// A new file or directory.
ghost use Rattle.su_reading.specs.Reading.{WorksOut};
ghost use Rattle.su_draft.specs.Make.{make_draft, new_file};

use crate::drafts::Draft;
use crate::numbers::free_in_group;
use crate::paths::NamedPath;
use crate::walks::directory_of;
use std::alloc::Global;
use su_bytes::{FileId, Inum, Kind, Refusal, User};
use su_op::{Create, Op};
use su_reading::TreeReader;

/// Plans a new empty file or directory.
pub(crate) fn make<R: TreeReader>(
    alloc: Global,
    reader: &mut R,
    author: User,
    kind: Kind,
    path: &[u8],
) -> Result<Vec<Op>, Refusal>
    ensures works_out { WorksOut R.shows R.fails R.follows reader.old reader.new result
        (λ v. v.items) (λ T. make_draft T author kind path.now) }
{
    let path = NamedPath::new(alloc, path)?;
    let directory = directory_of(reader, &path)?;
    let draft = Draft::new(alloc, author).with_take(reader, &directory)?;
    let body = draft.next_body(reader)?;
    let file = new_file(reader, author, &directory, body)?;
    let create = Create {
        dir: directory,
        name: path.name,
        file,
        body,
        kind,
    };
    Ok(draft.with(Op::Create(create))?.operations())
}

/// Returns the file id of what the author makes at number `body`: in a group's directory the
/// group's, with the least number that is free there, in a user's directory the author's own.
/// `BadNumber` where the group has no free number.
fn new_file<R: TreeReader>(
    reader: &mut R,
    author: User,
    directory: &FileId,
    body: Inum,
) -> Result<FileId, Refusal>
    ensures works_out { WorksOut R.shows R.fails R.follows reader.old reader.new result
        (λ file. file) (λ T. new_file T author directory.now body) }
{
    match *directory {
        FileId::User(..) => Ok(FileId::User(author, body)),
        FileId::Group(group, _) => Ok(FileId::Group(group, free_in_group(reader, group)?)),
    }
}
