// A file gets another name.
ghost use Rattle.su_reading.specs.Reading.{WorksOut};
ghost use Rattle.su_draft.specs.Rename.{rename_draft, moved, with_name_free};
ghost use Rattle.su_read_draft.specs.Seen.{seen_draft};

use crate::drafts::Draft;
use crate::paths::NamedPath;
use crate::walks::{directory_of, directory_place, entry, led_to};
use std::alloc::Global;
use su_bytes::{FileId, Name, Refusal, User};
use su_op::{Op, Rename, Unlink};
use su_reading::TreeReader;

/// Plans another name for the file at the old path: the new path. What has that name before is
/// unlinked. A rename of a path to itself needs no operation.
pub(crate) fn rename<R: TreeReader>(
    alloc: Global,
    reader: &mut R,
    author: User,
    old_: &[u8],
    new_: &[u8],
) -> Result<Vec<Op>, Refusal>
    ensures works_out { WorksOut R.shows R.fails R.follows reader.old reader.new result
        (λ v. v.items) (λ T. rename_draft T author old_.now new_.now) }
{
    let source = NamedPath::new(alloc, old_)?;
    let target = NamedPath::new(alloc, new_)?;
    let from_ = directory_of(reader, &source)?;
    let file = entry(reader, &from_, &source.name)?;
    let to_ = directory_of(reader, &target)?;
    if old_ == new_ {
        return Ok(Vec::new(alloc));
    }
    let rename = Rename {
        from_,
        old_: source.name,
        to_,
        new_: target.name,
        file,
    };
    moved(alloc, reader, author, rename)
}

/// Plans a rename, with the name free where the file goes.
fn moved<R: TreeReader>(
    alloc: Global,
    reader: &mut R,
    author: User,
    rename: Rename,
) -> Result<Vec<Op>, Refusal>
    ensures works_out { WorksOut R.shows R.fails R.follows reader.old reader.new result
        (λ v. v.items) (λ T. moved T author rename) }
{
    let draft = Draft::new(alloc, author)
        .with_take(reader, &rename.from_)?
        .with_take(reader, &rename.to_)?;
    let draft = with_name_free(draft, reader, &rename.to_, &rename.new_)?;
    Ok(draft.with(Op::Rename(rename))?.operations())
}

/// Adds the unlink of a name of a directory, where the name is there.
fn with_name_free<R: TreeReader>(
    draft: Draft,
    reader: &mut R,
    directory: &FileId,
    name: &Name,
) -> Result<Draft, Refusal>
    ensures works_out { WorksOut R.shows R.fails R.follows reader.old reader.new result
        seen_draft (λ T. with_name_free T (seen_draft draft) directory.now name.now) }
{
    let place = directory_place(reader, directory)?;
    let Some(replaced) = led_to(reader, place, name)? else {
        return Ok(draft);
    };
    let unlink = Unlink {
        dir: *directory,
        name: name.clone()?,
        file: replaced,
    };
    draft.with_take(reader, &replaced)?.with(Op::Unlink(unlink))
}
