// A file gets one more name.
ghost use Rattle.su_reading.specs.Reading.{WorksOut};
ghost use Rattle.su_draft.specs.Link.{link_draft};

use crate::drafts::Draft;
use crate::paths::{NamedPath, read_path};
use crate::walks::{at, directory_of};
use std::alloc::Global;
use su_bytes::{Refusal, User};
use su_op::{Link, Op};
use su_reading::TreeReader;

/// Plans a link to the file at the old path, by the new one.
pub(crate) fn link<R: TreeReader>(
    alloc: Global,
    reader: &mut R,
    author: User,
    old_: &[u8],
    new_: &[u8],
) -> Result<Vec<Op>, Refusal>
    ensures works_out { WorksOut R.shows R.fails R.follows reader.old reader.new result
        (λ v. v.items) (λ T. link_draft T author old_.now new_.now) }
{
    let names = read_path(alloc, old_)?;
    let path = NamedPath::new(alloc, new_)?;
    let file = at(reader, names.as_slice())?;
    let directory = directory_of(reader, &path)?;
    let draft = Draft::new(alloc, author)
        .with_take(reader, &directory)?
        .with_take(reader, &file)?;
    let link = Link {
        dir: directory,
        name: path.name,
        file,
    };
    Ok(draft.with(Op::Link(link))?.operations())
}
