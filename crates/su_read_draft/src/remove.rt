// A name goes.
ghost use Rattle.su_reading.specs.Reading.{WorksOut};
ghost use Rattle.su_draft.specs.Remove.{remove_draft};

use crate::drafts::Draft;
use crate::paths::NamedPath;
use crate::walks::{directory_of, entry};
use std::alloc::Global;
use su_bytes::{Refusal, User};
use su_op::{Op, Unlink};
use su_reading::TreeReader;

/// Plans the unlink of the last name of a path.
pub(crate) fn remove<R: TreeReader>(
    alloc: Global,
    reader: &mut R,
    author: User,
    path: &[u8],
) -> Result<Vec<Op>, Refusal>
    ensures works_out { WorksOut R.shows R.fails R.follows reader.old reader.new result
        (λ v. v.items) (λ T. remove_draft T author path.now) }
{
    let path = NamedPath::new(alloc, path)?;
    let directory = directory_of(reader, &path)?;
    let file = entry(reader, &directory, &path.name)?;
    let draft = Draft::new(alloc, author)
        .with_take(reader, &directory)?
        .with_take(reader, &file)?;
    let unlink = Unlink {
        dir: directory,
        name: path.name,
        file,
    };
    Ok(draft.with(Op::Unlink(unlink))?.operations())
}
