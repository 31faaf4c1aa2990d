// A file is cut or filled.
ghost use Rattle.su_reading.specs.Reading.{WorksOut};
ghost use Rattle.su_draft.specs.Truncate.{truncate_draft};

use crate::drafts::Draft;
use crate::paths::read_path;
use crate::walks::at;
use std::alloc::Global;
use su_bytes::{Refusal, User};
use su_op::{Op, Truncate};
use su_reading::TreeReader;

/// Plans a cut of a file to a size, or zeros up to it.
pub(crate) fn truncate<R: TreeReader>(
    alloc: Global,
    reader: &mut R,
    author: User,
    path: &[u8],
    size: u32,
) -> Result<Vec<Op>, Refusal>
    ensures works_out { WorksOut R.shows R.fails R.follows reader.old reader.new result
        (λ v. v.items) (λ T. truncate_draft T author path.now size) }
{
    let names = read_path(alloc, path)?;
    let file = at(reader, names.as_slice())?;
    let draft = Draft::new(alloc, author).with_take(reader, &file)?;
    let truncate = Truncate { file, size };
    Ok(draft.with(Op::Truncate(truncate))?.operations())
}
