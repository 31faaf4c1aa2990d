// Bytes are written to a file.
ghost use Rattle.su_reading.specs.Reading.{WorksOut};
ghost use Rattle.su_draft.specs.Write.{write_draft};

use crate::drafts::Draft;
use crate::paths::read_path;
use crate::walks::at;
use std::alloc::Global;
use su_bytes::{Refusal, User};
use su_op::{Op, Write};
use su_reading::TreeReader;

/// Plans a write of bytes from an offset on.
pub(crate) fn write<R: TreeReader>(
    alloc: Global,
    reader: &mut R,
    author: User,
    path: &[u8],
    off: u32,
    bytes: &[u8],
) -> Result<Vec<Op>, Refusal>
    ensures works_out { WorksOut R.shows R.fails R.follows reader.old reader.new result
        (λ v. v.items) (λ T. write_draft T author path.now off bytes.now) }
{
    let names = read_path(alloc, path)?;
    let file = at(reader, names.as_slice())?;
    let draft = Draft::new(alloc, author).with_take(reader, &file)?;
    let bytes = Vec::from_slice(alloc, bytes)?;
    let write = Write { file, off, bytes };
    Ok(draft.with(Op::Write(write))?.operations())
}
