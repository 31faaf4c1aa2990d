// What an operation does to the bytes of a file.
ghost use Rattle.std.specs.Prelude.{◌≡◌};
ghost use Rattle.su_desk.specs.Filling.{filling_by, filling_of};
ghost use Rattle.su_op.specs.Action.{only_of};

use su_bytes::{FileId, Kind};
use su_op::{Batch, Op};

/// What a change of one operation does to the bytes of a file.
#[derive(Clone, Copy, Debug)]
pub enum Filling {
    /// Makes the file, which has none yet.
    Makes(FileId),
    /// Writes to the file or cuts it.
    Edits(FileId),
    /// Does neither; or is several operations, or none.
    Neither,
}

impl Filling {
    /// Returns what a batch does.
    pub(crate) fn of(batch: &Batch) -> Filling
        ensures { result ≡ filling_of (only_of batch.now) }
    {
        match batch.only() {
            Some(op) => Filling::by(op),
            None => Filling::Neither,
        }
    }

    /// Returns what an operation does.
    fn by(op: &Op) -> Filling
        ensures { result ≡ filling_by op.now }
    {
        match op {
            Op::Create(create) if create.kind == Kind::File => Filling::Makes(create.file),
            Op::Write(write) => Filling::Edits(write.file),
            Op::Truncate(truncate) => Filling::Edits(truncate.file),
            _ => Filling::Neither,
        }
    }
}
