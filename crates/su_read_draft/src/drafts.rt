// The operations of a command, as they are planned one after another.
ghost use Rattle.std.specs.Prelude.{◌≡◌, Ok};
ghost use Rattle.std.specs.List.{list_any};
ghost use Rattle.su_draft.specs.Refusable.{Gives};
ghost use Rattle.su_reading.specs.Reading.{WorksOut};
ghost use Rattle.su_draft.specs.Draft.{empty_draft, with_operation, next_body, is_others, needs_take, taken, with_take, takes};
ghost use Rattle.su_read_draft.specs.Seen.{seen_draft};

use crate::numbers::free_body;
use std::alloc::Global;
use su_bytes::{FileId, Inum, Place, Refusal, User};
use su_op::{Op, Take};
use su_reading::TreeReader;

/// Operations that are planned, each to be made after those before it.
#[derive(Drop)]
pub(crate) struct Draft {
    author: User,
    operations: Vec<Op>,
    /// The last number of the author's table that they use; 0 before the first.
    used: u32,
}

impl Draft {
    /// Makes a draft without operations.
    pub(crate) fn new(alloc: Global, author: User) -> Draft
        ensures { seen_draft result ≡ empty_draft author }
    {
        Draft {
            author,
            operations: Vec::new(alloc),
            used: 0,
        }
    }

    /// Returns the operations.
    pub(crate) fn operations(self) -> Vec<Op>
        ensures { result.items ≡ (seen_draft self).operations }
    {
        self.operations
    }

    /// Adds an operation. Fails only with `NoMemory`.
    pub(crate) fn with(self, operation: Op) -> Result<Draft, Refusal>
        ensures { Gives seen_draft result (Ok (with_operation (seen_draft self) operation)) }
    {
        let mut draft = self;
        draft.operations.push(operation)?;
        Ok(draft)
    }

    /// Adds a take of a file that is to be written, where it is a group file that another user
    /// holds and that isn't taken yet. `BadNumber` where the author has no free number for it.
    pub(crate) fn with_take<R: TreeReader>(
        self,
        reader: &mut R,
        file: &FileId,
    ) -> Result<Draft, Refusal>
        ensures works_out { WorksOut R.shows R.fails R.follows reader.old reader.new result
            seen_draft (λ T. with_take T (seen_draft self) file.now) }
    {
        if self.needs_take(reader, file)? {
            self.take(reader, file)
        } else {
            Ok(self)
        }
    }

    /// Adds a take of the file.
    fn take<R: TreeReader>(self, reader: &mut R, file: &FileId) -> Result<Draft, Refusal>
        ensures works_out { WorksOut R.shows R.fails R.follows reader.old reader.new result
            seen_draft (λ T. taken T (seen_draft self) file.now) }
    {
        let body = self.next_body(reader)?;
        let mut draft = self;
        draft.operations.push(Op::Take(Take { file: *file, body }))?;
        draft.used = body.number();
        Ok(draft)
    }

    /// Returns the least free number of the author's table that isn't used yet. `BadNumber` where
    /// none is free.
    pub(crate) fn next_body<R: TreeReader>(&self, reader: &mut R) -> Result<Inum, Refusal>
        ensures works_out { WorksOut R.shows R.fails R.follows reader.old reader.new result
            (λ n. n) (λ T. next_body T (seen_draft self.now)) }
    {
        free_body(reader, self.author, self.used)
    }

    /// Tells whether another user holds the group file, and it isn't taken yet.
    fn needs_take<R: TreeReader>(&self, reader: &mut R, file: &FileId) -> Result<bool, Refusal>
        ensures works_out { WorksOut R.shows R.fails R.follows reader.old reader.new result
            (λ needs. needs) (λ T. Ok (needs_take T (seen_draft self.now) file.now)) }
    {
        let FileId::Group(..) = *file else {
            return Ok(false);
        };
        let body = reader.body(*file)?;
        if self.is_others(body) {
            Ok(!self.takes(file))
        } else {
            Ok(false)
        }
    }

    /// Tells whether another user than the author holds the body.
    fn is_others(&self, body: Option<Place>) -> bool
        ensures { result ≡ is_others self.now.author body }
    {
        match body {
            Some(place) => place.0 != self.author,
            None => false,
        }
    }

    /// Tells whether one of the operations takes the file.
    fn takes(&self, file: &FileId) -> bool
        ensures { result ≡ list_any (takes file.now) self.now.operations.items }
    {
        self.operations
            .iter()
            .any(|operation| takes(operation, file))
    }
}

/// Tells whether the operation takes the file.
fn takes(operation: &Op, file: &FileId) -> bool
    ensures { result ≡ takes file.now operation.now }
{
    match operation {
        Op::Take(take) => take.file == *file,
        _ => false,
    }
}
