// Bodies go that no file id leads to.
ghost use Rattle.std.specs.Prelude.{◌≤◌, Ok, IfOk, IfSome};
ghost use Rattle.su_table.specs.Free.{IsLeastTaken};
ghost use Rattle.su_table.specs.Query.{is_free_at};
ghost use Rattle.su_reading.specs.Reading.{WorksOut, Finds};
ghost use Rattle.su_draft.specs.Tidy.{tidy_draft};

use crate::stale::stale_home;
use std::alloc::Global;
use su_bytes::{FileId, Inum, Refusal, User};
use su_op::{DropBody, Op};
use su_reading::TreeReader;

/// Plans a drop of each body of the author's that no file id leads to any more, in the order of
/// their numbers.
pub(crate) fn tidy<R: TreeReader>(
    alloc: Global,
    reader: &mut R,
    author: User,
) -> Result<Vec<Op>, Refusal>
    ensures works_out { WorksOut R.shows R.fails R.follows reader.old reader.new result
        (λ v. v.items) (λ T. Ok (tidy_draft T author)) }
{
    let mut drops = Vec::new(alloc);
    let mut from_ = Inum::FIRST.number();
    while let Some(body) = next_body(reader, author, from_)? {
        if stale_home(reader, (author, body))?.is_some() {
            drops.push(Op::Drop(DropBody { body }))?;
        }
        from_ = body.number() + 1;
    }
    Ok(drops)
}

/// Finds the least number from a number on at which a body of the user's stands. None stands behind
/// the last number.
fn next_body<R: TreeReader>(reader: &mut R, user: User, from_: u32) -> Result<Option<Inum>, Refusal>
    requires { 1 ≤ from_ }
    ensures finds { Finds R.shows R.fails R.follows reader.old reader.new result
        (λ T n. IsLeastTaken (λ i. is_free_at T (user, i)) from_ n) }
    ensures from_ { IfOk result (λ n. IfSome n (λ m. from_ ≤ m)) }
{
    // names the type for the prover (docs/ARCHITECTURE.md, "Forms the kit wants")
    let _none: Option<FileId> = None;
    match Inum::new(u64::from(from_)) {
        Ok(start) => reader.next_inode(user, start),
        Err(_) => Ok(None),
    }
}
