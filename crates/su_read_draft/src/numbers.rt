// Free numbers.
ghost use Rattle.std.specs.Prelude.{◌≡◌};
ghost use Rattle.su_draft.specs.Number.{free_body, free_group_number};
ghost use Rattle.su_reading.specs.Reading.{WorksOut};

use su_bytes::{FileId, Group, Inum, Refusal, User};
use su_reading::TreeReader;

/// Returns the least free number of a user's table above `used`. `BadNumber` where none is free; or
/// as the reader fails.
pub(crate) fn free_body<R: TreeReader>(
    reader: &mut R,
    user: User,
    used: u32,
) -> Result<Inum, Refusal>
    ensures works_out { WorksOut R.shows R.fails R.follows reader.old reader.new result
        (λ n. n) (λ T. free_body T user used) }
{
    // names the type for the prover (docs/ARCHITECTURE.md, "Forms the kit wants")
    let _none: Option<FileId> = None;
    let start = Inum::new(u64::from(used) + 1)?;
    match reader.free_number(user, start)? {
        Some(number) => Ok(number),
        None => Err(Refusal::BadNumber),
    }
}

/// Returns the least free number of a group's table. `BadNumber` where none is free; or as the reader
/// fails.
pub(crate) fn free_in_group<R: TreeReader>(reader: &mut R, group: Group) -> Result<Inum, Refusal>
    ensures works_out { WorksOut R.shows R.fails R.follows reader.old reader.new result
        (λ n. n) (λ T. free_group_number T group) }
{
    // names the type for the prover (docs/ARCHITECTURE.md, "Forms the kit wants")
    let _none: Option<FileId> = None;
    match reader.free_group_number(group, Inum::FIRST)? {
        Some(number) => Ok(number),
        None => Err(Refusal::BadNumber),
    }
}
