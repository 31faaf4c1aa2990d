// What a user wants done, by paths.
ghost use Rattle.std.specs.Prelude.{◌≡◌, true};
ghost use Rattle.su_bytes.specs.Membership.{Membership, has_user};
ghost use Rattle.su_reading.specs.Reading.{WorksOut};
ghost use Rattle.su_draft.specs.Command.{draft};

use crate::link::link;
use crate::make::make;
use crate::remove::remove;
use crate::rename::rename;
use crate::tidy::tidy;
use crate::truncate::truncate;
use crate::write::write;
use std::alloc::Global;
use su_bytes::{Kind, Refusal, Roster, User};
use su_draft::Command;
use su_op::Op;
use su_reading::TreeReader;

/// Returns the operations of the user that carry a command out, before it is known whether they are
/// accepted. The first refusal in order: `NoUser`; then those of `draft_of_member`.
pub fn draft<R: TreeReader>(
    command: &Command,
    alloc: Global,
    reader: &mut R,
    roster: &Roster,
    user: User,
) -> Result<Vec<Op>, Refusal>
    ensures works_out { WorksOut R.shows R.fails R.follows reader.old reader.new result
        (λ v. v.items) (λ T. draft roster.now T user command.now) }
{
    if !roster.has_user(user) {
        return Err(Refusal::NoUser(user));
    }
    draft_of_member(command, alloc, reader, user)
}

/// Returns the operations of a user of the store's that carry a command out, as `draft` does. The
/// first refusal in order: `BadPath` of what is no path, or of the root where a name is needed; on the
/// way from the root, along the old path first, `NoName` where a name is missing and `WrongKind` of a
/// file in the middle; `BadNumber` where no number is free; as the reader fails; or `NoMemory`.
pub fn draft_of_member<R: TreeReader>(
    command: &Command,
    alloc: Global,
    reader: &mut R,
    user: User,
) -> Result<Vec<Op>, Refusal>
    ensures works_out { (ro : Membership) → has_user ro user ≡ true
        → WorksOut R.shows R.fails R.follows reader.old reader.new result
        (λ v. v.items) (λ T. draft ro T user command.now) }
{
    match command {
        Command::Mkdir { path } => make(alloc, reader, user, Kind::Dir, path.as_slice()),
        Command::Create { path } => make(alloc, reader, user, Kind::File, path.as_slice()),
        Command::Write { path, off, bytes } => {
            write(alloc, reader, user, path.as_slice(), *off, bytes.as_slice())
        }
        Command::Truncate { path, size } => truncate(alloc, reader, user, path.as_slice(), *size),
        Command::Link { old_, new_ } => {
            link(alloc, reader, user, old_.as_slice(), new_.as_slice())
        }
        Command::Rename { old_, new_ } => {
            rename(alloc, reader, user, old_.as_slice(), new_.as_slice())
        }
        Command::Remove { path } => remove(alloc, reader, user, path.as_slice()),
        Command::Tidy => tidy(alloc, reader, user),
    }
}
